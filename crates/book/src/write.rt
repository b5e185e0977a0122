// Lines of the book, written.
ghost use Rattle.std.specs.Prelude.{◌≡◌, ℕ, ◌≤◌, List, ◌++◌, length, drop, IfSome, if◌then◌else◌, Some, None, decimal, OnSome, nat_le};
ghost use Rattle.std.specs.Option.{option_map};
ghost use Rattle.std.specs.List.{AllByRecursion};
ghost use Rattle.bounded.specs.Numbers.{number_of};
ghost use Rattle.browser.specs.Values.{what_of, outs_of};
ghost use Rattle.words.specs.Hex.{AllBytes};
ghost use Rattle.book.specs.Records.{event_of, entry_of};
ghost use Rattle.book.specs.Lines.{bytes_text, event_text, site_text, what_text, outs_text, line_text};
ghost use Rattle.book.specs.Reading.{read_line};
ghost use Rattle.book.specs.Ranges.{EventIn, SiteIn, WhatIn, OutIn, InRange};
ghost use Rattle.book.specs.Putting.{Puts};

use crate::record::{Event, Record};
use bounded::site::SiteNumber;
use browser::values::{Out, What};
use octets::pieces::put_from;
use words::hex::put_bytes;
use words::numbers::put_number;

// Room and place are passed on from one function to the next: of a struct that lends the room, nothing is known of the
// room's bytes once it is let go.

// No line is longer.
pub const LINE_ROOM: usize = 17_000;

fn fixed(room: &mut [u8], at: usize, text: &[u8]) -> usize
    ensures { Puts at text.now room.old result room.new }
{
    put_from(room, at, &[text]).unwrap_or(at)
}

fn number(room: &mut [u8], at: usize, word: &[u8], n: u64) -> usize
    ensures { Puts at (word.now ++ decimal n) room.old result room.new }
{
    put_number(room, at, word, n).unwrap_or(at)
}

fn bytes(room: &mut [u8], at: usize, bs: &[u8]) -> usize
    ensures puts { Puts at (bytes_text bs.now) room.old result room.new }
    ensures bytes { AllBytes bs.now }
{
    put_bytes(room, at, b" x", bs).unwrap_or(at)
}

fn site(room: &mut [u8], at: usize, word: &[u8], n: SiteNumber) -> usize
    ensures { Puts at (word.now ++ decimal (number_of n)) room.old result room.new }
{
    number(room, at, word, n.number() as u64)
}

fn event(room: &mut [u8], at: usize, happened: &Event) -> usize
    ensures puts { Puts at (event_text (event_of happened.now)) room.old result room.new }
    ensures range { EventIn (event_of happened.now) }
{
    match happened {
        Event::Opening { site: to, path } => {
            let next = site(room, at, b" open ", *to);
            bytes(room, next, path.as_slice())
        }
        Event::Turn { window } => number(room, at, b" turn ", *window as u64),
    }
}

// The site of the window, or a dash.
fn window(room: &mut [u8], at: usize, own: Option<SiteNumber>) -> usize
    ensures puts { Puts at (site_text (option_map number_of own)) room.old result room.new }
    ensures range { SiteIn (option_map number_of own) }
{
    match own {
        Some(n) => site(room, at, b" ", n),
        None => fixed(room, at, b" -"),
    }
}

fn what(room: &mut [u8], at: usize, to: SiteNumber, is: &What) -> usize
    ensures puts { Puts at (what_text (number_of to) (what_of is.now)) room.old result room.new }
    ensures range { WhatIn (what_of is.now) }
{
    match is {
        What::Asked { path, body } => {
            let next = site(room, at, b" asks ", to);
            let next = bytes(room, next, path.as_slice());
            bytes(room, next, body.as_slice())
        }
        What::Said { window, what: said } => {
            let next = site(room, at, b" says ", to);
            let next = number(room, next, b" ", *window as u64);
            bytes(room, next, said.as_slice())
        }
        What::Opened { path } => {
            let next = site(room, at, b" opens ", to);
            bytes(room, next, path.as_slice())
        }
        What::Let { code, body } => {
            let next = site(room, at, b" lets ", to);
            let next = number(room, next, b" ", *code as u64);
            bytes(room, next, body.as_slice())
        }
    }
}

// What is let out, if anything is.
fn out(room: &mut [u8], at: usize, o: &Option<Out>) -> usize
    ensures puts { Puts at (outs_text (outs_of o.now)) room.old result room.new }
    ensures range { AllByRecursion OutIn (outs_of o.now) }
{
    match o {
        Some(o) => {
            let next = site(room, at, b" | ", o.from);
            what(room, next, o.to, &o.what)
        }
        None => at,
    }
}

fn line(room: &mut [u8], n: u64, noted: &Record) -> usize
    ensures puts { Puts 0 (line_text n (entry_of noted.now)) room.old result room.new }
    ensures range { InRange (entry_of noted.now) }
{
    let at = number(room, 0, b"", n);
    let at = event(room, at, &noted.event);
    let at = window(room, at, noted.site);
    let at = number(room, at, b" ", noted.fault as u64);
    let at = out(room, at, &noted.page);
    let at = out(room, at, &noted.server);
    fixed(room, at, b"\n")
}

// Writes the line of an event at the front of a room of at least LINE_ROOM bytes, and gives its length; else nothing. It
// is read back, whatever follows it.
pub fn write_line(room: &mut [u8], n: u64, noted: &Record) -> Option<usize>
    ensures answer { result ≡ (if nat_le 17000 (length room.old) then Some (length (line_text n (entry_of noted.now))) else None) }
    ensures after { room.new ≡ (if nat_le 17000 (length room.old) then line_text n (entry_of noted.now) ++ drop (length (line_text n (entry_of noted.now))) room.old else room.old) }
    ensures short { IfSome result (λ k. k ≤ 17000) }
    ensures back { OnSome result ((rest : List ℕ) → read_line (line_text n (entry_of noted.now) ++ rest) ≡ Some ((n, entry_of noted.now), rest)) }
{
    if room.len() < LINE_ROOM {
        return None;
    }
    Some(line(room, n, noted))
}
