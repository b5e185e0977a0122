// Lines of the book, read.
ghost use Rattle.std.specs.Prelude.{◌≡◌, IfNone};
ghost use Rattle.std.specs.Option.{option_map};
ghost use Rattle.bounded.specs.Numbers.{number_of};
ghost use Rattle.browser.specs.Values.{out_of, outs_of};
ghost use Rattle.words.specs.Scans.{with};
ghost use Rattle.book.specs.Records.{event_of, entry_of};
ghost use Rattle.book.specs.Reading.{site_after, turn_then, open_then, event_then, window_then, asks_then, says_then, opens_then, lets_then, what_then, out_then, up_to_one, entry_then, read_line};
ghost use Rattle.book.specs.Found.{rest_of, line_of};

use crate::record::{Event, Record};
use bounded::site::SiteNumber;
use browser::values::{Out, What};
use words::scan::Scanner;

// A line of the book: the number of the event, and what the book holds of it.
#[derive(Clone, Copy)]
pub struct Line {
    pub number: u64,
    pub record: Record,
}

// The number of a site behind a fixed text.
fn site(text: &mut Scanner<'_>, word: &[u8]) -> Option<SiteNumber>
    ensures { with (option_map number_of result) (rest_of text.new) ≡ site_after word.now (rest_of text.old) }
{
    let n = text.number(word, 15)?;
    SiteNumber::new(n as u32)
}

fn turn(text: &mut Scanner<'_>) -> Option<Event>
    ensures { with (option_map event_of result) (rest_of text.new) ≡ turn_then (rest_of text.old) }
{
    let n = text.number(b"", u32::MAX as u64)?;
    Some(Event::Turn { window: n as u32 })
}

fn open(text: &mut Scanner<'_>) -> Option<Event>
    ensures { with (option_map event_of result) (rest_of text.new) ≡ open_then (rest_of text.old) }
{
    let to = site(text, b"")?;
    let path = text.bytes(b" x")?;
    Some(Event::Opening { site: to, path })
}

fn event(text: &mut Scanner<'_>) -> Option<Event>
    ensures { with (option_map event_of result) (rest_of text.new) ≡ event_then (rest_of text.old) }
{
    if text.skip(b" turn ") {
        return turn(text);
    }
    if text.skip(b" open ") {
        return open(text);
    }
    None
}

// The site of the window, or a dash: two answers, beside the one that neither stands here.
fn window(text: &mut Scanner<'_>) -> Option<Option<SiteNumber>>
    ensures { with (option_map (option_map number_of) result) (rest_of text.new) ≡ window_then (rest_of text.old) }
{
    if text.skip(b" -") {
        return Some(None);
    }
    Some(Some(site(text, b" ")?))
}

// What is let out, of each kind: each has parts of its own, in their order.

fn asks(text: &mut Scanner<'_>, from: SiteNumber) -> Option<Out>
    ensures { with (option_map out_of result) (rest_of text.new) ≡ asks_then (number_of from) (rest_of text.old) }
{
    let to = site(text, b"")?;
    let path = text.bytes(b" x")?;
    let body = text.bytes(b" x")?;
    let what = What::Asked { path, body };
    Some(Out { from, to, what })
}

fn says(text: &mut Scanner<'_>, from: SiteNumber) -> Option<Out>
    ensures { with (option_map out_of result) (rest_of text.new) ≡ says_then (number_of from) (rest_of text.old) }
{
    let to = site(text, b"")?;
    let n = text.number(b" ", u32::MAX as u64)?;
    let said = text.bytes(b" x")?;
    let window = n as u32;
    let what = What::Said { window, what: said };
    Some(Out { from, to, what })
}

fn opens(text: &mut Scanner<'_>, from: SiteNumber) -> Option<Out>
    ensures { with (option_map out_of result) (rest_of text.new) ≡ opens_then (number_of from) (rest_of text.old) }
{
    let to = site(text, b"")?;
    let path = text.bytes(b" x")?;
    let what = What::Opened { path };
    Some(Out { from, to, what })
}

fn lets(text: &mut Scanner<'_>, from: SiteNumber) -> Option<Out>
    ensures { with (option_map out_of result) (rest_of text.new) ≡ lets_then (number_of from) (rest_of text.old) }
{
    let to = site(text, b"")?;
    let n = text.number(b" ", u16::MAX as u64)?;
    let body = text.bytes(b" x")?;
    let code = n as u16;
    let what = What::Let { code, body };
    Some(Out { from, to, what })
}

fn what(text: &mut Scanner<'_>, from: SiteNumber) -> Option<Out>
    ensures { with (option_map out_of result) (rest_of text.new) ≡ what_then (number_of from) (rest_of text.old) }
{
    if text.skip(b" asks ") {
        return asks(text, from);
    }
    if text.skip(b" says ") {
        return says(text, from);
    }
    if text.skip(b" opens ") {
        return opens(text, from);
    }
    if text.skip(b" lets ") {
        return lets(text, from);
    }
    None
}

fn out(text: &mut Scanner<'_>) -> Option<Out>
    ensures { with (option_map out_of result) (rest_of text.new) ≡ out_then (rest_of text.old) }
{
    let from = site(text, b"")?;
    what(text, from)
}

// What stands behind a bar, if there is one: nothing at all is an answer too, and not that it can't be read.
fn next_out(text: &mut Scanner<'_>) -> Option<Option<Out>>
    ensures { with (option_map outs_of result) (rest_of text.new) ≡ up_to_one (rest_of text.old) }
{
    if !text.skip(b" | ") {
        return Some(None);
    }
    Some(Some(out(text)?))
}

// What follows the event's number, up to the newline.
fn record(text: &mut Scanner<'_>) -> Option<Record>
    ensures { with (option_map entry_of result) (rest_of text.new) ≡ entry_then (rest_of text.old) }
{
    let event = event(text)?;
    let site = window(text)?;
    let n = text.number(b" ", u8::MAX as u64)?;
    // No `?` here, nor where a record and a line are handed on: each is of some kilobytes, which it would copy once more.
    // Above, where it copies what is let out, it costs nothing that can be measured.
    let Some(page) = next_out(text) else {
        return None;
    };
    let Some(server) = next_out(text) else {
        return None;
    };
    if !text.skip(b"\n") {
        return None;
    }
    let fault = n as u8;
    Some(Record {
        event,
        site,
        fault,
        page,
        server,
    })
}

fn next_line(text: &mut Scanner<'_>) -> Option<Line>
    ensures { with (option_map line_of result) (rest_of text.new) ≡ read_line (rest_of text.old) }
{
    let number = text.number(b"", u64::MAX)?;
    let Some(record) = record(text) else {
        return None;
    };
    Some(Line { number, record })
}

// The line that stands here, which is then read. If there is none, all is still to be read.
pub fn read_line(text: &mut Scanner<'_>) -> Option<Line>
    ensures is { with (option_map line_of result) (rest_of text.new) ≡ read_line (rest_of text.old) }
    ensures stays { IfNone result (rest_of text.new ≡ rest_of text.old) }
{
    let start = *text;
    let Some(found) = next_line(text) else {
        *text = start;
        return None;
    };
    Some(found)
}
