// Settings written: sites first, then windows, then turns.
ghost use Rattle.std.specs.Prelude.{◌≡◌, ◌≤◌, [], ◌∷◌, ◌++◌, length, drop, Some};
ghost use Rattle.std.specs.Option.{option_map};
ghost use Rattle.std.specs.List.{slice_get, flat_map};
ghost use Rattle.octets.specs.Buffers.{room_after, over, written, count};
ghost use Rattle.addresses.specs.Views.{site_of};
ghost use Rattle.settings.specs.Views.{settings_of, sites_in, open_of};
ghost use Rattle.settings.specs.Written.{site_line, open_line, turn_text, settings_text, lines_of};
ghost use Rattle.settings.specs.Unwritten.{line_of, left_of};

use crate::lines::TurnLine;
use crate::{Open, Settings, Turns};
use addresses::{Site, port_text};
use bounded::fixed::FixedVec;
use octets::pieces::{put_from, room_after};
use octets::small::SmallText;
use std::slice;

// A line in its parts, without its newline. The number is a port after a host, or a count.
#[derive(Clone, Copy)]
struct LineText<'a> {
    word: &'a [u8],
    host: &'a [u8],
    number: SmallText,
    end: &'a [u8],
}

// The lines that are still to be written: of sites, of windows (whose sites are among all), of turns.
#[derive(Drop)]
struct Unwritten<'s, 'a> {
    all: &'s FixedVec<Site<'a>, 16>,
    sites: slice::Iter<'s, Site<'a>>,
    opens: slice::Iter<'s, Open<'a>>,
    turns: Turns<'a>,
}

impl LineText<'_> {
    // The parts and a newline.
    fn pieces<'p>(&'p self) -> [&'p [u8]; 5]
        ensures { flat_map (λ x. x.now) result ≡ line_of self.now ++ (10 ∷ []) }
    {
        // each at the one lifetime that a list of pieces has
        let word: &'p [u8] = self.word;
        let host: &'p [u8] = self.host;
        let end: &'p [u8] = self.end;
        [word, host, self.number.as_bytes(), end, b"\n"]
    }
}

fn site_line<'a>(site: Site<'a>) -> LineText<'a>
    ensures { line_of result ≡ site_line (site_of site.entry) }
{
    LineText {
        word: b"site https://",
        host: site.host,
        number: port_text(site.port),
        end: b"/",
    }
}

// The line of a window of one of these sites; an empty one if there is no such site.
fn open_line<'a>(sites: &FixedVec<Site<'a>, 16>, open: Open<'a>) -> LineText<'a>
    ensures { line_of result ≡ open_line (sites_in sites.now) (open_of «open».entry) }
{
    match sites.get(open.site) {
        Some(site) => LineText {
            word: b"open https://",
            host: site.host,
            number: port_text(site.port),
            end: open.path,
        },
        None => LineText {
            word: b"",
            host: b"",
            number: SmallText::empty(),
            end: b"",
        },
    }
}

fn turn_line(turn: TurnLine) -> LineText<'static>
    ensures { line_of result ≡ turn_text turn }
{
    match turn {
        TurnLine::Window(n) => LineText {
            word: b"turn ",
            host: b"",
            number: SmallText::decimal(n as u64),
            end: b"",
        },
        TurnLine::Rounds(n) => LineText {
            word: b"",
            host: b"",
            number: SmallText::decimal(n as u64),
            end: b" times all",
        },
    }
}

impl<'s, 'a> Unwritten<'s, 'a> {
    fn of(settings: &'s Settings<'a>) -> Unwritten<'s, 'a>
        ensures { left_of result ≡ lines_of (settings_of settings.now) }
    {
        Unwritten {
            all: &settings.sites,
            sites: settings.sites.as_slice().iter(),
            opens: settings.opens.as_slice().iter(),
            turns: settings.turns,
        }
    }

    // The next line, which is then written.
    fn next(&mut self) -> Option<LineText<'a>>
        ensures is { option_map line_of result ≡ slice_get (left_of self.old) 0 }
        ensures left { left_of self.new ≡ drop 1 (left_of self.old) }
    {
        if let Some(site) = self.sites.next() {
            return Some(site_line(*site));
        }
        if let Some(open) = self.opens.next() {
            return Some(open_line(self.all, *open));
        }
        let turn = self.turns.next()?;
        Some(turn_line(turn))
    }
}

// The room that is left of n bytes after all lines, if they fit.
fn room_for(settings: &Settings<'_>, n: usize) -> Option<usize>
    ensures { result ≡ room_after (settings_text (settings_of settings.now)) n }
{
    let mut left = Unwritten::of(settings);
    let mut room = n;
    while let Some(line) = left.next() {
        room = room_after(&line.pieces(), room)?;
    }
    Some(room)
}

fn put_lines(out: &mut [u8], settings: &Settings<'_>) -> Option<usize>
    requires { length (settings_text (settings_of settings.now)) ≤ length out.old }
    ensures answer { result ≡ Some (length (settings_text (settings_of settings.now))) }
    ensures after { out.new ≡ over 0 out.old (settings_text (settings_of settings.now)) }
{
    let mut left = Unwritten::of(settings);
    let mut at = 0;
    while let Some(line) = left.next() {
        at = put_from(out, at, &line.pieces())?;
    }
    Some(at)
}

// Writes settings at the front of the buffer, if they fit; else nothing. So the lines are gone through twice: what one
// walk finds out, that all of them fit, is known before the other writes.
pub fn write_settings(out: &mut [u8], settings: Settings<'_>) -> Option<usize>
    ensures answer { result ≡ count (settings_text (settings_of settings.entry)) out.old }
    ensures after { out.new ≡ written (settings_text (settings_of settings.entry)) out.old }
{
    room_for(&settings, out.len())?;
    put_lines(out, &settings)
}
