// The lines of settings, one by one.
ghost use Rattle.std.specs.Prelude.{◌≡◌, codes};
ghost use Rattle.std.specs.Option.{option_map};
ghost use Rattle.octets.specs.declared.Class.TheVariants.{Digit};
ghost use Rattle.octets.specs.Classes.{has};
ghost use Rattle.octets.specs.Fronts.{after, front, past};
ghost use Rattle.settings.specs.Lines.{count, head_line, rounds_from, turn_line, line_then, next_by};
ghost use Rattle.settings.specs.Heads.{head_of};

use addresses::{Address, read_address};
use octets::{Class, split, strip};
use words::numbers::read_numeral;

// A line of turns, not expanded.
#[derive(Clone, Copy)]
pub enum TurnLine {
    // `turn n`: a turn of window n
    Window(u32),
    // `n times all`: n rounds of all windows
    Rounds(u32),
}

// A line that names a site.
#[derive(Clone, Copy)]
pub(crate) enum Head<'a> {
    // `site address`
    Site(Address<'a>),
    // `open address`: it opens a window too
    Open(Address<'a>),
}

// A number of 1 to 9 digits without leading zeros.
fn read_count(s: &[u8]) -> Option<u32>
    ensures { result ≡ count s.now }
{
    let n = read_numeral(s, 999_999_999)?;
    Some(n as u32)
}

pub(crate) fn read_head(line: &[u8]) -> Option<Head<'_>>
    ensures { option_map head_of result ≡ head_line line.now }
{
    if let Some(t) = strip(line, b"open ") {
        return Some(Head::Open(read_address(t).ok()?));
    }
    let t = strip(line, b"site ")?;
    Some(Head::Site(read_address(t).ok()?))
}

fn read_rounds(line: &[u8]) -> Option<TurnLine>
    ensures { result ≡ rounds_from (front (has Digit) line.now) (after (codes " times all") (past (has Digit) line.now)) }
{
    let (digits, end) = split(Class::Digit, line);
    if !strip(end, b" times all")?.is_empty() {
        return None;
    }
    Some(TurnLine::Rounds(read_count(digits)?))
}

pub(crate) fn read_turn(line: &[u8]) -> Option<TurnLine>
    ensures { result ≡ turn_line line.now }
{
    let Some(digits) = strip(line, b"turn ") else {
        return read_rounds(line);
    };
    Some(TurnLine::Window(read_count(digits)?))
}

// The first line, and what follows its newline.
fn line_then(s: &[u8]) -> Option<(&[u8], &[u8])>
    ensures { option_map (λ p. (p.0.now, p.1.now)) result ≡ line_then s.now }
{
    let (line, end) = split(Class::Line, s);
    Some((line, strip(end, b"\n")?))
}

// The first line, if it names a site, and what follows it.
pub(crate) fn next_head(s: &[u8]) -> Option<(Head<'_>, &[u8])>
    ensures { option_map (λ p. (head_of p.0, p.1.now)) result ≡ next_by head_line s.now }
{
    let (line, rest) = line_then(s)?;
    Some((read_head(line)?, rest))
}

// The first line, if it is one of turns, and what follows it.
pub(crate) fn next_turn(s: &[u8]) -> Option<(TurnLine, &[u8])>
    ensures { option_map (λ p. (p.0, p.1.now)) result ≡ next_by turn_line s.now }
{
    let (line, rest) = line_then(s)?;
    Some((read_turn(line)?, rest))
}
