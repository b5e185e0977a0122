// Lines, and where labels are. A label is looked for from the start of the text on: there is no table to fill.
ghost use Rattle.std.specs.Prelude.{◌≡◌, ◌<◌, ◌≤◌, length, IfSome};
ghost use Rattle.script_lines.specs.Reading.{meaning_of, line_in};
ghost use Rattle.assembler.specs.Texts.{lines, lines_by, counted, steps_after, past_line, label_in};

use octets::{Class, split};
use script_lines::{Line, read_line};

// The first line without its line feed, and what follows; none where the text has ended. By hand: a text split at its
// line feeds has an empty line more behind the last one.
pub(crate) fn next_line(s: &[u8]) -> Option<(&[u8], &[u8])>
    ensures lines { lines s.now ≡ lines_by result }
    ensures shorter { IfSome result (λ p. length p.1.now < length s.now) }
{
    if s.is_empty() {
        return None;
    }
    match split(Class::Line, s) {
        (line, [_, rest @ ..]) => Some((line, rest)),
        (line, end) => Some((line, end)),
    }
}

fn count_to(n: usize) -> usize
    ensures is { result ≡ counted n }
    ensures within { result ≤ 2001 }
{
    n.min(2001)
}

// How many steps there are after those that a line stands for.
fn steps_after(at: usize, line: Line<'_>) -> usize
    requires { at ≤ 2001 }
    ensures is { result ≡ steps_after at (meaning_of line.entry) }
    ensures within { result ≤ 2001 }
{
    match line {
        Line::Nothing | Line::Label(_) => at,
        Line::Step(_) | Line::Jump(_, _, _) => count_to(at + 1),
        Line::Bytes(d) => count_to(d.count().saturating_mul(3).saturating_add(at)),
    }
}

// How many steps there are after a line, unless it is the label that is looked for.
fn past_line(name: &[u8], at: usize, line: &[u8]) -> Option<usize>
    requires { at ≤ 2001 }
    ensures is { result ≡ past_line name.now at (line_in line.now) }
    ensures within { IfSome result (λ n. n ≤ 2001) }
{
    match read_line(line) {
        Err(_) => Some(at),
        Ok(Line::Label(other)) if name == other => None,
        Ok(read) => Some(steps_after(at, read)),
    }
}

// The first label of a name: how many lines and how many steps are before it.
pub(crate) fn find_label(name: &[u8], text: &[u8]) -> Option<(usize, usize)>
    ensures is { result ≡ label_in name.now text.now }
    ensures within { IfSome result (λ p. p.1 ≤ 2001) }
{
    let mut rest = text;
    // Counted beside the cursor: `next_line` is no iterator, which could number its lines.
    let mut line = 0;
    let mut at = 0;
    while let Some((first, next)) = next_line(rest) {
        let Some(more) = past_line(name, at, first) else {
            return Some((line, at));
        };
        at = more;
        rest = next;
        line += 1;
    }
    None
}
