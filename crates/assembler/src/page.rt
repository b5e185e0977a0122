// Page files from a text, line by line.
ghost use Rattle.std.specs.Prelude.{◌≡◌, ◌+◌, ◌^◌, ◌<◌, ◌≤◌, [], length, take, IfOk};
ghost use Rattle.scripts.specs.Page.{head_of};
ghost use Rattle.script_lines.specs.Reading.{data_of};
ghost use Rattle.assembler.specs.Texts.{lines};
ghost use Rattle.assembler.specs.Assembled.{row_bytes, byte_rows, data_rows, added, with_line, refusal_at, lines_from, assembled, front_of, size_in, buffer_after};

use crate::Refusal;
use crate::labels::{find_label, next_line};
use octets::pieces::{put_all, put_from};
use script_lines::{Data, Expected, Fault, Line, Row, fault_at, read_line};

// Once more here: `scripts` writes steps, and a row may be none of them.
fn row_bytes(row: Row) -> [u8; 8]
    ensures { result ≡ row_bytes row }
{
    let [w, x, y, z] = row.number.to_be_bytes();
    [row.kind, row.a, row.b, row.c, w, x, y, z]
}

// The three steps that put a byte into the memory.
fn byte_rows(place: u32, x: u8, y: u8, b: u8) -> [u8; 24]
    ensures { result ≡ byte_rows place x y b }
{
    let [p, q, r, s] = place.to_be_bytes();
    let [t, u, v, w] = (b as u32).to_be_bytes();
    [
        0, x, 0, 0, p, q, r, s, 0, y, 0, 0, t, u, v, w, 9, x, y, 0, 0, 0, 0, 0,
    ]
}

// Adds steps to the first bytes of the body. What is refused may be written in part. Body and place are no struct of their
// own: it would be a lent buffer with a length beside it.
fn put(body: &mut [u8], at: usize, line: &[u8], steps: &[u8]) -> Result<usize, Fault>
    requires { (length body.old ≡ 16000) × (at ≤ 16000) }
    ensures is { front_of result body.new ≡ added (take at body.old) line.now steps.now }
    ensures within { IfOk result (λ n. (n ≡ at + length steps.now) × (n ≤ 16000)) }
{
    let Some(n) = put_from(body, at, &[steps]) else {
        return Err(fault_at(line, Expected::FewerSteps));
    };
    Ok(n)
}

// Adds the steps that put bytes into the memory.
fn put_data(body: &mut [u8], from: usize, line: &[u8], d: Data<'_>) -> Result<usize, Fault>
    requires { (length body.old ≡ 16000) × (from ≤ 16000) }
    ensures is { front_of result body.new ≡ added (take from body.old) line.now (data_rows d.entry.place d.entry.x d.entry.y (data_of d.entry)) }
    ensures within { IfOk result (λ n. n ≤ 16000) }
{
    let mut at = from;
    // By number: it is where the byte goes in the memory too, and bytes come from a text or from digits.
    for i in 0..d.count() {
        let place = d.place.wrapping_add(i as u32);
        let rows = byte_rows(place, d.x, d.y, d.byte(i));
        at = put(body, at, line, &rows)?;
    }
    Ok(at)
}

// Adds the steps of a line, which stands after k others in the text.
fn put_line(text: &[u8], k: usize, line: &[u8], body: &mut [u8], at: usize) -> Result<usize, Fault>
    requires { (length body.old ≡ 16000) × (at ≤ 16000) }
    ensures is { front_of result body.new ≡ with_line text.now k (take at body.old) line.now }
    ensures within { IfOk result (λ n. n ≤ 16000) }
{
    match read_line(line)? {
        Line::Nothing => Ok(at),
        Line::Label(name) => {
            if find_label(name, text).is_some_and(|(first, _)| first == k) {
                Ok(at)
            } else {
                Err(fault_at(line, Expected::NewLabel))
            }
        }
        Line::Step(row) => put(body, at, line, &row_bytes(row)),
        Line::Jump(row, name, left) => {
            let unknown = Fault {
                left,
                expected: Expected::KnownLabel,
            };
            let (_, step) = find_label(name, text).ok_or(unknown)?;
            let number = step as u32;
            put(body, at, line, &row_bytes(Row { number, ..row }))
        }
        Line::Bytes(d) => put_data(body, at, line, d),
    }
}

fn refusal_at(k: usize, line: &[u8], fault: Fault) -> Refusal
    requires { k + 1 < 2 ^ 64 }
    ensures { result ≡ refusal_at k line.now fault }
{
    Refusal {
        line: k + 1,
        column: line.len().saturating_sub(fault.left) + 1,
        expected: fault.expected,
    }
}

// Adds the steps of all lines to an empty body.
fn put_lines(text: &[u8], body: &mut [u8]) -> Result<usize, Refusal>
    requires { length body.old ≡ 16000 }
    ensures is { front_of result body.new ≡ lines_from text.now 0 [] (lines text.now) }
    ensures within { IfOk result (λ n. n ≤ 16000) }
{
    let mut rest = text;
    // Counted beside the cursor: `next_line` is no iterator, which could number its lines.
    let mut line = 0;
    let mut at = 0;
    while let Some((first, next)) = next_line(rest) {
        at = put_line(text, line, first, body, at).map_err(|fault| refusal_at(line, first, fault))?;
        rest = next;
        line += 1;
    }
    Ok(at)
}

// Once more here: `scripts` has the same bytes to itself, as a part of writing a script.
fn head_of(steps: usize) -> [u8; 8]
    requires { steps ≤ 2000 }
    ensures { result ≡ head_of steps }
{
    let [high, low] = (steps as u16).to_be_bytes();
    [b'P', b'A', b'G', b'E', b' ', b'1', high, low]
}

// Writes the page file of a text to the front of a buffer, and says how long it is; none if it has no room, and then,
// or where the text is refused, nothing is written.
pub fn assemble(text: &[u8], page: &mut [u8]) -> Result<Option<usize>, Refusal>
    ensures size { result ≡ size_in (assembled text.now) page.old }
    ensures bytes { page.new ≡ buffer_after (assembled text.now) page.old }
{
    // The steps wait here, since the number of all of them stands before them; no memory is claimed.
    let mut body = [0; 16000];
    let size = put_lines(text, &mut body)?;
    let head = head_of(size / 8);
    Ok(put_all(page, &[&head, &body[0..size]]))
}
