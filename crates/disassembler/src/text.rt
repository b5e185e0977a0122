// The text of a page file, line by line.
ghost use Rattle.std.specs.Prelude.{◌≡◌, ◌*◌, ◌≤◌, length, take};
ghost use Rattle.disassembler.specs.Texts.{rows_text, disassembled, size_in, buffer_after, AssemblesBack};

use crate::lines::{parts_of, row_in};
use octets::pieces::put_all;
use scripts::{Script, Unreadable};

// Writes the lines of so many steps to the front of a buffer that has 40 bytes for each.
fn put_rows(steps: usize, body: &[u8], out: &mut [u8]) -> usize
    requires { (steps ≤ 2000) × ((length body.now ≡ steps * 8) × (length out.old ≡ 80000)) }
    ensures is { take result out.new ≡ rows_text steps body.now }
    ensures within { result ≤ 80000 }
{
    let (rows, _) = body.as_chunks();
    let mut at = 0;
    for bytes in rows {
        // No refusal to hand on: 40 bytes for each line are enough, which the proof shows.
        let Some(next) = parts_of(row_in(bytes)).put(out, at) else {
            return at;
        };
        at = next;
    }
    at
}

// Writes the text of a page file to the front of a buffer, and says how long it is; none if it has no room, and then,
// or where the page cannot be read, nothing is written. The text is assembled to the same page file.
pub fn disassemble(page: &[u8], out: &mut [u8]) -> Result<Option<usize>, Unreadable>
    ensures size { result ≡ size_in (disassembled page.now) out.old }
    ensures bytes { out.new ≡ buffer_after (disassembled page.now) out.old }
    ensures back { AssemblesBack (disassembled page.now) page.now }
{
    let script = Script::read(page)?;
    let steps = script.steps().len();
    let (_, body) = page.split_at(8);
    // The text waits here, since nothing is written where it has no room; no memory is claimed.
    let mut text = [0; 80000];
    let size = put_rows(steps, body, &mut text);
    Ok(put_all(out, &[&text[0..size]]))
}
