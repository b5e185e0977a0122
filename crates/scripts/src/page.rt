// Page files, read and written.
ghost use Rattle.std.specs.Prelude.{◌≡◌, ◌*◌, ◌≤◌, [], length, if◌then◌else◌, Some, None, Ok, nat_le};
ghost use Rattle.std.specs.List.{flat_map};
ghost use Rattle.scripts.specs.Page.{step_bytes, head_of, page_of, written, written_size, ReadBack, is_page, sized, head_in, steps_in, page_in};
ghost use Rattle.scripts.specs.Scripts.{steps_of, steps_read, steps_taken};

use crate::script::Script;
use crate::{Call, Step, Unreadable, decode, encode};
use bounded::fixed::FixedVec;

// Whether the bytes begin as a page file does.
fn is_page(bytes: &[u8]) -> bool
    ensures { result ≡ is_page bytes.now }
{
    matches!(bytes, [b'P', b'A', b'G', b'E', b' ', b'1', ..])
}

// The count, where so many steps make a file of so many bytes.
fn sized(count: usize, size: usize) -> Result<usize, Unreadable>
    ensures { result ≡ sized count size }
{
    if count > 2000 {
        return Err(Unreadable::TooLong);
    }
    let whole = 8 + count * 8;
    if size < whole {
        return Err(Unreadable::Cut);
    }
    if size > whole {
        return Err(Unreadable::LeftOver);
    }
    Ok(count)
}

// How many steps a page file has.
fn head(page: &[u8]) -> Result<usize, Unreadable>
    ensures { result ≡ head_in page.now }
{
    if !is_page(page) {
        return Err(Unreadable::OtherKind);
    }
    if page.len() < 8 {
        return Err(Unreadable::Cut);
    }
    let count = u16::from_be_bytes([page[6], page[7]]);
    sized(count as usize, page.len())
}

// The head of the page file of so many steps.
fn first_bytes(count: usize) -> [u8; 8]
    requires { count ≤ 2000 }
    ensures { result ≡ head_of count }
{
    let [high, low] = (count as u16).to_be_bytes();
    [b'P', b'A', b'G', b'E', b' ', b'1', high, low]
}

// Writes the steps, eight bytes each. What is written is read as the same steps.
fn encode(steps: &[Step], out: &mut [u8])
    requires { length out.old ≡ length steps.now * 8 }
    ensures bytes { out.new ≡ flat_map step_bytes steps.now }
    ensures back { steps_in (length steps.now) (flat_map step_bytes steps.now) ≡ Ok steps.now }
{
    // By place: of a slice that `chunks_exact_mut` lends piece by piece, a proof knows no more than the length.
    for (i, step) in steps.iter().enumerate() {
        let at = i * 8;
        out[at..at + 8].copy_from_slice(&encode::step(*step));
    }
}

// Stands where a script has no step, and is never shown.
const FILLER: Step = Step::Wait(Call::Nothing);

impl Script {
    // A script of no steps.
    pub fn empty() -> Script
        ensures { steps_of result ≡ [] }
    {
        Script {
            steps: FixedVec::empty(FILLER),
        }
    }

    // The script of these steps, if they are not more than a page may have: there is no error to name beside that.
    pub fn new(steps: &[Step]) -> Option<Script>
        ensures { steps_taken result ≡ (if nat_le (length steps.now) 2000 then Some steps.now else None) }
    {
        let steps = FixedVec::from_slice(steps, FILLER)?;
        Some(Script { steps })
    }

    pub fn steps(&self) -> &[Step]
        ensures steps { result.now ≡ steps_of self.now }
        ensures few { length result.now ≤ 2000 }
    {
        self.steps.as_slice()
    }

    // So many steps of eight bytes each.
    fn decode(count: usize, body: &[u8]) -> Result<Script, Unreadable>
        requires { (count ≤ 2000) × (length body.now ≡ count * 8) }
        ensures { steps_read result ≡ steps_in count body.now }
    {
        let mut script = Script::empty();
        for bytes in body.chunks_exact(8) {
            let step = decode::step(bytes).ok_or(Unreadable::UnknownStep)?;
            // there is room: steps are at most 2,000
            let _ = script.steps.push(step);
        }
        Ok(script)
    }

    // The script of a page file.
    pub fn read(page: &[u8]) -> Result<Script, Unreadable>
        ensures { steps_read result ≡ page_in page.now }
    {
        let count = head(page)?;
        let (_head, body) = page.split_at(8);
        Script::decode(count, body)
    }

    // Writes the page file of the script to the front of a buffer, and says how long it is. It is read as the same
    // steps.
    pub fn write(&self, page: &mut [u8]) -> Option<usize>
        ensures size { result ≡ written_size (page_of (steps_of self.now)) page.old }
        ensures bytes { page.new ≡ written (page_of (steps_of self.now)) page.old }
        ensures back { ReadBack result page.new (steps_of self.now) }
    {
        let steps = self.steps();
        let size = 8 + steps.len() * 8;
        if page.len() < size {
            return None;
        }
        page[..8].copy_from_slice(&first_bytes(steps.len()));
        encode(steps, &mut page[8..size]);
        Some(size)
    }
}
