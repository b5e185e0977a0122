// The fields of a message, read line by line up to the empty line.
ghost use Rattle.std.specs.Prelude.{◌≡◌, ℕ, false, List};
ghost use Rattle.octets.specs.Answers.{Answer};
ghost use Rattle.lines.specs.Heads.{fields, field_taken, Enough};
ghost use Rattle.lines.specs.Lines.{among, names_of};
ghost use Rattle.lines.specs.Views.{answer_of, with_rest};

use crate::line::parts::named_line;
use crate::{MessageFault, is_named, slot_of};

// What the fields of a message say, taken one after another.
pub trait Fields<'a>: Sized + Copy {
    // what is known so far, as plain values
    ghost Known: { Type 0 };

    ghost known: { Self → Known };

    // what is known after one more name and value
    ghost taking: { Known → List ℕ → List ℕ → Answer Known };

    // One field more.
    fn take(&mut self, name: &[u8], value: &'a [u8]) -> Result<(), MessageFault>
        ensures { answer_of (λ _. known self.new) result ≡ taking (known self.old) name.now value.now };
}

// One field more; the first k lines of s are before it, and none of them has a name that is not marked.
fn take_field<'a, F: Fields<'a>>(
    fields: &mut F,
    marked: bool,
    s: &'a [u8],
    k: usize,
    name: &'a [u8],
    value: &'a [u8],
) -> Result<(), MessageFault>
    requires { marked ≡ false → among name.now (names_of k s.now) ≡ false }
    ensures { answer_of (λ _. F.Fields.known fields.new) result ≡ field_taken F.Fields.taking (names_of k s.now) (F.Fields.known fields.old) (name.now, value.now) }
{
    fields.take(name, value)?;
    if marked && is_named(s, k, name) {
        return Err(MessageFault::Value);
    }
    Ok(())
}

// All fields up to the empty line, and what follows it.
pub fn read_fields<'a, F: Fields<'a>>(none: F, s: &'a [u8]) -> Result<(F, &'a [u8]), MessageFault>
    ensures is { answer_of (with_rest F.Fields.known) result ≡ fields F.Fields.taking (F.Fields.known none) s.now }
    ensures enough { Enough F.Fields.Known }
{
    let mut known = none;
    let mut rest = s;
    // a fixed table, since a reader claims no memory
    let mut marks = [false; 128];
    // each line has a byte or more, and k lines are before this one
    for k in 0..s.len() {
        let (line, next) = named_line(rest).ok_or(MessageFault::Unreadable)?;
        if line.is_empty() {
            return Ok((known, next));
        }
        let (name, value) = line.field().ok_or(MessageFault::Unreadable)?;
        let slot = slot_of(name);
        take_field(&mut known, marks[slot], s, k, name, value)?;
        rest = next;
        marks[slot] = true;
    }
    Err(MessageFault::Unreadable)
}
