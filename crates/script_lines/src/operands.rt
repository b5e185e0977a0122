// Operands: the next word of a line as a number.
ghost use Rattle.std.specs.Prelude.{◌≡◌, ◌≤◌, length, IfSome, IfOk};
ghost use Rattle.script_lines.specs.Operands.{skipped, word_in, rest_in, fault_at, most_of, value_in, operand_in, register_if, read_of};

use crate::words::{number, register};
use crate::{Expected, Fault, Operand};
use octets::{Class, split};

fn most(operand: Operand) -> u32
    ensures { result ≡ most_of operand }
{
    match operand {
        Operand::Register => 31,
        Operand::Number => u32::MAX,
        Operand::Byte => 255,
        Operand::Kind => 10,
        Operand::Call => 5,
        Operand::Place => 4095,
    }
}

fn value(operand: Operand, w: &[u8]) -> Option<u32>
    ensures is { result ≡ value_in operand w.now }
    ensures within { IfSome result (λ n. n ≤ most_of operand) }
{
    if operand == Operand::Register {
        return register(w);
    }
    number(w).filter(|n| *n <= most(operand))
}

// The next word of a line, and what follows it; so many bytes of the line are left where it begins.
#[derive(Clone, Copy)]
pub(crate) struct Word<'a> {
    pub(crate) left: usize,
    pub(crate) text: &'a [u8],
    pub(crate) rest: &'a [u8],
}

pub(crate) fn next_word(s: &[u8]) -> Word<'_>
    ensures left { result.left ≡ length (skipped s.now) }
    ensures text { result.text.now ≡ word_in s.now }
    ensures rest { result.rest.now ≡ rest_in s.now }
{
    let (_, s) = split(Class::Blank, s);
    let (text, rest) = split(Class::Visible, s);
    Word {
        left: s.len(),
        text,
        rest,
    }
}

// Something else was expected at the next word.
pub fn fault_at(s: &[u8], expected: Expected) -> Fault
    ensures { result ≡ fault_at s.now expected }
{
    Fault {
        left: next_word(s).left,
        expected,
    }
}

// The next word as an operand, and what follows it. Out of line: inlined in what reads a line, its loop over blanks has no
// register left for the text.
#[inline(never)]
pub(crate) fn read_operand(operand: Operand, s: &[u8]) -> Result<(u32, &[u8]), Fault>
    ensures is { read_of result ≡ operand_in operand s.now }
    ensures within { IfOk result (λ p. p.0 ≤ most_of operand) }
{
    let word = next_word(s);
    let n = value(operand, word.text).ok_or_else(|| fault_at(s, Expected::Operand(operand)))?;
    Ok((n, word.rest))
}

// A register if one is wanted, and else 0: the place of a step that it does not use has that byte in the page file.
pub(crate) fn register_if(wanted: bool, s: &[u8]) -> Result<(u8, &[u8]), Fault>
    ensures { read_of result ≡ register_if wanted s.now }
{
    if !wanted {
        return Ok((0, s));
    }
    let (n, rest) = read_operand(Operand::Register, s)?;
    Ok((n as u8, rest))
}
