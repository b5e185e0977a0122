// What was expected, in words.
ghost use Rattle.std.specs.Prelude.{Some};
ghost use Rattle.script_lines.specs.Messages.{operand_text, expected_text};

use crate::{Expected, Operand};
use std::fmt;

impl fmt::Display for Operand {
    ghost output = { λ o. Some (operand_text o) };

    fn fmt<W: fmt::Write>(&self, f: &mut fmt::Formatter<W>) -> fmt::Result {
        f.write_str(match self {
            Operand::Register => "a register, `r0` to `r31`",
            Operand::Number => "a number up to 4294967295",
            Operand::Byte => "a number up to 255",
            Operand::Kind => "the kind of a step, up to 10",
            Operand::Call => "what a wait asks for, up to 5",
            Operand::Place => "a place of the memory, up to 4095",
        })
    }
}

impl fmt::Display for Expected {
    ghost output = { λ e. Some (expected_text e) };

    fn fmt<W: fmt::Write>(&self, f: &mut fmt::Formatter<W>) -> fmt::Result {
        match self {
            Expected::Mnemonic => f.write_str("a mnemonic, or a label and `:`"),
            Expected::Operand(operand) => write!(f, "{operand}"),
            Expected::Target => f.write_str("a number or the name of a label"),
            Expected::Bytes => f.write_str("a text in quotes, or hexadecimal digits in pairs"),
            Expected::Memory => f.write_str("bytes that end below place 4096"),
            Expected::LineEnd => f.write_str("the end of the line"),
            Expected::NewLabel => f.write_str("a name that no line above has"),
            Expected::KnownLabel => f.write_str("the name of a label of this text"),
            Expected::FewerSteps => f.write_str("at most 2,000 steps"),
        }
    }
}
