// The assembler: from the text form of a script to its page file.
#![tactic(auto)]

mod labels;
mod page;

pub use page::assemble;
use script_lines::Expected;

// The first place where a text is refused, counted from 1 and in bytes, and what was expected there.
#[derive(Clone, Copy)]
pub struct Refusal {
    pub line: usize,
    pub column: usize,
    pub expected: Expected,
}
