// The disassembler: from a page file to the text form of its script.
#![tactic(auto)]

mod lines;
mod text;

pub use text::disassemble;
