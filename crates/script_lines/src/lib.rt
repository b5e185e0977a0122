// The text form of page scripts, one line at a time: what a line stands for, or what was expected in it.
#![tactic(auto)]

mod forms;
mod messages;
mod operands;
mod reading;
mod words;

pub use forms::{Form, Tail, form_of};
pub use operands::fault_at;
pub use reading::read_line;

// A step by its bytes, as they stand in the page file: kind, three places, number.
#[derive(Clone, Copy)]
pub struct Row {
    pub kind: u8,
    pub a: u8,
    pub b: u8,
    pub c: u8,
    pub number: u32,
}

// What a line stands for.
#[derive(Clone, Copy)]
pub enum Line<'a> {
    // blanks and a comment
    Nothing,
    // a name for the next step
    Label(&'a [u8]),
    Step(Row),
    // a step whose number is the place of a label; so many bytes of the line are left where the name begins
    Jump(Row, &'a [u8], usize),
    // bytes for the memory
    Bytes(Data<'a>),
}

// Bytes for the memory from a place on, by two registers.
#[derive(Clone, Copy)]
pub struct Data<'a> {
    pub place: u32,
    pub x: u8,
    pub y: u8,
    pub source: Source<'a>,
}

// Where bytes come from.
#[derive(Clone, Copy)]
pub enum Source<'a> {
    // a text, whose bytes they are
    Text(&'a [u8]),
    // two hexadecimal digits for each byte
    Hex(&'a [[u8; 2]]),
}

// A word that stands for a number in some range.
#[derive(Clone, Copy, PartialEq, Eq, Debug)]
pub enum Operand {
    // `r0` to `r31`
    Register,
    // up to 2^32 - 1
    Number,
    // a place of a step: up to 255
    Byte,
    // of a step: up to 10
    Kind,
    // what a wait asks for: up to 5
    Call,
    // of the memory: up to 4095
    Place,
}

// What a line should have had.
#[derive(Clone, Copy, PartialEq, Eq, Debug)]
pub enum Expected {
    // a mnemonic, or a label with its `:`
    Mnemonic,
    Operand(Operand),
    // a number or the name of a label
    Target,
    // a text in quotes, or hexadecimal digits in pairs
    Bytes,
    // bytes that end within the memory
    Memory,
    // nothing but a comment
    LineEnd,
    // a name that no line above has
    NewLabel,
    // the name of some label
    KnownLabel,
    // at most 2,000 steps
    FewerSteps,
}

// Why a line is refused: what was expected, where so many bytes of the line were left.
#[derive(Clone, Copy)]
pub struct Fault {
    pub left: usize,
    pub expected: Expected,
}
