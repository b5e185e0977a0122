// Scripts: the steps of a page's program, and the page files that hold them.
#![tactic(auto)]

ghost use Rattle.std.specs.Prelude.{◌≡◌};
ghost use Rattle.scripts.specs.Page.{fault_number};

mod decode;
mod encode;
mod page;
mod same;
mod script;

pub use script::Script;

// One step of a script. A byte names a register; the first one gets the result.
#[derive(Clone, Copy)]
pub enum Step {
    Constant(u8, u32),
    Move(u8, u8),
    // modulo 2^32
    Sum(u8, u8, u8),
    Product(u8, u8, u8),
    // 1 or 0
    Equal(u8, u8, u8),
    Less(u8, u8, u8),
    // to a step, by its place in the script; JumpIf if the register is not zero
    Jump(u32),
    JumpIf(u8, u32),
    // the byte at the place that the second register holds
    Load(u8, u8),
    // to the place that the first register holds, the low byte of the second
    Store(u8, u8),
    Wait(Call),
}

// What a wait asks for, by the registers that hold its operands. A run of bytes is named by the
// first of two neighbouring registers: where it begins in memory, and its length.
#[derive(Clone, Copy)]
pub enum Call {
    Nothing,
    Ask { site: u8, path: u8, body: u8 },
    Say { window: u8, site: u8, bytes: u8 },
    Keep { bytes: u8 },
    Look,
    Open { site: u8, path: u8 },
}

// Why a page cannot be read.
#[derive(Clone, Copy, PartialEq, Eq, Debug)]
pub enum Unreadable {
    OtherKind,
    Cut,
    TooLong,
    LeftOver,
    UnknownStep,
}

impl Unreadable {
    // The number of the fault. By name: `u8::from` would not say that it is a fault's number.
    pub fn number(self) -> u8
        ensures { result ≡ fault_number self }
    {
        match self {
            Unreadable::OtherKind
            | Unreadable::Cut
            | Unreadable::TooLong
            | Unreadable::LeftOver
            | Unreadable::UnknownStep => 3,
        }
    }
}
