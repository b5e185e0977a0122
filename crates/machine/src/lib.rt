// The machine that runs scripts.
#![tactic(auto)]

ghost use Rattle.std.specs.Prelude.{◌≡◌};
ghost use Rattle.machine.specs.Turn.{fresh, fault_number};

pub mod laws;
mod limits;
mod same;
mod step;
mod tell;
mod turn;

// A part of a script's memory, as two registers name it: where it begins, and its length.
#[derive(Clone, Copy, PartialEq, Eq, Debug)]
pub struct Span {
    pub from: u32,
    pub len: u32,
}

// What a script does. Its bytes are parts of its memory.
#[derive(Clone, Copy, PartialEq, Eq, Debug)]
pub enum Act {
    Nothing,
    Ask { site: u32, path: Span, body: Span },
    Say { window: u32, site: u32, bytes: Span },
    Keep { bytes: Span },
    Look,
    Open { site: u32, path: Span },
}

// What a script is told in its turn. The bytes that go with it are passed beside it.
#[derive(Clone, Copy, PartialEq, Eq)]
pub enum Told {
    Silence,
    Begun,
    Answer { site: u32, code: u32 },
    Barred { site: u32 },
    Heard { site: u32 },
    Kept,
}

// What came of a turn.
#[derive(Clone, Copy, PartialEq, Eq, Debug)]
pub enum Outcome {
    // The script waits, and this is done.
    Did(Act),
    // It waits, and what it asks for is not done: out of its limits.
    Refused,
    // Its steps for this turn are used up; it goes on in the next.
    Paused,
    // A step out of range ended it.
    Faulted,
    // It had ended before.
    Idle,
}

// A register, a place of the memory or a step that is not there.
#[derive(Clone, Copy, PartialEq, Eq, Debug)]
pub struct OutOfRange;

// How a step, or a run of steps, went: on, or to a wait for an act, or to a fault.
type Flow = Result<Option<Act>, OutOfRange>;

#[derive(Clone, Copy, PartialEq, Eq)]
enum Status {
    Waiting,
    Running,
    Ended,
}

#[derive(Clone, Copy)]
pub struct Machine {
    registers: [u32; 32],
    next: usize,
    status: Status,
}

impl Machine {
    // A machine that has not begun.
    pub fn new() -> Machine
        ensures { result ≡ fresh }
    {
        Machine {
            registers: [0; 32],
            next: 0,
            status: Status::Waiting,
        }
    }
}

impl Outcome {
    // The number of the fault in a turn, and 0 for none. By name: `u8::from` would not say that it is a fault's number.
    pub fn fault(self) -> u8
        ensures { result ≡ fault_number self }
    {
        match self {
            Outcome::Refused => 5,
            Outcome::Faulted => 4,
            Outcome::Did(_) | Outcome::Paused | Outcome::Idle => 0,
        }
    }
}
