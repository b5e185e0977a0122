// Why a program stops before its work is done.
ghost use Rattle.std.specs.Prelude.{◌≡◌, MatchResult};
ghost use Rattle.settings.specs.Views.{fault_number};

use scripts::Unreadable;
use settings::{Fault, Refusal};
use std::alloc::{AllocError, AllocFailed};
use std::process::ExitCode;
use std::{fmt, io};

#[derive(Drop)]
pub enum Stop {
    // how it is called
    Usage(&'static str),
    // a file that can't be had, or not written
    File { path: String, why: io::Error },
    Settings { path: String, refusal: Refusal },
    // a server's script that can't be read
    Script { path: String, why: Unreadable },
    // no site of the settings
    NoSite(String),
    // anything else, in plain words
    Other(&'static str),
    Output(io::Error),
    NoMemory,
}

// The number of a fault of settings. A function, since neither the fault nor the number is a type of this crate.
pub fn fault_number(fault: Fault) -> u8
    ensures { result ≡ fault_number fault }
{
    match fault {
        Fault::Unreadable => 1,
        Fault::TooMany => 2,
    }
}

impl From<AllocError> for Stop {
    fn from(_e: AllocError) -> Stop {
        Stop::NoMemory
    }
}

impl<T: Drop> From<AllocFailed<T>> for Stop {
    fn from(_e: AllocFailed<T>) -> Stop {
        Stop::NoMemory
    }
}

impl From<io::Error> for Stop {
    fn from(e: io::Error) -> Stop {
        Stop::Output(e)
    }
}

impl fmt::Display for Stop {
    fn fmt<W: fmt::Write>(&self, f: &mut fmt::Formatter<W>) -> fmt::Result {
        match self {
            Stop::Usage(text) => write!(f, "usage: {text}"),
            Stop::File { path, why } => write!(f, "{path}: {why}"),
            Stop::Settings { path, refusal } => {
                let line = refusal.line;
                let number = fault_number(refusal.fault);
                write!(f, "{path}: line {line}: fault {number}")
            }
            Stop::Script { path, why } => {
                let number = why.number();
                write!(f, "{path}: fault {number}")
            }
            Stop::NoSite(site) => write!(f, "{site}: no site of the settings"),
            Stop::Other(text) => f.write_str(text),
            Stop::Output(why) => write!(f, "{why}"),
            Stop::NoMemory => f.write_str("no memory"),
        }
    }
}

// How a program ends: if it stopped before its work was done, it says on standard error why.
pub fn exit_code(rt: &impl Eprint, name: &str, done: Result<(), Stop>) -> ExitCode
    ensures { MatchResult done (λ _. result ≡ ExitCode.SUCCESS) (λ _. result ≡ ExitCode.FAILURE) }
{
    let Err(stop) = done else {
        return ExitCode::SUCCESS;
    };
    let _ = eprintln!(rt; "{name}: {stop}");
    ExitCode::FAILURE
}
