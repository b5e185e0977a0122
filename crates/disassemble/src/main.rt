// disassemble: reads a page file from standard input, and writes its script as text to standard output. A file that is
// no page is refused on standard error, by why it cannot be read; the status is then 1.
#![tactic(auto)]

use anyhow::anyhow;
use disassembler::disassemble;
use scripts::Unreadable;
use std::io::{Read, Write};
use std::process::ExitCode;

// A function, since only the crate of the fault could write a Display for it.
fn fault_text(fault: Unreadable) -> &'static str {
    match fault {
        Unreadable::OtherKind => "it does not begin with `PAGE 1`",
        Unreadable::Cut => "it is cut",
        Unreadable::TooLong => "it has more than 2,000 steps",
        Unreadable::LeftOver => "bytes are left over",
        Unreadable::UnknownStep => "it has a step that is not known",
    }
}

fn main(rt: HostRuntime) -> anyhow::Result<ExitCode> {
    let mut page = Vec::new(rt.alloc());
    rt.stdin().read_to_end(&mut page)?;
    let mut text = [0; 80000];
    match disassemble(&page, &mut text) {
        Ok(Some(size)) if size <= 80000 => {
            rt.stdout().write_all(&text[0..size])?;
            Ok(ExitCode::SUCCESS)
        }
        Ok(_) => Err(anyhow!("no room")),
        Err(fault) => {
            let why = fault_text(fault);
            eprintln!(rt; "not a page: {why}")?;
            Ok(ExitCode::FAILURE)
        }
    }
}
