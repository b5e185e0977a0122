// assemble: reads a script as text from standard input, and writes its page file to standard output. A text that is
// refused is named on standard error by line, column and what was expected there; the status is then 1.
#![tactic(auto)]

use anyhow::anyhow;
use assembler::assemble;
use std::io::{Read, Write};
use std::process::ExitCode;

fn main(rt: HostRuntime) -> anyhow::Result<ExitCode> {
    let mut text = Vec::new(rt.alloc());
    rt.stdin().read_to_end(&mut text)?;
    let mut page = [0; 16008];
    match assemble(&text, &mut page) {
        Ok(Some(size)) if size <= 16008 => {
            rt.stdout().write_all(&page[0..size])?;
            Ok(ExitCode::SUCCESS)
        }
        Ok(_) => Err(anyhow!("no room")),
        Err(refusal) => {
            let line = refusal.line;
            let column = refusal.column;
            let expected = refusal.expected;
            eprintln!(rt; "line {line}, column {column}: expected {expected}")?;
            Ok(ExitCode::FAILURE)
        }
    }
}
