// site SETTINGS DIR: plays the servers of the settings' sites, as the scripts in a folder say. Requests come framed from
// standard input, and answers go framed to standard output, until the input ends.
#![tactic(auto)]

use loading::files::{read_file, read_plan};
use loading::folder::load;
use loading::sites::sites_of;
use loading::stop::{Stop, exit_code};
use pipes::fault::Lost;
use pipes::serve::serve;
use servers::carrier::InProcess;
use std::env;
use std::io::{BufReader, BufWriter};
use std::process::ExitCode;

fn run(rt: &HostRuntime) -> Result<(), Stop> {
    // One by one: a function that gives all as an array was tried, and the borrow checker does not cover it.
    let mut args = env::args(rt)?;
    let _ = args.next();
    let (Some(path), Some(folder), None) = (args.next(), args.next(), args.next()) else {
        return Err(Stop::Usage("site SETTINGS DIR"));
    };
    let text = read_file(rt, path.as_str())?;
    let plan = read_plan(rt.alloc(), path.as_str(), &text)?;
    let sites = sites_of(rt.alloc(), &plan.table)?;
    let servers = load(rt, folder.as_str(), sites.as_slice())?;
    let mut carrier = InProcess { servers };
    let mut input = BufReader::new(rt.alloc(), rt.stdin())?;
    let mut output = BufWriter::new(rt.alloc(), rt.stdout())?;
    let mut request = [0u8; 4096];
    let mut answer = [0u8; 32768];
    match serve(
        &mut input,
        &mut output,
        &plan.table,
        &mut carrier,
        &mut request,
        &mut answer,
    ) {
        Lost::Ended => Ok(()),
        Lost::Broken(fault) => Err(Stop::Other(fault.text())),
    }
}

fn main(rt: HostRuntime) -> ExitCode {
    exit_code(&rt, "site", run(&rt))
}
