// twice SETTINGS DIR1 DIR2 SITE: two browsers side by side, over servers that scripts play and that differ at one site; one
// line says what came of it.
#![tactic(auto)]

use addresses::read_site;
use bounded::site::SiteNumber;
use compare::difference::Difference;
use loading::files::{read_file, read_plan};
use loading::folder::load;
use loading::sites::{number_of, sites_of};
use loading::stop::{Stop, exit_code};
use side_by_side::twice::twice;
use side_by_side::verdict::{Place, Verdict};
use std::process::ExitCode;
use std::{env, io};
use storage::table::Table;

fn say_difference(rt: &HostRuntime, event: u64, difference: Difference) -> io::Result<()> {
    match difference {
        Difference::Windows { first } => println!(rt;
            "leak: after event {event} window {first} differs"
        ),
        Difference::Tokens { site } => {
            let site = site.number();
            println!(rt; "leak: after event {event} the token of site {site} differs")
        }
        Difference::Stores { site } => {
            let site = site.number();
            println!(rt; "leak: after event {event} the store of site {site} differs")
        }
    }
}

fn say_leak(rt: &HostRuntime, event: u64, place: Place) -> io::Result<()> {
    match place {
        Place::Browsers(difference) => say_difference(rt, event, difference),
        Place::Servers => println!(rt;
            "leak: after event {event} the server of another site differs"
        ),
        Place::LetOut => println!(rt;
            "leak: in event {event} another site lets out something different"
        ),
        Place::Requests => println!(rt;
            "leak: in event {event} the server of another site is asked something different"
        ),
    }
}

fn say(rt: &HostRuntime, verdict: Verdict) -> io::Result<()> {
    match verdict {
        Verdict::Apart => println!(rt; "apart: they do not begin alike"),
        Verdict::Same { events } => println!(rt;
            "same: all others are the same after each of {events} events"
        ),
        Verdict::LetOut { event } => println!(rt;
            "let out: in event {event} the site lets out something different, and before it all others are the same"
        ),
        Verdict::Leak { event, place } => say_leak(rt, event, place),
    }
}

// The number of the site of this name, if the settings have it.
fn site_named(table: &Table, name: &[u8]) -> Option<SiteNumber> {
    number_of(table, read_site(name)?)
}

fn run(rt: &HostRuntime) -> Result<(), Stop> {
    // One by one: a function that gives all as an array was tried, and the borrow checker does not cover it.
    let mut args = env::args(rt)?;
    let _ = args.next();
    let (Some(path), Some(first), Some(second), Some(name), None) = (
        args.next(),
        args.next(),
        args.next(),
        args.next(),
        args.next(),
    ) else {
        return Err(Stop::Usage("twice SETTINGS DIR1 DIR2 SITE"));
    };
    let text = read_file(rt, path.as_str())?;
    let plan = read_plan(rt.alloc(), path.as_str(), &text)?;
    let table = plan.table;
    let site = site_named(&table, name.as_bytes()).ok_or(Stop::NoSite(name))?;
    let sites = sites_of(rt.alloc(), &table)?;
    let first = load(rt, first.as_str(), sites.as_slice())?;
    let second = load(rt, second.as_str(), sites.as_slice())?;
    let mut answer = [0u8; 32768];
    let verdict = twice(rt.alloc(), plan, first, second, site, &mut answer)?;
    say(rt, verdict)?;
    Ok(())
}

fn main(rt: HostRuntime) -> ExitCode {
    exit_code(&rt, "twice", run(&rt))
}
