// account SETTINGS BOOK: tells a run event by event, with the sites by their names: what each let out, and to whom.
#![tactic(auto)]

use book::read::{Line, read_line};
use book::record::Event;
use bounded::site::SiteNumber;
use browser::values::{Out, What};
use loading::files::{read_file, read_plan};
use loading::stop::{Stop, exit_code};
use std::alloc::{AllocError, Global};
use std::process::ExitCode;
use std::{env, io};
use storage::table::Table;
use words::scan::Scanner;

// The host of a site, with its port unless that is 443.
fn name(heap: Global, table: &Table, site: SiteNumber) -> Result<String, AllocError> {
    let Some(site) = table.site(site) else {
        return String::from_str(heap, "a site that the settings do not name");
    };
    let host = text_of(heap, site.host)?;
    if site.port == 443 {
        return Ok(host);
    }
    let port = site.port;
    format!(in heap; "{host}:{port}")
}

// The character of each byte.
fn text_of(heap: Global, bytes: &[u8]) -> Result<String, AllocError> {
    let mut text = String::new(heap);
    for b in bytes {
        text.push(*b as char)?;
    }
    Ok(text)
}

fn is_plain(bytes: &[u8]) -> bool {
    bytes.iter().all(|b| *b >= b' ' && *b <= b'~')
}

// Bytes as a text in quotes, or else in hex.
fn shown(heap: Global, bytes: &[u8]) -> Result<String, AllocError> {
    if is_plain(bytes) {
        let text = text_of(heap, bytes)?;
        return format!(in heap; "\"{text}\"");
    }
    let mut text = String::from_str(heap, "the bytes")?;
    for b in bytes {
        text.push_str(format!(in heap; " {b:02x}")?.as_str())?;
    }
    Ok(text)
}

// The handle of the host and the table are passed to each function that tells: the one prints, the other names sites.
fn tell_out(rt: &HostRuntime, table: &Table, out: &Out) -> Result<(), Stop> {
    let heap = rt.alloc();
    let from = name(heap, table, out.from)?;
    let to = name(heap, table, out.to)?;
    match &out.what {
        What::Asked { path, body } => {
            let path = shown(heap, path.as_slice())?;
            let body = shown(heap, body.as_slice())?;
            println!(rt; "      {from} asks {to}'s server for {path} with {body}")?;
        }
        What::Said { window, what } => {
            let what = shown(heap, what.as_slice())?;
            println!(rt; "      {from} says {what} to window {window}, of {to}")?;
        }
        What::Opened { path } => {
            let path = shown(heap, path.as_slice())?;
            println!(rt; "      {from} opens a window of {to} at {path}")?;
        }
        What::Let { code, body } => {
            let body = shown(heap, body.as_slice())?;
            println!(rt; "      {from}'s server lets {to} see its answer: {code} with {body}")?;
        }
    }
    Ok(())
}

fn tell_event(rt: &HostRuntime, table: &Table, line: &Line) -> Result<(), Stop> {
    let heap = rt.alloc();
    let number = line.number;
    match &line.record.event {
        Event::Opening { site, path } => {
            let site = name(heap, table, *site)?;
            let path = shown(heap, path.as_slice())?;
            println!(rt; "{number:>4}  the settings open a window of {site} at {path}")?;
        }
        Event::Turn { window } => match line.record.site {
            Some(site) => {
                let site = name(heap, table, site)?;
                println!(rt; "{number:>4}  window {window}, of {site}, has its turn")?;
            }
            None => println!(rt; "{number:>4}  there is no window {window}")?,
        },
    }
    Ok(())
}

fn tell(rt: &HostRuntime, table: &Table, line: &Line) -> Result<(), Stop> {
    tell_event(rt, table, line)?;
    let fault = line.record.fault;
    if fault != 0 {
        println!(rt; "      fault {fault}")?;
    }
    for out in [&line.record.page, &line.record.server] {
        if let Some(out) = out {
            tell_out(rt, table, out)?;
        }
    }
    Ok(())
}

// Line after line, to the end or to the first one that can't be read.
fn tell_all(rt: &HostRuntime, table: &Table, book: &[u8]) -> Result<(), Stop> {
    let mut rest = Scanner { rest: book };
    // Counted, so that it is seen to end: the reader doesn't say that less is left after a line.
    for _ in 0..u64::MAX {
        let Some(line) = read_line(&mut rest) else {
            break;
        };
        tell(rt, table, &line)?;
    }
    if !rest.rest.is_empty() {
        println!(rt; "what follows is no line of a book")?;
    }
    Ok(())
}

fn run(rt: &HostRuntime) -> Result<(), Stop> {
    // One by one: a function that gives all as an array was tried, and the borrow checker does not cover it.
    let mut args = env::args(rt)?;
    let _ = args.next();
    let (Some(settings), Some(book), None) = (args.next(), args.next(), args.next()) else {
        return Err(Stop::Usage("account SETTINGS BOOK"));
    };
    let text = read_file(rt, settings.as_str())?;
    let plan = read_plan(rt.alloc(), settings.as_str(), &text)?;
    let lines = read_file(rt, book.as_str())?;
    tell_all(rt, &plan.table, &lines)
}

fn main(rt: HostRuntime) -> ExitCode {
    exit_code(&rt, "account", run(&rt))
}
