// browse SETTINGS BOOK: does what the settings say. Requests go framed to standard output, answers come framed from
// standard input, and a line for each event goes to the file BOOK. An input that ends is no fault: what is asked after it
// has no answer. Without arguments it says how it is called, and its limits.
#![tactic(auto)]

use loading::files::{read_file, read_plan};
use loading::stop::{Stop, exit_code};
use pages::limits;
use pipes::carrier::Pipes;
use pipes::fault::Lost;
use sessions::session::browse;
use sessions::sink::Output;
use sessions::written::WrittenBook;
use std::env;
use std::fs::File;
use std::io::{BufReader, BufWriter, Write};
use std::process::ExitCode;

// How it is called, and the limits of the browser.
fn say_limits(rt: &HostRuntime) -> Result<(), Stop> {
    let windows = limits::most_windows();
    let words = limits::most_words();
    println!(rt; "usage: browse SETTINGS BOOK")?;
    println!(rt; "at most {windows} windows, and {words} words waiting for each")?;
    Ok(())
}

fn run(rt: &HostRuntime) -> Result<(), Stop> {
    // One by one: a function that gives all as an array was tried, and the borrow checker does not cover it.
    let mut args = env::args(rt)?;
    let _ = args.next();
    let Some(path) = args.next() else {
        return say_limits(rt);
    };
    let (Some(book_path), None) = (args.next(), args.next()) else {
        return Err(Stop::Usage("browse SETTINGS BOOK"));
    };
    let text = read_file(rt, path.as_str())?;
    let plan = read_plan(rt.alloc(), path.as_str(), &text)?;
    // By match here, since the path is moved into the error and is needed further on too.
    let file = match File::create(rt, book_path.as_str()) {
        Ok(file) => file,
        Err(why) => {
            return Err(Stop::File {
                path: book_path,
                why,
            });
        }
    };
    let mut book = WrittenBook::new(Output {
        stream: BufWriter::new(rt.alloc(), file)?,
    });
    let mut pipes = Pipes {
        table: plan.table,
        input: BufReader::new(rt.alloc(), rt.stdin())?,
        output: BufWriter::new(rt.alloc(), rt.stdout())?,
        lost: None,
    };
    let _ = browse(rt.alloc(), plan, &mut pipes, &mut book)?;
    book.sink.stream.flush().map_err(|why| Stop::File {
        path: book_path,
        why,
    })?;
    if book.failed {
        return Err(Stop::Other("the book can't be written"));
    }
    match pipes.lost {
        Some(Lost::Broken(fault)) => Err(Stop::Other(fault.text())),
        _ => Ok(()),
    }
}

fn main(rt: HostRuntime) -> ExitCode {
    exit_code(&rt, "browse", run(&rt))
}
