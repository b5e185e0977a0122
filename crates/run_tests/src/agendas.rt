// Which events the settings give, and what the book holds of them. The servers here answer nothing, so that every window has
// a script that does nothing.
use addresses::Site;
use book::record::{Event, Record};
use plans::plan::{Plan, Unplanned};
use runs::notes::MemoryBook;
use runs::run::run_servers;
use script_servers::family::ScriptServers;
use settings::Fault;
use std::alloc::Global;
use std::process::Abort;
use std::test::*;

// The number of the window whose turn it was, and 99 for an opening.
fn window_of(record: &Record) -> u32 {
    match record.event {
        Event::Opening { site: _, path: _ } => 99,
        Event::Turn { window } => window,
    }
}

// The number of the site, and 99 where there is no such window.
fn site_of(record: &Record) -> u8 {
    record.site.map_or(99, |site| site.number())
}

// Runs these settings over servers that answer nothing.
fn book_of(heap: Global, text: &'static [u8]) -> Result<MemoryBook, Fail> {
    let Ok(plan) = Plan::read(heap, text) else {
        return Err(Fail::new("no plan"));
    };
    let named: [Site<'_>; 0] = [];
    let servers = ScriptServers::new(heap, &named)?;
    let mut book = MemoryBook::new(heap, 64)?;
    let mut request = [0u8; 4096];
    let mut answer = [0u8; 256];
    let _ = run_servers(heap, plan, servers, &mut book, &mut request, &mut answer)?;
    Ok(book)
}

// The book holds turns of these windows, which are of these sites.
fn holds(rt: &impl Abort, book: &MemoryBook, windows: &[u32], sites: &[u8]) -> Result<(), Fail> {
    assert!(rt; !book.missed());
    let records = book.records();
    assert_eq!(rt; records.len(), windows.len());
    assert_eq!(rt; records.len(), sites.len());
    for ((record, window), site) in records.iter().zip(windows).zip(sites) {
        assert_eq!(rt; window_of(record), *window);
        assert_eq!(rt; site_of(record), *site);
    }
    Ok(())
}

fn gives(
    rt: &impl Abort,
    heap: Global,
    text: &'static [u8],
    windows: &[u32],
    sites: &[u8],
) -> Result<(), Fail> {
    let book = book_of(heap, text)?;
    holds(rt, &book, windows, sites)
}

#[test]
fn windows_are_opened_first(rt: HostRuntime) -> Result<(), Fail> {
    gives(
        &rt,
        rt.alloc(),
        b"open https://a.example/\nsite https://c.example/\nopen https://b.example/x\n",
        &[99, 99],
        &[0, 2],
    )
}

#[test]
fn turns_by_line(rt: HostRuntime) -> Result<(), Fail> {
    gives(
        &rt,
        rt.alloc(),
        b"open https://a.example/\nopen https://b.example/\nturn 1\nturn 0\nturn 7\nturn 1\n",
        &[99, 99, 1, 0, 7, 1],
        &[0, 1, 1, 0, 99, 1],
    )
}

#[test]
fn rounds_by_number(rt: HostRuntime) -> Result<(), Fail> {
    gives(
        &rt,
        rt.alloc(),
        b"open https://a.example/\nopen https://b.example/\n0 times all\n2 times all\nturn 1\n1 times all\n",
        &[99, 99, 0, 1, 0, 1, 1, 0, 1],
        &[0, 1, 0, 1, 0, 1, 1, 0, 1],
    )
}

#[test]
fn rounds_of_no_windows_are_over_at_once(rt: HostRuntime) -> Result<(), Fail> {
    gives(
        &rt,
        rt.alloc(),
        b"site https://a.example/\n999999999 times all\nturn 0\n",
        &[0],
        &[99],
    )
}

#[test]
fn a_page_that_cannot_be_had_is_a_fault_of_its_opening(rt: HostRuntime) -> Result<(), Fail> {
    let book = book_of(rt.alloc(), b"open https://a.example/\nturn 0\n")?;
    let records = book.records();
    assert_eq!(rt; records.len(), 2);
    if records.len() == 2 {
        assert_eq!(rt; records[0].fault, 6);
        assert_eq!(rt; records[1].fault, 0);
        assert!(rt; records[0].page.is_none() && records[1].page.is_none());
    }
    Ok(())
}

#[test]
fn settings_are_refused_whole(rt: HostRuntime) -> Result<(), Fail> {
    match Plan::read(
        rt.alloc(),
        b"open https://a.example/\nturn 0\nopen https://b.example/\n",
    ) {
        Err(Unplanned::Refused(refusal)) => {
            assert_eq!(rt; refusal.line, 3);
            match refusal.fault {
                Fault::Unreadable => Ok(()),
                Fault::TooMany => {
                    assert!(rt; false);
                    Ok(())
                },
            }
        }
        _ => {
            assert!(rt; false);
            Ok(())
        },
    }
}
