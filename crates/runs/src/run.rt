// The whole of what is to be done, event by event.
ghost use Rattle.std.specs.Prelude.{length, IfOk};
ghost use Rattle.storage.specs.Tables.{table_of};
ghost use Rattle.browser.specs.Parts.{part_of, sites_in};
ghost use Rattle.plans.specs.Agendas.{agenda_of};
ghost use Rattle.runs.specs.Chains.{Ran};
ghost use Rattle.runs.specs.Exact.{RanExactly, beginning};

use crate::event::happen;
use crate::notes::Book;
use browser::browser::Browser;
use plans::agenda::Agenda;
use plans::plan::Plan;
use servers::Servers;
use servers::carrier::{Carrier, InProcess};
use std::alloc::{AllocError, Global};

// A run that is over: the browser and the servers.
#[derive(Drop)]
pub struct Ended<S> {
    pub browser: Browser,
    pub servers: S,
}

// Opens the windows and gives the turns, line by line and round by round, and has the book note each event. It is over when
// all is done, or when what carries the requests has broken down.
pub fn run<C: Carrier, B: Book>(
    mut agenda: Agenda<'_>,
    mut browser: Browser,
    carrier: &mut C,
    book: &mut B,
    request: &mut [u8],
    answer: &mut [u8],
) -> Browser
    ensures { Ran (C.Carrier.carries (length answer.old)) C.Carrier.broken B.Book.notes (length request.old) (sites_in browser) (record { part = part_of browser; agenda = agenda_of agenda.entry; carrier = carrier.old; book = book.old }) (part_of result) carrier.new book.new }
{
    // No iterator: what is next goes by how many windows there are then.
    while !carrier.is_broken() {
        let windows = browser.windows().len() as u32;
        let Some(event) = agenda.next(windows) else {
            return browser;
        };
        let happened = happen(browser, event, carrier, request, answer);
        book.note(&happened.record);
        browser = happened.browser;
    }
    browser
}

// The same from the settings on, with a browser that has nothing yet and servers in this process: what comes of it is the
// promise's own run.
pub fn run_servers<S: Servers + Drop, B: Book>(
    heap: Global,
    plan: Plan<'_>,
    servers: S,
    book: &mut B,
    request: &mut [u8],
    answer: &mut [u8],
) -> Result<Ended<S>, AllocError>
    ensures { IfOk result (λ x. RanExactly S.Servers.serving (length request.old) (length answer.old) (table_of plan.entry.table) B.Book.notes (beginning (agenda_of plan.entry.agenda) (S.Servers.states servers)) book.old (record { part = part_of x.browser; servers = S.Servers.states x.servers }) book.new) }
{
    let Plan { table, agenda } = plan;
    let browser = Browser::new(heap, table)?;
    let mut carrier = InProcess { servers };
    let browser = run(agenda, browser, &mut carrier, book, request, answer);
    let InProcess { servers } = carrier;
    Ok(Ended { browser, servers })
}
