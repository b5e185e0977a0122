// A session: all that a plan says is to be done, by a browser that has nothing yet.
ghost use Rattle.std.specs.Prelude.{length, IfOk};
ghost use Rattle.browser.specs.Parts.{part_of, nothing};
ghost use Rattle.plans.specs.Agendas.{agenda_of};
ghost use Rattle.runs.specs.Chains.{Ran};
ghost use Rattle.storage.specs.Tables.{table_of};

use browser::browser::Browser;
use plans::plan::Plan;
use runs::notes::Book;
use runs::run::run;
use servers::carrier::Carrier;
use std::alloc::{AllocError, Global};

// Requests have up to 4,096 bytes, and answers up to 32,768: the largest page with its head. They lie in two buffers of
// fixed size, since a turn claims no memory.
pub fn browse<C: Carrier, B: Book>(
    heap: Global,
    plan: Plan<'_>,
    carrier: &mut C,
    book: &mut B,
) -> Result<Browser, AllocError>
    ensures { IfOk result (λ x. Ran (C.Carrier.carries 32768) C.Carrier.broken B.Book.notes 4096 (table_of plan.entry.table) (record { part = nothing; agenda = agenda_of plan.entry.agenda; carrier = carrier.old; book = book.old }) (part_of x) carrier.new book.new) }
{
    let Plan { table, agenda } = plan;
    let browser = Browser::new(heap, table)?;
    let mut request = [0u8; 4096];
    let mut answer = [0u8; 32768];
    Ok(run(agenda, browser, carrier, book, &mut request, &mut answer))
}
