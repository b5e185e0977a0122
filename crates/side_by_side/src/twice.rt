// Two browsers with their servers, event by event.
ghost use Rattle.std.specs.Prelude.{◌≡◌, length, IfOk};
ghost use Rattle.bounded.specs.Numbers.{number_of};
ghost use Rattle.storage.specs.Tables.{table_of};
ghost use Rattle.browser.specs.Parts.{part_of, sites_in};
ghost use Rattle.compare.specs.Alike.{world};
ghost use Rattle.pages.specs.Promise.{only};
ghost use Rattle.pages.specs.Views.{Alike};
ghost use Rattle.plans.specs.Agendas.{agenda_of};
ghost use Rattle.runs.specs.Exact.{sites_with, beginning};
ghost use Rattle.side_by_side.specs.Verdicts.{Truly};

use crate::leak::{Side, find_leak};
use crate::verdict::Verdict;
use bounded::site::SiteNumber;
use browser::browser::Browser;
use compare::let_out::same_let_out;
use compare::world::same_worlds;
use plans::agenda::Agenda;
use plans::plan::Plan;
use runs::event::happen;
use servers::Servers;
use servers::carrier::InProcess;
use std::alloc::{AllocError, Global};

// Gives both browsers the same events, and says as soon as the site lets out something different, or as soon as anything of
// others differs.
fn follow<S: Servers + Drop>(
    mut agenda: Agenda<'_>,
    mut one: Browser,
    mut two: Browser,
    mut first: InProcess<S>,
    mut second: InProcess<S>,
    site: SiteNumber,
    answer: &mut [u8],
) -> Verdict
    requires sites { sites_in one ≡ sites_in two }
    requires alike { Alike (only (number_of site)) (world (part_of one) (S.Servers.states first.servers)) (world (part_of two) (S.Servers.states second.servers)) }
    ensures { Truly (sites_with S.Servers.serving 4096 (length answer.old) (sites_in one)) (only (number_of site)) (record { world = world (part_of one) (S.Servers.states first.servers); agenda = agenda_of agenda.entry }) (record { world = world (part_of two) (S.Servers.states second.servers); agenda = agenda_of agenda.entry }) result }
{
    let mut sent = [0u8; 4096];
    let mut other = [0u8; 4096];
    // Counted by hand: the agenda is no iterator, since what is next goes by how many windows there are then.
    let mut event = 0u64;
    while let Some(due) = agenda.next(one.windows().len() as u32) {
        let a = happen(one, due, &mut first, &mut sent, answer);
        let b = happen(two, due, &mut second, &mut other, answer);
        if !same_let_out(&a.record, &b.record, site) {
            return Verdict::LetOut { event };
        }
        let left = Side {
            happened: &a,
            sent: &sent[..a.sent],
            servers: &first.servers,
        };
        let right = Side {
            happened: &b,
            sent: &other[..b.sent],
            servers: &second.servers,
        };
        if let Some(place) = find_leak(&left, &right, site) {
            return Verdict::Leak { event, place };
        }
        one = a.browser;
        two = b.browser;
        event = event.saturating_add(1);
    }
    Verdict::Same { events: event }
}

// Runs two browsers side by side from the same settings on, over servers that may differ at one site in their scripts, their
// states and all they do, and compares everything of all other sites at the start and after each event. The room for an
// answer is lent.
pub fn twice<S: Servers + Drop>(
    heap: Global,
    plan: Plan<'_>,
    first: S,
    second: S,
    site: SiteNumber,
    answer: &mut [u8],
) -> Result<Verdict, AllocError>
    ensures { IfOk result (Truly (sites_with S.Servers.serving 4096 (length answer.old) (table_of plan.entry.table)) (only (number_of site)) (beginning (agenda_of plan.entry.agenda) (S.Servers.states first)) (beginning (agenda_of plan.entry.agenda) (S.Servers.states second))) }
{
    let Plan { table, agenda } = plan;
    let one = Browser::new(heap, table)?;
    let two = Browser::new(heap, table)?;
    if !same_worlds(&one, &first, &two, &second, site) {
        return Ok(Verdict::Apart);
    }
    let first = InProcess { servers: first };
    let second = InProcess { servers: second };
    Ok(follow(agenda, one, two, first, second, site, answer))
}
