// Everything of other sites, compared after an event.
ghost use Rattle.std.specs.Prelude.{not, is_some, Decides};
ghost use Rattle.book.specs.Records.{entry_of};
ghost use Rattle.bounded.specs.Numbers.{number_of};
ghost use Rattle.browser.specs.Parts.{part_of};
ghost use Rattle.pages.specs.Promise.{only};
ghost use Rattle.compare.specs.Alike.{world};
ghost use Rattle.compare.specs.Sent.{sent_to_others};
ghost use Rattle.side_by_side.specs.Leaks.{NoLeak};

use crate::verdict::Place;
use bounded::site::SiteNumber;
use compare::difference::find_difference;
use compare::let_out::same_by_others;
use compare::sent::same_requests;
use compare::world::same_servers;
use runs::event::Happened;
use servers::Servers;

// One side after an event: what happened, the bytes of the request, and the servers.
#[derive(Drop)]
pub(crate) struct Side<'a, S> {
    pub(crate) happened: &'a Happened,
    pub(crate) sent: &'a [u8],
    pub(crate) servers: &'a S,
}

// The first place where something of another site differs.
pub(crate) fn find_leak<S: Servers>(
    a: &Side<'_, S>,
    b: &Side<'_, S>,
    but: SiteNumber,
) -> Option<Place>
    ensures { Decides (not (is_some result)) (NoLeak (only (number_of but)) (world (part_of a.now.happened.now.browser) (S.Servers.states a.now.servers.now)) (world (part_of b.now.happened.now.browser) (S.Servers.states b.now.servers.now)) (entry_of a.now.happened.now.«record»).outs (entry_of b.now.happened.now.«record»).outs (sent_to_others (only (number_of but)) a.now.happened.now.asked a.now.sent.now) (sent_to_others (only (number_of but)) b.now.happened.now.asked b.now.sent.now)) }
{
    let one = a.happened;
    let two = b.happened;
    if let Some(difference) = find_difference(&one.browser, &two.browser, but) {
        return Some(Place::Browsers(difference));
    }
    if !same_servers(a.servers, b.servers, but) {
        return Some(Place::Servers);
    }
    if !same_by_others(&one.record, &two.record, but) {
        return Some(Place::LetOut);
    }
    if !same_requests(one.asked, a.sent, two.asked, b.sent, but) {
        return Some(Place::Requests);
    }
    None
}
