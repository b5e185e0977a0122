// One event: its first half, the exchange with a server, its second half, and what the book holds of it.
ghost use Rattle.std.specs.Prelude.{◌≡◌, ℕ, ◌≤◌, length, take};
ghost use Rattle.std.specs.Option.{option_map};
ghost use Rattle.bounded.specs.Numbers.{number_of};
ghost use Rattle.book.specs.Records.{event_of, entry_of};
ghost use Rattle.browser.specs.Ends.{request_of};
ghost use Rattle.browser.specs.Parts.{part_of, sites_in, scripts_in};
ghost use Rattle.browser.specs.Values.{outs_of};
ghost use Rattle.pages.specs.Browser.{begun, nth};
ghost use Rattle.runs.specs.Events.{site_in, begin_fault, page_outs_in, window_in, asked, sent, Exchanged, Occurs};

use book::record::{Event, Record};
use bounded::site::SiteNumber;
use browser::browser::Browser;
use browser::pending::{Finished, Pending};
use servers::carrier::Carrier;

// An event that is over: the browser, what the book holds of it, whose server was asked, and how many bytes it was sent.
#[derive(Drop)]
pub struct Happened {
    pub browser: Browser,
    pub record: Record,
    pub asked: Option<u8>,
    pub sent: usize,
}

// The site of the event's window, if there is such a window.
fn site_of(browser: &Browser, event: &Event) -> Option<SiteNumber>
    ensures { option_map number_of result ≡ site_in (event_of event.now) (part_of browser.now) }
{
    match *event {
        Event::Opening { site, path: _ } => Some(site),
        Event::Turn { window } => {
            let found = browser.windows().get(window as usize)?;
            Some(found.site())
        }
    }
}

// The first half of an event.
fn begin(browser: Browser, event: &Event) -> Pending
    ensures part { part_of result.browser ≡ begun (scripts_in browser) (event_of event.now) (part_of browser) }
    ensures need { request_of result ≡ asked (sites_in browser) (event_of event.now) (part_of browser) }
    ensures out { outs_of result.out ≡ page_outs_in (sites_in browser) (event_of event.now) (part_of browser) }
    ensures fault { result.fault ≡ begin_fault (sites_in browser) (event_of event.now) (part_of browser) }
    ensures rest { (result.window ≡ window_in (event_of event.now)) × (sites_in result.browser ≡ sites_in browser) }
{
    match *event {
        Event::Opening { site, path } => browser.open(site, &path),
        Event::Turn { window } => browser.begin(window),
    }
}

// Writes the request, if one is made and the room suffices, and says how long it is.
fn send(pending: &Pending, room: &mut [u8]) -> usize
    ensures within { result ≤ length room.new }
    ensures bytes { take result room.new ≡ sent (length room.old) (sites_in pending.now.browser) (request_of pending.now) }
{
    pending.request(room).unwrap_or(0)
}

// Asks a server, if one is to be asked. The answer is at the front of the room, so many bytes.
fn ask<C: Carrier>(pending: &Pending, carrier: &mut C, request: &[u8], answer: &mut [u8]) -> usize
    ensures within { result ≤ length answer.new }
    ensures exchange { (room : ℕ) → request.now ≡ sent room (sites_in pending.now.browser) (request_of pending.now) → Exchanged (C.Carrier.carries (length answer.old)) room (sites_in pending.now.browser) (request_of pending.now) (take result answer.new) carrier.old carrier.new }
{
    // By a match: a closure would borrow the carrier and the room, to say the same.
    match pending.asks() {
        Some(site) => carrier.exchange(site, request, answer),
        None => 0,
    }
}

// An event happens: the request is at the front of its room. The rooms are lent one by one, since the contract is of what each
// then holds.
pub fn happen<C: Carrier>(
    browser: Browser,
    event: Event,
    carrier: &mut C,
    request: &mut [u8],
    answer: &mut [u8],
) -> Happened
    ensures occurs { Occurs (C.Carrier.carries (length answer.old)) (length request.old) (sites_in browser) (event_of event) (part_of browser) carrier.old (entry_of result.record) (part_of result.browser) carrier.new }
    ensures asked { result.asked ≡ option_map (λ q. q.site) (asked (sites_in browser) (event_of event) (part_of browser)) }
    ensures within { result.sent ≤ length request.new }
    ensures sent { take result.sent request.new ≡ sent (length request.old) (sites_in browser) (asked (sites_in browser) (event_of event) (part_of browser)) }
    ensures sites { sites_in result.browser ≡ sites_in browser }
{
    let site = site_of(&browser, &event);
    let pending = begin(browser, &event);
    let asked = pending.asks();
    let sent = send(&pending, request);
    let n = ask(&pending, carrier, &request[..sent], answer);
    let Finished {
        browser,
        page,
        server,
        fault,
    } = pending.finish(&answer[..n]);
    let record = Record {
        event,
        site,
        fault,
        page,
        server,
    };
    Happened {
        browser,
        record,
        asked,
        sent,
    }
}
