// What two runs come to.
use compare::difference::Difference;

// Where something of other sites differs: in the browsers, in the servers' states, in what they let out, or in what their
// servers are asked.
#[derive(Clone, Copy)]
pub enum Place {
    Browsers(Difference),
    Servers,
    LetOut,
    Requests,
}

#[derive(Clone, Copy)]
pub enum Verdict {
    // They did not begin alike but for the site.
    Apart,
    // Everything of all others was the same after each of so many events, and the site let out the same in each.
    Same { events: u64 },
    // The site let out something different in this event, counted from 0; up to it all others were the same.
    LetOut { event: u64 },
    // Something of others differs although the site has let out the same.
    Leak { event: u64, place: Place },
}
