// What the book holds of an event.
use bounded::site::SiteNumber;
use bounded::text::Text;
use browser::values::Out;

// The settings open a window, or a window has its turn.
#[derive(Clone, Copy)]
pub enum Event {
    Opening { site: SiteNumber, path: Text<255> },
    Turn { window: u32 },
}

// An event: the site of its window, if there is such a window; the number of its fault, or 0; what its page and the asked
// server let out.
#[derive(Clone, Copy)]
pub struct Record {
    pub event: Event,
    pub site: Option<SiteNumber>,
    // a number, since a line of the book may hold any
    pub fault: u8,
    pub page: Option<Out>,
    pub server: Option<Out>,
}
