// A browser in the middle of an event: what it needs of a server, what its page let out, and the number of its fault.
ghost use Rattle.std.specs.Prelude.{◌≡◌, true, length};
ghost use Rattle.browser.specs.Needs.{is_ready};
ghost use Rattle.browser.specs.Rows.{windows_of};

use crate::browser::Browser;
use crate::values::{Need, Out};

mod finish;

#[derive(Drop)]
pub struct Pending {
    pub(crate) browser: Browser,
    pub(crate) window: u32,
    pub(crate) need: Option<Need>,
    pub(crate) out: Option<Out>,
    pub(crate) fault: u8,
    ghost ready: { is_ready (length (windows_of browser.windows)) window need ≡ true },
}

// An event that is over: the browser, what its page and the asked server let out, and the number of its fault: one number for
// faults of runs, of pages and of answers, as it goes into the book's line.
#[derive(Drop)]
pub struct Finished {
    pub browser: Browser,
    pub page: Option<Out>,
    pub server: Option<Out>,
    pub fault: u8,
}
