// A window of the row has its turn.
ghost use Rattle.std.specs.Prelude.{◌≡◌, ◌≤◌};
ghost use Rattle.std.specs.Option.{option_map};
ghost use Rattle.pages.specs.Browser.{nth, change, stepped};
ghost use Rattle.windows.specs.Scripts.{by_machine};
ghost use Rattle.browser.specs.Rows.{windows_of};
ghost use Rattle.browser.specs.Ran.{ran_of, run_of};

use super::Row;
use crate::deed::{Deed, deed_of};
use bounded::site::SiteNumber;

// What came of a window's run: of which site it is, what its page does, and the number of the fault.
#[derive(Clone, Copy)]
pub(crate) struct Ran {
    pub(crate) site: SiteNumber,
    pub(crate) deed: Deed,
    pub(crate) fault: u8,
}

impl Row {
    // The window's script runs, if there is such a window, where so many sites are named.
    pub(crate) fn run(&mut self, window: u32, sites: u32) -> Option<Ran>
        requires { sites ≤ 16 }
        ensures row { windows_of self.new ≡ change window (stepped (by_machine sites)) (windows_of self.old) }
        ensures ran { option_map ran_of result ≡ option_map (run_of sites) (nth window (windows_of self.old)) }
    {
        let found = self.windows.get_mut(window as usize)?;
        let outcome = found.step(sites);
        Some(Ran {
            site: found.site(),
            deed: deed_of(found, outcome, sites),
            fault: outcome.fault(),
        })
    }
}
