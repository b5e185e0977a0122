// A browser is made once, and has its events: a turn of a window, or an opening by the settings.
ghost use Rattle.std.specs.Prelude.{◌≡◌, [], length, IfOk};
ghost use Rattle.std.specs.Option.{option_map};
ghost use Rattle.bounded.specs.Numbers.{number_of};
ghost use Rattle.bounded.specs.Texts.{text_of};
ghost use Rattle.storage.specs.Storage.{tokens_of};
ghost use Rattle.pages.specs.Browser.{nth, begun, needs, TurnOf, Opening};
ghost use Rattle.browser.specs.Halves.{page_outs_of, run_fault};
ghost use Rattle.browser.specs.Parts.{part_of, sites_in, scripts_in, nothing};
ghost use Rattle.browser.specs.Values.{need_of, outs_of};
ghost use Rattle.storage.specs.Tables.{table_of};

use super::Browser;
use crate::pending::Pending;
use crate::row::Row;
use bounded::site::SiteNumber;
use bounded::text::Text;
use std::alloc::{AllocError, Global};
use storage::stores::Stores;
use storage::table::Table;
use storage::tokens::Tokens;

impl Browser {
    // A browser for the sites of a table: no windows, no tokens, nothing kept. It claims all memory that it will ever
    // need.
    pub fn new(heap: Global, table: Table) -> Result<Browser, AllocError>
        ensures part { IfOk result (λ b. part_of b ≡ nothing) }
        ensures sites { IfOk result (λ b. sites_in b ≡ table_of table) }
    {
        let windows = Row::new(heap)?;
        let stores = Stores::new(heap)?;
        Ok(Browser {
            windows,
            tokens: Tokens::new(),
            stores,
            table,
        })
    }

    // The first half of a window's turn: its script runs and does what needs no server.
    pub fn begin(mut self, window: u32) -> Pending
        ensures part { part_of result.browser ≡ begun (scripts_in self) (TurnOf window) (part_of self) }
        ensures need { option_map (need_of (tokens_of result.browser.tokens)) result.need ≡ needs (scripts_in self) (TurnOf window) (part_of self) }
        ensures out { outs_of result.out ≡ page_outs_of (scripts_in self) (nth window (part_of self).windows) (part_of self) }
        ensures fault { result.fault ≡ run_fault (length (sites_in self)) (nth window (part_of self).windows) }
        ensures rest { (result.window ≡ window) × (sites_in result.browser ≡ sites_in self) }
    {
        let sites = self.table.len();
        let Some(ran) = self.windows.run(window, sites) else {
            return Pending {
                browser: self,
                window,
                need: None,
                out: None,
                fault: 0,
            };
        };
        let out = self.page_out(ran.site, &ran.deed);
        let need = self.act(window as usize, ran.site, &ran.deed);
        Pending {
            browser: self,
            window,
            need,
            out,
            fault: ran.fault,
        }
    }

    // The first half of an opening by the settings: the page is asked for, if there is room for a window more.
    pub fn open(self, site: SiteNumber, path: &Text<255>) -> Pending
        ensures part { part_of result.browser ≡ part_of self }
        ensures need { option_map (need_of (tokens_of result.browser.tokens)) result.need ≡ needs (scripts_in self) (Opening (number_of site) (text_of path.now)) (part_of self) }
        ensures out { outs_of result.out ≡ [] }
        ensures fault { result.fault ≡ 0 }
        ensures rest { (result.window ≡ 0) × (sites_in result.browser ≡ sites_in self) }
    {
        let need = self.page_needed(site, *path);
        Pending {
            browser: self,
            window: 0,
            need,
            out: None,
            fault: 0,
        }
    }
}
