// Windows are added to the row, and told what comes of their doing or of others'.
ghost use Rattle.std.specs.Prelude.{◌≡◌, ◌<◌, ◌≤◌, [], ◌∷◌, ◌++◌, map, length, IfOk, nat_lt};
ghost use Rattle.bounded.specs.Numbers.{number_of};
ghost use Rattle.pages.specs.Browser.{nth, change, hears};
ghost use Rattle.pages.specs.Outs.{is_of};
ghost use Rattle.windows.specs.Queues.{word_of};
ghost use Rattle.windows.specs.Windows.{window_of, tells};
ghost use Rattle.browser.specs.Rows.{windows_of};

use super::Row;
use bounded::site::SiteNumber;
use machine::Told;
use std::alloc::{AllocError, Global};
use windows::{Window, Word};

impl Row {
    // No windows, and memory for 16.
    pub(crate) fn new(heap: Global) -> Result<Row, AllocError>
        ensures { IfOk result (λ r. windows_of r ≡ []) }
    {
        let windows = Vec::with_capacity(heap, 16)?;
        Ok(Row { windows })
    }

    pub(crate) fn as_slice(&self) -> &[Window]
        ensures is { map window_of result.now ≡ windows_of self.now }
        ensures few { length result.now ≤ 16 }
    {
        self.windows.as_slice()
    }

    // Is there room for a window more?
    pub(crate) fn has_room(&self) -> bool
        ensures { result ≡ nat_lt (length (windows_of self.now)) 16 }
    {
        self.windows.len() < 16
    }

    // Is there a window with this number, of this site?
    pub(crate) fn is_of(&self, window: u32, site: SiteNumber) -> bool
        ensures { result ≡ is_of (number_of site) (nth window (windows_of self.now)) }
    {
        // By its two arms: no proof was found over is_some_and.
        match self.windows.get(window as usize) {
            Some(found) => found.site() == site,
            None => false,
        }
    }

    // A word to a window that isn't there, or isn't of the named site, is dropped.
    pub(crate) fn hear(&mut self, window: u32, to: SiteNumber, word: &Word)
        ensures { windows_of self.new ≡ change window (hears (number_of to) (word_of word.now)) (windows_of self.old) }
    {
        if let Some(found) = self.windows.get_mut(window as usize) {
            found.hear(u32::from(to.number()), word);
        }
    }

    // The window is to be told of its own doing.
    pub(crate) fn tell(&mut self, window: usize, told: Told, bytes: &[u8])
        ensures { windows_of self.new ≡ change window (tells told bytes.now) (windows_of self.old) }
    {
        if let Some(found) = self.windows.get_mut(window) {
            found.tell(told, bytes);
        }
    }

    pub(crate) fn push(&mut self, window: Window)
        requires { length (windows_of self.old) < 16 }
        ensures { windows_of self.new ≡ windows_of self.old ++ (window_of window ∷ []) }
    {
        self.windows.push_reserved(window);
    }
}
