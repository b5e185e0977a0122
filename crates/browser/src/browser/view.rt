// What a browser has, to be read.
ghost use Rattle.std.specs.Prelude.{◌≡◌, ◌≤◌, map, length};
ghost use Rattle.storage.specs.Storage.{tokens_of, stores_of};
ghost use Rattle.storage.specs.Tables.{table_of};
ghost use Rattle.windows.specs.Windows.{window_of};
ghost use Rattle.browser.specs.Parts.{part_of, sites_in};

use super::Browser;
use storage::stores::Stores;
use storage::table::Table;
use storage::tokens::Tokens;
use windows::Window;

impl Browser {
    // The windows, by number: at most 16.
    pub fn windows(&self) -> &[Window]
        ensures is { map window_of result.now ≡ (part_of self.now).windows }
        ensures few { length result.now ≤ 16 }
    {
        self.windows.as_slice()
    }

    pub fn tokens(&self) -> &Tokens
        ensures { tokens_of result.now ≡ (part_of self.now).tokens }
    {
        &self.tokens
    }

    pub fn stores(&self) -> &Stores
        ensures { stores_of result.now ≡ (part_of self.now).kept }
    {
        &self.stores
    }

    pub fn table(&self) -> &Table
        ensures { table_of result.now ≡ sites_in self.now }
    {
        &self.table
    }
}
