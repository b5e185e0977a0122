// Sites are added to the table, and found by number.
ghost use Rattle.std.specs.Prelude.{◌≡◌, ◌≤◌, true, [], length, Some, IfSome, IfNone};
ghost use Rattle.std.specs.Option.{option_map};
ghost use Rattle.addresses.specs.Address.{site_ok};
ghost use Rattle.addresses.specs.Views.{site_of};
ghost use Rattle.pages.specs.Browser.{nth};
ghost use Rattle.bounded.specs.Numbers.{number_of};
ghost use Rattle.storage.specs.Tables.{row_of, table_of, added, numbered, NotBelow};

use super::{Row, Table};
use addresses::{Site, is_site};
use bounded::fixed::FixedVec;
use bounded::site::SiteNumber;
use bounded::text::Text;

impl Row {
    fn site(&self) -> Site<'_>
        ensures { site_of result ≡ row_of self.now }
    {
        Site {
            host: self.host.as_slice(),
            port: self.port,
        }
    }
}

impl Table {
    pub fn new() -> Table
        ensures { table_of result ≡ [] }
    {
        let row = Row {
            host: Text::empty(),
            port: 0,
        };
        Table {
            rows: FixedVec::empty(row),
        }
    }

    // How many sites there are: at most 16.
    pub fn len(&self) -> u32
        ensures is { result ≡ length (table_of self.now) }
        ensures few { result ≤ 16 }
    {
        self.rows.len() as u32
    }

    // The next number is the site's, if host and port are within their rules and there is room.
    pub fn add(&mut self, site: Site<'_>) -> Option<SiteNumber>
        ensures answer { option_map number_of result ≡ numbered (site_of site.entry) (table_of self.old) }
        ensures after { table_of self.new ≡ added (site_of site.entry) (table_of self.old) }
    {
        if !is_site(site) {
            return None;
        }
        let number = SiteNumber::new(self.len())?;
        let host = Text::new(site.host)?;
        self.rows.push(Row {
            host,
            port: site.port,
        })?;
        Some(number)
    }

    // The site of this number, if there is one. It is within the rules of sites.
    pub fn site(&self, number: SiteNumber) -> Option<Site<'_>>
        ensures is { option_map site_of result ≡ nth (number_of number) (table_of self.now) }
        ensures ok { IfSome result (λ s. site_ok s.host.now s.port ≡ true) }
    {
        let row = self.rows.as_slice().get(number.number() as usize)?;
        Some(row.site())
    }

    // The number of a site, if it has one: the first of them.
    pub fn number_of(&self, site: Site<'_>) -> Option<SiteNumber>
        ensures is { IfSome result (λ n. nth (number_of n) (table_of self.now) ≡ Some (site_of site.entry)) }
        ensures first { IfSome result (λ n. NotBelow (number_of n) (site_of site.entry) (table_of self.now)) }
        ensures none { IfNone result (NotBelow 16 (site_of site.entry) (table_of self.now)) }
    {
        let rows = self.rows.as_slice();
        let place = rows.iter().position(|row| row.site() == site)?;
        SiteNumber::new(place as u32)
    }
}
