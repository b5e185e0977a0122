// The sites of a table: all of them, and one by its name.
ghost use Rattle.std.specs.Prelude.{◌≡◌, map, IfOk};
ghost use Rattle.std.specs.Option.{option_map};
ghost use Rattle.addresses.specs.Views.{site_of};
ghost use Rattle.bounded.specs.Numbers.{number_of};
ghost use Rattle.pages.specs.Browser.{nth};
ghost use Rattle.settings.specs.Settings.{number_of as place_of};
ghost use Rattle.storage.specs.Tables.{table_of};

use addresses::Site;
use bounded::site::SiteNumber;
use std::alloc::{AllocError, Global};
use storage::table::Table;

#[tactic(auto, using(crate::proofs::Places::none_at))]
fn site_at(table: &Table, n: u32) -> Option<Site<'_>>
    ensures { option_map site_of result ≡ nth n (table_of table.now) }
{
    table.site(SiteNumber::new(n)?)
}

// The number of a site, if it has one.
#[tactic(auto, using(crate::proofs::Places::number_is))]
pub fn number_of(table: &Table, site: Site<'_>) -> Option<SiteNumber>
    ensures { option_map number_of result ≡ place_of (site_of site.entry) (table_of table.now) }
{
    table.number_of(site)
}

// The sites by number.
pub fn sites_of(heap: Global, table: &Table) -> Result<Vec<Site<'_>>, AllocError>
    ensures { IfOk result (λ v. map site_of v.items ≡ table_of table.now) }
{
    let mut sites = Vec::new(heap);
    // By number: a table gives its sites one by one, and no slice of them. That there is a site at each number below the length, the proof shows.
    for n in 0..table.len() {
        let Some(site) = site_at(table, n) else {
            return Ok(sites);
        };
        sites.push(site)?;
    }
    Ok(sites)
}
