// What settings borrow from their text, by value.
ghost use Rattle.std.specs.Prelude.{◌≡◌, map, IfOk};
ghost use Rattle.std.specs.Option.{option_map};
ghost use Rattle.settings.specs.Views.{sites_in, opens_in, open_of};
ghost use Rattle.storage.specs.Tables.{table_of};
ghost use Rattle.plans.specs.Agendas.{opening_of};
ghost use Rattle.plans.specs.Fits.{AllSites, AllOpenings, fitting};

use crate::agenda::Opening;
use addresses::Site;
use bounded::fixed::FixedVec;
use bounded::site::SiteNumber;
use bounded::text::Text;
use settings::Open;
use std::alloc::{AllocError, Global};
use storage::table::Table;

// The table of these sites, if they are sites, as those of settings that were read are.
pub(crate) fn table_of(sites: &FixedVec<Site<'_>, 16>) -> Table
    ensures { AllSites (sites_in sites.now) → table_of result ≡ sites_in sites.now }
{
    let mut table = Table::new();
    for site in sites.as_slice() {
        let _ = table.add(*site);
    }
    table
}

// A window to open, if its site has a number below 16 and its path has at most 255 bytes.
fn opening(open: Open<'_>) -> Option<Opening>
    ensures { option_map opening_of result ≡ fitting (open_of «open».entry) }
{
    let site = SiteNumber::new(u32::try_from(open.site).ok()?)?;
    let path = Text::new(open.path)?;
    Some(Opening { site, path })
}

// The windows to open, if they fit, as those of settings that were read do.
pub(crate) fn openings(
    heap: Global,
    opens: &FixedVec<Open<'_>, 16>,
) -> Result<Vec<Opening>, AllocError>
    ensures { IfOk result (λ v. (AllOpenings (opens_in opens.now) → map opening_of v.items ≡ opens_in opens.now)) }
{
    let mut list = Vec::with_capacity(heap, 16)?;
    for open in opens.as_slice() {
        let Some(opening) = opening(*open) else {
            return Ok(list);
        };
        list.push_reserved(opening);
    }
    Ok(list)
}
