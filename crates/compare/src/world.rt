// Servers are compared site by site, and browsers with their servers.
ghost use Rattle.std.specs.Prelude.{◌≡◌, ℕ, ◌≤◌, false, Decides};
ghost use Rattle.bounded.specs.Numbers.{number_of};
ghost use Rattle.browser.specs.Parts.{part_of};
ghost use Rattle.pages.specs.Promise.{only};
ghost use Rattle.pages.specs.Views.{Alike};
ghost use Rattle.compare.specs.Alike.{AlikeAt, world};

use crate::difference::find_difference;
use bounded::site::SiteNumber;
use browser::browser::Browser;
use servers::Servers;

// Is the site's server in the same state in both, or is the site the one that is left out?
fn same_server<S: Servers>(one: &S, two: &S, site: u8, but: SiteNumber) -> bool
    ensures state { Decides result (only (number_of but) site ≡ false → S.Servers.states one.now site ≡ S.Servers.states two.now site) }
    ensures beyond { (s : ℕ) → 16 ≤ s → S.Servers.states one.now s ≡ S.Servers.states two.now s }
{
    one.same(two, site) || site == but.number()
}

// Is every other site's server in the same state in both?
pub fn same_servers<S: Servers>(one: &S, two: &S, but: SiteNumber) -> bool
    ensures { Decides result (AlikeAt (only (number_of but)) (S.Servers.states one.now) (S.Servers.states two.now)) }
{
    (0..16u8).all(|site| same_server(one, two, site, but))
}

// Is everything of every other site the same in both: its windows, its token, what it keeps, its server's state?
// Browsers and servers one by one: a struct of the two would be made for this call alone.
pub fn same_worlds<S: Servers>(
    one: &Browser,
    first: &S,
    two: &Browser,
    second: &S,
    but: SiteNumber,
) -> bool
    ensures { Decides result (Alike (only (number_of but)) (world (part_of one.now) (S.Servers.states first.now)) (world (part_of two.now) (S.Servers.states second.now))) }
{
    find_difference(one, two, but).is_none() && same_servers(first, second, but)
}
