// What each site has one of, a token or a store, compared site by site.
ghost use Rattle.std.specs.Prelude.{◌≡◌, ℕ, ◌≤◌, Decides, Option};
ghost use Rattle.std.specs.Option.{option_map};
ghost use Rattle.bounded.specs.Numbers.{number_of};
ghost use Rattle.pages.specs.Promise.{only};
ghost use Rattle.pages.specs.Sites.{Bytes};
ghost use Rattle.storage.specs.Storage.{tokens_of, stores_of};
ghost use Rattle.compare.specs.Answers.{SiteFound};

use bounded::site::SiteNumber;
use storage::stores::Stores;
use storage::tokens::Tokens;

pub(crate) trait BySite {
    ghost Value: { Type 0 };

    // What each site has.
    ghost values: { Self → ℕ → Value };

    // Has the site the same in both? Sites have numbers below 16, and beyond nothing differs.
    fn same_at(&self, other: &Self, site: SiteNumber) -> bool
        ensures value { Decides result (values self.now (number_of site) ≡ values other.now (number_of site)) }
        ensures beyond { (s : ℕ) → 16 ≤ s → values self.now s ≡ values other.now s };
}

impl BySite for Tokens {
    ghost Value = { Option Bytes };

    ghost values = { tokens_of };

    fn same_at(&self, other: &Tokens, site: SiteNumber) -> bool {
        self.same_for(other, site)
    }
}

impl BySite for Stores {
    ghost Value = { Bytes };

    ghost values = { stores_of };

    fn same_at(&self, other: &Stores, site: SiteNumber) -> bool {
        self.same_for(other, site)
    }
}

// The first site but one that has something else in the other.
pub(crate) fn first_apart<T: BySite>(one: &T, two: &T, but: SiteNumber) -> Option<SiteNumber>
    ensures { SiteFound (only (number_of but)) (T.BySite.values one.now) (T.BySite.values two.now) (option_map number_of result) }
{
    // By a loop: each number is made a site first, and that sites beyond the last are alike is a clause of each comparison.
    for n in 0..16u32 {
        if let Some(site) = SiteNumber::new(n) {
            if !one.same_at(two, site) && site != but {
                return Some(site);
            }
        }
    }
    None
}
