// Each site's bytes are kept and looked at by its number.
ghost use Rattle.std.specs.Prelude.{◌≡◌, ◌≤◌, [], length, IfOk, if◌then◌else◌, Decides, nat_le};
ghost use Rattle.pages.specs.Browser.{at};
ghost use Rattle.bounded.specs.Numbers.{number_of};
ghost use Rattle.storage.specs.Storage.{stores_of};

use super::Stores;
use bounded::site::SiteNumber;
use bounded::text::Text;
use std::alloc::{AllocError, Global};

impl Stores {
    // Claims all the memory. No site keeps anything.
    pub fn new(heap: Global) -> Result<Stores, AllocError>
        ensures { IfOk result (λ s. stores_of s ≡ (λ _. [])) }
    {
        let texts = vec![in heap; Text::empty(); 16]?;
        Ok(Stores { texts })
    }

    // The site keeps these bytes and no others; more than 4,096 are refused.
    // A bool: there is one reason to refuse, and the contract is of the bool.
    pub fn keep(&mut self, site: SiteNumber, bytes: &[u8]) -> bool
        ensures answer { result ≡ nat_le (length bytes.now) 4096 }
        ensures after { stores_of self.new ≡ (if result then at (number_of site) bytes.now (stores_of self.old) else stores_of self.old) }
    {
        self.texts[site.number() as usize].assign(bytes).is_some()
    }

    // What the site keeps.
    pub fn look(&self, site: SiteNumber) -> &[u8]
        ensures is { result.now ≡ stores_of self.now (number_of site) }
        ensures short { length result.now ≤ 4096 }
    {
        self.texts[site.number() as usize].as_slice()
    }

    // Do both keep the same for the site? No `==`: that would compare all sites.
    pub fn same_for(&self, other: &Stores, site: SiteNumber) -> bool
        ensures { Decides result (stores_of self.now (number_of site) ≡ stores_of other.now (number_of site)) }
    {
        self.look(site) == other.look(site)
    }
}
