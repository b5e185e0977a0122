// Tokens are set and got by the site's number.
ghost use Rattle.std.specs.Prelude.{◌≡◌, ℕ, Some, None, Decides};
ghost use Rattle.std.specs.Option.{option_map};
ghost use Rattle.pages.specs.Browser.{at};
ghost use Rattle.bounded.specs.Texts.{text_of};
ghost use Rattle.bounded.specs.Numbers.{number_of};
ghost use Rattle.storage.specs.Storage.{tokens_of};

use super::Tokens;
use bounded::site::SiteNumber;
use bounded::text::Text;

impl Tokens {
    // No site has a token.
    pub fn new() -> Tokens
        ensures { tokens_of result ≡ (λ s. None) }
    {
        Tokens { tokens: [None; 16] }
    }

    pub fn get(&self, site: SiteNumber) -> Option<&[u8]>
        ensures { option_map (λ t. t.now) result ≡ tokens_of self.now (number_of site) }
    {
        self.tokens[site.number() as usize]
            .as_ref()
            .map(Text::as_slice)
    }

    pub fn set(&mut self, site: SiteNumber, token: &Text<64>)
        ensures { tokens_of self.new ≡ at (number_of site) (Some (text_of token.now)) (tokens_of self.old) }
    {
        self.tokens[site.number() as usize] = Some(*token);
    }

    // Have both the same token for the site, or none? No `==`: that would compare all sites.
    pub fn same_for(&self, other: &Tokens, site: SiteNumber) -> bool
        ensures { Decides result (tokens_of self.now (number_of site) ≡ tokens_of other.now (number_of site)) }
    {
        self.get(site) == other.get(site)
    }
}
