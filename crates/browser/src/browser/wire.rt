// What a request says on the wire: hosts and ports in place of numbers, and the server's token.
ghost use Rattle.std.specs.Prelude.{◌≡◌};
ghost use Rattle.addresses.specs.Views.{site_of};
ghost use Rattle.bounded.specs.Numbers.{number_of};
ghost use Rattle.requests.specs.Views.{asking_of as asking_by};
ghost use Rattle.storage.specs.Storage.{tokens_of};
ghost use Rattle.browser.specs.Parts.{sites_in};
ghost use Rattle.browser.specs.Values.{need_of};
ghost use Rattle.browser.specs.Wire.{site_at, asking_of};

use super::Browser;
use crate::values::Need;
use addresses::Site;
use bounded::site::SiteNumber;
use requests::Request;

impl Browser {
    // Host and port of a numbered site.
    pub(crate) fn site(&self, number: SiteNumber) -> Site<'_>
        ensures { site_of result ≡ site_at (sites_in self.now) (number_of number) }
    {
        self.table
            .site(number)
            .unwrap_or(Site { host: &[], port: 0 })
    }

    // The request that is made of a need.
    pub(crate) fn asking<'a>(&'a self, need: &'a Need) -> Request<'a>
        ensures { asking_by result ≡ asking_of (sites_in self.now) (need_of (tokens_of self.now.tokens) need.now) }
    {
        let site = self.site(need.site);
        let origin = need.from.map(|from| self.site(from));
        let token = self.tokens.get(need.site);
        Request {
            site,
            path: need.path.as_slice(),
            origin,
            token,
            body: need.body.as_slice(),
        }
    }
}
