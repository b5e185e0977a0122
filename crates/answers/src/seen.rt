// Who may see an answer.
ghost use Rattle.std.specs.Prelude.{◌≡◌};
ghost use Rattle.addresses.specs.Views.{site_of};
ghost use Rattle.answers.specs.Seen.{allows, lets_see};
ghost use Rattle.answers.specs.Views.{content_of};

use crate::{Allowed, Kind, Response, read_answer};
use addresses::Site;

impl Response<'_> {
    // Does the answer allow the asking site to see it?
    pub fn allows(self, asker: Site<'_>) -> bool
        ensures { result ≡ allows (content_of self.entry).allowed (site_of asker.entry) }
    {
        match self.allowed {
            None => false,
            Some(Allowed::Everybody) => true,
            Some(Allowed::Site(site)) => site == asker,
        }
    }
}

// Do the bytes of an answer let the asking site, of another server, see it?
pub fn lets_see(s: &[u8], asker: Site<'_>) -> bool
    ensures { result ≡ lets_see s.now (site_of asker.entry) }
{
    // By `match`: with `is_ok_and` no proof was found.
    match read_answer(Kind::Asked, s) {
        Ok(answer) => answer.allows(asker),
        Err(_) => false,
    }
}
