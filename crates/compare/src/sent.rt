// What servers are asked, on the wire, compared.
ghost use Rattle.std.specs.Prelude.{◌≡◌, Decides};
ghost use Rattle.bounded.specs.Numbers.{number_of};
ghost use Rattle.pages.specs.Promise.{only};
ghost use Rattle.compare.specs.Sent.{outside, sent_to_others};

use bounded::site::SiteNumber;

// The asked site, unless it is the one that is left out.
fn other_site(site: Option<u8>, but: SiteNumber) -> Option<u8>
    ensures { result ≡ outside (only (number_of but)) site }
{
    site.filter(|n| *n != but.number())
}

// Is the same sent to other sites' servers: nothing, or to the same one the same bytes?
pub fn same_requests(
    one: Option<u8>,
    bytes: &[u8],
    two: Option<u8>,
    others: &[u8],
    but: SiteNumber,
) -> bool
    ensures { Decides result (sent_to_others (only (number_of but)) one bytes.now ≡ sent_to_others (only (number_of but)) two others.now) }
{
    let one = other_site(one, but).map(|n| (n, bytes));
    let two = other_site(two, but).map(|n| (n, others));
    one == two
}
