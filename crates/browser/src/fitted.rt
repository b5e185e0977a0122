// Values that are known to fit.
ghost use Rattle.std.specs.Prelude.{◌≡◌, ◌<◌, ◌≤◌, length};
ghost use Rattle.bounded.specs.Numbers.{number_of};
ghost use Rattle.bounded.specs.Texts.{text_of};

use bounded::site::SiteNumber;
use bounded::text::Text;

// These bytes, which are few enough.
pub(crate) fn text<const N: usize>(bytes: &[u8]) -> Text<N>
    ensures { length bytes.now ≤ N → text_of result ≡ bytes.now }
{
    Text::new(bytes).unwrap_or(Text::empty())
}

// This number, which is a site's.
pub(crate) fn number(site: u32, other: SiteNumber) -> SiteNumber
    ensures { site < 16 → number_of result ≡ site }
{
    SiteNumber::new(site).unwrap_or(other)
}
