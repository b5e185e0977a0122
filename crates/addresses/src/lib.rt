// Addresses and sites: read, compared and written.
#![tactic(auto)]

ghost use Rattle.std.specs.Prelude.{◌≡◌, true, ◌++◌, drop, Decides};
ghost use Rattle.std.specs.Option.{option_map};
ghost use Rattle.std.specs.Cmp.Rules.{comparing};
ghost use Rattle.std.proofs.Common.{rules};
ghost use Rattle.octets.specs.Buffers.{written, count};
ghost use Rattle.octets.specs.Classes.{has};
ghost use Rattle.octets.specs.Fronts.{front, past};
ghost use Rattle.octets.specs.declared.Class.TheVariants.{Name};
ghost use Rattle.addresses.specs.Address.{host_then, site_then, site_ok, path_ok, end_from, read_address, read_site};
ghost use Rattle.addresses.specs.Views.{answer_of, site_of, site_eq, address_of};
ghost use Rattle.addresses.specs.Written.{port_text, site_text, SiteReadsBack, AddressReadsBack, AnyPortReads};

use octets::pieces::put_all;
use octets::small::SmallText;
use octets::{Class, span, split, strip};

mod parts;

use crate::parts::{is_host, port_then};

// A host, a port and a path, as parts of the bytes that were read.
#[derive(Clone, Copy)]
pub struct Address<'a> {
    pub host: &'a [u8],
    pub port: u16,
    pub path: &'a [u8],
}

// A host and a port.
#[derive(Clone, Copy)]
pub struct Site<'a> {
    pub host: &'a [u8],
    pub port: u16,
}

// Two sites are one where host and port are the same. By hand: a derive carries no clause, and what `==` decides is
// promised.
impl PartialEq for Site<'_> {
    ghost eq = { site_eq };

    ghost laws = { Prim.search (comparing, rules) };

    fn eq(&self, other: &Site<'_>) -> bool
        ensures is { result ≡ site_eq self.now other.now }
        ensures same { Decides result (site_of self.now ≡ site_of other.now) }
    {
        self.port == other.port && self.host == other.host
    }
}

impl Eq for Site<'_> {
    ghost laws = { Prim.search (comparing, rules) };
}

#[derive(Clone, Copy)]
pub enum AddressFault {
    Unreadable,
}

// A host, a port and what follows them.
pub fn host_then(t: &[u8]) -> Option<(&[u8], u16, &[u8])>
    ensures { option_map (λ p. (p.0.now, p.1, p.2.now)) result ≡ host_then (front (has Name) t.now) (past (has Name) t.now) }
{
    let (host, end) = split(Class::Name, t);
    if !is_host(host) {
        return None;
    }
    let (port, rest) = port_then(end)?;
    Some((host, port, rest))
}

fn site_then(s: &[u8]) -> Option<(&[u8], u16, &[u8])>
    ensures { option_map (λ p. (p.0.now, p.1, p.2.now)) result ≡ site_then s.now }
{
    host_then(strip(s, b"https://")?)
}

// '/', and in all up to 255 bytes from '!' to '~'.
pub fn is_path(s: &[u8]) -> bool
    ensures { result ≡ path_ok s.now }
{
    s.starts_with(b"/") && s.len() <= 255 && span(Class::Visible, s) == s.len()
}

pub fn read_address(s: &[u8]) -> Result<Address<'_>, AddressFault>
    ensures { answer_of result ≡ read_address s.now }
{
    let (host, port, path) = site_then(s).ok_or(AddressFault::Unreadable)?;
    if !is_path(path) {
        return Err(AddressFault::Unreadable);
    }
    Ok(Address { host, port, path })
}

// A host and a port with nothing after them.
pub fn read_host(t: &[u8]) -> Option<Site<'_>>
    ensures { option_map site_of result ≡ end_from (host_then (front (has Name) t.now) (past (has Name) t.now)) }
{
    let (host, port, rest) = host_then(t)?;
    rest.is_empty().then_some(Site { host, port })
}

// A site with nothing after it.
pub fn read_site(s: &[u8]) -> Option<Site<'_>>
    ensures { option_map site_of result ≡ read_site s.now }
{
    read_host(strip(s, b"https://")?)
}

// Are host and port within their rules?
pub fn is_site(site: Site<'_>) -> bool
    ensures { result ≡ site_ok site.entry.host.now site.entry.port }
{
    is_host(site.host) && site.port > 0
}

// ':' and the port, or nothing for 443.
pub fn port_text(port: u16) -> SmallText
    ensures { drop result.from result.bytes ≡ port_text port }
{
    if port == 443 {
        return SmallText::empty();
    }
    SmallText::decimal_after(b':', port as u64)
}

// Writes a site at the front of the buffer, if it fits; else nothing.
pub fn write_site(out: &mut [u8], site: Site<'_>) -> Option<usize>
    ensures answer { result ≡ count (site_text site.entry.host.now site.entry.port) out.old }
    ensures after { out.new ≡ written (site_text site.entry.host.now site.entry.port) out.old }
{
    let port = port_text(site.port);
    put_all(out, &[b"https://", site.host, port.as_bytes()])
}

// What is written is read back, and a written 443 is the same site as none.
pub fn addresses_read_back() -> bool
    ensures { (SiteReadsBack) × ((AddressReadsBack) × ((AnyPortReads) × (result ≡ true))) }
{
    true
}
