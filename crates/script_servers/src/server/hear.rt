// A request is told to a script.
ghost use Rattle.std.specs.Prelude.{◌≡◌};
ghost use Rattle.std.specs.Option.{option_map};
ghost use Rattle.addresses.specs.Views.{site_of};
ghost use Rattle.octets.specs.Buffers.{written};
ghost use Rattle.requests.specs.Views.{asking_of};
ghost use Rattle.script_servers.specs.Told.{kind_of, kind_number, number_from, asker_in, size, token_size, numbers_of, bytes_of, hears};
ghost use Rattle.script_servers.specs.Views.{state_of, sites_of};

use super::Server;
use addresses::Site;
use answers::Kind;
use octets::pieces::put_all;
use requests::Request;

pub(crate) fn kind_of(request: Request<'_>) -> Kind
    ensures { result ≡ kind_of (asking_of request.entry).origin }
{
    match request.origin {
        Some(_) => Kind::Asked,
        None => Kind::Page,
    }
}

// By name: a From would need one of its two types to be of this crate.
fn kind_number(kind: Kind) -> u32
    ensures { result ≡ kind_number kind }
{
    match kind {
        Kind::Asked => 6,
        Kind::Page => 7,
    }
}

// The number of a site in the table; 16 for one that has none. Only the first 16 sites have numbers.
fn number_of(sites: &[Site<'_>], site: Site<'_>) -> u32
    ensures { result ≡ number_from 0 (sites_of sites.now) (site_of site.entry) }
{
    let place = sites.iter().take(16).position(|known| *known == site);
    place.unwrap_or(16) as u32
}

fn asker_in(sites: &[Site<'_>], origin: Option<Site<'_>>) -> u32
    ensures { result ≡ asker_in (sites_of sites.now) (option_map site_of origin.entry) }
{
    // By `let`: the closure of a `map_or` would need a clause of its own.
    let Some(site) = origin else {
        return 16;
    };
    number_of(sites, site)
}

fn size(part: &[u8]) -> u32
    ensures { result ≡ size part.now }
{
    part.len().min(4096) as u32
}

fn token_size(token: Option<&[u8]>) -> u32
    ensures { result ≡ token_size (option_map (λ x. x.now) token.entry) }
{
    token.map_or(65, size)
}

fn numbers_of(sites: &[Site<'_>], request: Request<'_>) -> [u32; 5]
    ensures { result ≡ numbers_of (sites_of sites.now) (asking_of request.entry) }
{
    let kind = kind_number(kind_of(request));
    let body = size(request.body);
    let asker = asker_in(sites, request.origin);
    let path = size(request.path);
    let token = token_size(request.token);
    [kind, body, asker, path, token]
}

// Body, path and token are in memory from its first place on.
fn place(request: Request<'_>, memory: &mut [u8])
    ensures { memory.new ≡ written (bytes_of (asking_of request.entry)) memory.old }
{
    let token = request.token.unwrap_or(&[]);
    let _ = put_all(memory, &[request.body, request.path, token]);
}

impl Server {
    // A script that waits is told a request.
    pub(crate) fn hear(&mut self, sites: &[Site<'_>], request: Request<'_>)
        ensures { state_of self.new ≡ hears (sites_of sites.now) (asking_of request.entry) (state_of self.old) }
    {
        let numbers = numbers_of(sites, request);
        if self.machine.tell(numbers) {
            place(request, &mut self.memory);
        }
    }
}
