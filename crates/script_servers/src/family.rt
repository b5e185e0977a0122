// A server for each site.
ghost use Rattle.std.specs.Prelude.{◌≡◌, vec_len};

use crate::server::Server;
use addresses::Site;

mod make;
mod serve;

// A server for each of 16 sites, and the table of the sites that they know by number.
#[derive(Drop)]
pub struct ScriptServers<'a> {
    sites: &'a [Site<'a>],
    servers: Vec<Server>,
    ghost all: { vec_len servers ≡ 16 },
}
