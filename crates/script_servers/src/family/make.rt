// Servers are made, and their scripts are read.
ghost use Rattle.std.specs.Prelude.{◌≡◌, IfOk};
ghost use Rattle.scripts.specs.Page.{page_in};
ghost use Rattle.script_servers.specs.Family.{states_of, unwritten, added_to, added};

use super::ScriptServers;
use crate::server::Server;
use addresses::Site;
use scripts::{Script, Unreadable};
use std::alloc::{AllocError, Global};

impl<'a> ScriptServers<'a> {
    // Servers with scripts of no steps, which answer nothing.
    pub fn new(heap: Global, sites: &'a [Site<'a>]) -> Result<ScriptServers<'a>, AllocError>
        ensures { IfOk result (λ x. states_of x ≡ unwritten sites.now) }
    {
        let servers = vec![in heap; Server::new(Script::empty()); 16]?;
        Ok(ScriptServers { sites, servers })
    }

    // Reads a script for a site's server. It begins anew; says whether there is such a site.
    pub fn add(&mut self, site: u8, page: &[u8]) -> Result<bool, Unreadable>
        ensures answer { result ≡ added site (page_in page.now) }
        ensures after { states_of self.new ≡ added_to self.old site (page_in page.now) }
    {
        let script = Script::read(page)?;
        if site >= 16 {
            return Ok(false);
        }
        self.servers[site as usize] = Server::new(script);
        Ok(true)
    }
}
