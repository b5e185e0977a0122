// Servers that scripts play are servers.
ghost use Rattle.std.specs.Prelude.{List, Option};
ghost use Rattle.script_servers.specs.Family.{states_of};
ghost use Rattle.script_servers.specs.Serving.{Player, serving};

use super::ScriptServers;
use servers::Servers;

impl<'a> Servers for ScriptServers<'a> {
    ghost State = { Option Player };

    ghost states = { states_of };

    ghost serving = { serving };

    fn exchange(&mut self, site: u8, request: &[u8], room: &mut [u8]) -> usize {
        if site >= 16 {
            return 0;
        }
        let sites = self.sites;
        self.servers[site as usize].serve(sites, request, room)
    }

    // Not `==`: one site's servers are compared.
    fn same(&self, other: &ScriptServers<'a>, site: u8) -> bool {
        if site >= 16 {
            return true;
        }
        let mine = &self.servers[site as usize];
        let theirs = &other.servers[site as usize];
        let same_sites = self.sites == other.sites;
        same_sites && *mine == *theirs
    }
}
