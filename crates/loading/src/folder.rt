// Servers from a folder: a page file for each site, named by its host, with ':' and the port behind it unless that is 443.
ghost use Rattle.std.specs.Prelude.{List, IfOk};
ghost use Rattle.addresses.specs.declared.Site.{Site as SiteValue};
ghost use Rattle.script_servers.specs.Family.{states_of};
ghost use Rattle.loading.specs.Fresh.{Fresh};

use crate::stop::Stop;
use addresses::Site;
use script_servers::family::ScriptServers;
use std::alloc::{AllocError, Global};
use std::io::ErrorKind;
use std::{fs, io};

fn path_of(heap: Global, folder: &str, site: Site<'_>) -> Result<String, AllocError> {
    let host = String::from_utf8_lossy(heap, site.host)?;
    let port = site.port;
    if port == 443 {
        return format!(in heap; "{folder}/{host}");
    }
    format!(in heap; "{folder}/{host}:{port}")
}

// What a file holds, if it is there.
fn read_if_any(rt: &HostRuntime, path: &str) -> io::Result<Option<Vec<u8>>> {
    // By match: of the errors only one is none, and `map` and `or_else` in a row would say it in two places.
    match fs::read(rt, path) {
        Ok(bytes) => Ok(Some(bytes)),
        Err(e) if e.kind() == ErrorKind::NotFound => Ok(None),
        Err(e) => Err(e),
    }
}

// Reads the script of a site's server, if there is a file for it. The others stay as they are.
fn load_one(
    rt: &HostRuntime,
    folder: &str,
    servers: &mut ScriptServers<'_>,
    n: u8,
    site: Site<'_>,
) -> Result<(), Stop>
    ensures { (sites : List SiteValue) → Fresh sites (states_of servers.old) → Fresh sites (states_of servers.new) }
{
    let path = path_of(rt.alloc(), folder, site)?;
    // By match, since the path is moved into the error and is needed further on too.
    let page = match read_if_any(rt, path.as_str()) {
        Ok(Some(page)) => page,
        Ok(None) => return Ok(()),
        Err(why) => return Err(Stop::File { path, why }),
    };
    servers
        .add(n, &page)
        .map_err(|why| Stop::Script { path, why })?;
    Ok(())
}

// A server for each of these sites, none of which has begun; one without a file answers nothing.
pub fn load<'a>(
    rt: &HostRuntime,
    folder: &str,
    sites: &'a [Site<'a>],
) -> Result<ScriptServers<'a>, Stop>
    ensures { IfOk result (λ x. Fresh sites.now (states_of x)) }
{
    let mut servers = ScriptServers::new(rt.alloc(), sites)?;
    for (n, site) in (0..16u8).zip(sites) {
        load_one(rt, folder, &mut servers, n, *site)?;
    }
    Ok(servers)
}
