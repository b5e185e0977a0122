// Servers that were asked differently.
use crate::browsers::site;
use addresses::Site;
use compare::world::same_servers;
use script_servers::family::ScriptServers;
use scripts::{Call, Script, Step};
use servers::Servers;
use std::alloc::Global;
use std::process::Abort;
use std::test::Fail;

// Site 1's server waits twice.
fn family<'a>(
    rt: &impl Abort,
    heap: Global,
    sites: &'a [Site<'a>],
) -> Result<ScriptServers<'a>, Fail> {
    let steps = [Step::Wait(Call::Nothing), Step::Wait(Call::Nothing)];
    let Some(script) = Script::new(&steps) else {
        return Err(Fail::new("too many steps"));
    };
    let mut page = [0u8; 64];
    let n = script.write(&mut page).ok_or("no room")?;
    assert!(rt; n <= 64);
    let mut family = ScriptServers::new(heap, sites)?;
    assert!(rt; family.add(1, &page[0..n])?);
    Ok(family)
}

#[test]
fn a_server_that_was_asked_differs(rt: HostRuntime) -> Result<(), Fail> {
    let sites = [Site {
        host: b"a.example",
        port: 443,
    }];
    let one = family(&rt, rt.alloc(), &sites)?;
    let mut two = family(&rt, rt.alloc(), &sites)?;
    assert!(rt; same_servers(&one, &two, site(0)?));
    let mut room = [0u8; 16];
    let _n = two.exchange(
        1,
        b"POST / HTTP/1.1\r\nhost: b.example\r\ncontent-length: 0\r\n\r\n",
        &mut room,
    );
    assert!(rt; !same_servers(&one, &two, site(0)?));
    assert!(rt; same_servers(&one, &two, site(1)?));
    Ok(())
}
