// Examples: what is one site's is never another's.
use crate::stores::Stores;
use crate::table::Table;
use crate::tokens::Tokens;
use addresses::Site;
use bounded::site::SiteNumber;
use bounded::text::Text;
use std::test::Fail;

// What is there, or the test fails.
macro_rules! some {
    ($option:expr) => {{
        let Some(value) = $option else {
            return Err(Fail::new("there is none"));
        };
        value
    }};
}

#[test]
fn a_shorter_keep_hides_a_longer_one(rt: HostRuntime) -> Result<(), Fail> {
    let mut stores = Stores::new(rt.alloc())?;
    let site = some!(SiteNumber::new(15));
    let other = some!(SiteNumber::new(14));
    assert_eq!(rt; stores.look(site), b"".as_slice());
    assert_eq!(rt; stores.keep(site, b"a longer text"), true);
    assert_eq!(rt; stores.keep(site, b"short"), true);
    assert_eq!(rt; stores.look(site), b"short".as_slice());
    assert_eq!(rt; stores.look(other), b"".as_slice());
    Ok(())
}

#[test]
fn more_than_4096_bytes_are_refused(rt: HostRuntime) -> Result<(), Fail> {
    let mut stores = Stores::new(rt.alloc())?;
    let site = some!(SiteNumber::new(3));
    let other = some!(SiteNumber::new(4));
    let most = vec![in rt.alloc(); 7; 4096]?;
    let more = vec![in rt.alloc(); 8; 4097]?;
    assert_eq!(rt; stores.keep(site, most.as_slice()), true);
    assert_eq!(rt; stores.keep(site, more.as_slice()), false);
    assert_eq!(rt; stores.look(site), most.as_slice());
    assert_eq!(rt; stores.look(other), b"".as_slice());
    Ok(())
}

#[test]
fn one_host_with_two_ports_is_two_sites(rt: HostRuntime) -> Result<(), Fail> {
    let host = b"shop.example";
    let mut table = Table::new();
    let first = some!(table.add(Site { host, port: 443 }));
    let second = some!(table.add(Site { host, port: 8443 }));
    let found = table.site(second).ok_or("not there")?;
    assert_eq!(rt; found.host, host.as_slice());
    assert_eq!(rt; found.port, 8443);
    let mut stores = Stores::new(rt.alloc())?;
    assert_eq!(rt; stores.keep(first, b"one"), true);
    assert_eq!(rt; stores.keep(second, b"two"), true);
    assert_eq!(rt; stores.look(first), b"one".as_slice());
    assert_eq!(rt; stores.look(second), b"two".as_slice());
    Ok(())
}

#[test]
fn no_token_is_not_the_empty_token(rt: HostRuntime) -> Result<(), Fail> {
    let none = Tokens::new();
    let mut tokens = Tokens::new();
    let site = some!(SiteNumber::new(2));
    let other = some!(SiteNumber::new(1));
    tokens.set(site, &Text::empty());
    assert_eq!(rt; none.get(site).is_none(), true);
    assert_eq!(rt; tokens.get(site).ok_or("no token")?, b"".as_slice());
    assert_eq!(rt; tokens.get(other).is_none(), true);
    assert_eq!(rt; tokens.same_for(&none, site), false);
    assert_eq!(rt; tokens.same_for(&none, other), true);
    Ok(())
}

#[test]
fn a_table_takes_16_sites_and_nothing_else(rt: HostRuntime) -> Result<(), Fail> {
    let mut table = Table::new();
    let good = Site {
        host: b"a.example",
        port: 1,
    };
    for bad in [
        Site {
            host: b"",
            port: 443,
        },
        Site {
            host: b"-a",
            port: 443,
        },
        Site {
            host: b"a",
            port: 0,
        },
    ] {
        assert_eq!(rt; table.add(bad).is_none(), true);
    }
    for n in 0..16u8 {
        let number = some!(table.add(good));
        assert_eq!(rt; number.number(), n);
        assert_eq!(rt; table.site(number).is_some(), true);
    }
    assert_eq!(rt; table.add(good).is_none(), true);
    assert_eq!(rt; table.len(), 16);
    Ok(())
}
