// Two browsers: what is found first, but for a site.
use addresses::Site;
use answers::write::write_answer;
use answers::{Kind, Response};
use bounded::site::SiteNumber;
use bounded::text::Text;
use browser::browser::Browser;
use compare::difference::{Difference, find_difference};
use scripts::{Call, Script, Step};
use std::alloc::Global;
use std::process::Abort;
use std::test::Fail;
use storage::table::Table;

pub(crate) fn site(n: u32) -> Result<SiteNumber, Fail> {
    let Some(site) = SiteNumber::new(n) else {
        return Err(Fail::new("no site"));
    };
    Ok(site)
}

fn two_sites(rt: &impl Abort, heap: Global) -> Result<Browser, Fail> {
    let mut table = Table::new();
    for host in [b"a.example", b"b.example"] {
        assert!(rt; table.add(Site { host, port: 443 }).is_some());
    }
    let browser = Browser::new(heap, table)?;
    Ok(browser)
}

// A page of site 1 is opened, and answered so.
fn opened(browser: Browser, path: &[u8], answer: &[u8]) -> Result<Browser, Fail> {
    let Some(path) = Text::new(path) else {
        return Err(Fail::new("too long"));
    };
    Ok(browser.open(site(1)?, &path).finish(answer).browser)
}

// What is found, by a letter, and its number.
fn shown(found: Option<Difference>) -> (u8, usize) {
    let Some(difference) = found else {
        return (b'-', 0);
    };
    match difference {
        Difference::Windows { first } => (b'w', first),
        Difference::Tokens { site } => (b't', usize::from(site.number())),
        Difference::Stores { site } => (b's', usize::from(site.number())),
    }
}

fn plain() -> &'static [u8] {
    b"HTTP/1.1 200 \r\ncontent-length: 0\r\n\r\n"
}

fn with_token() -> &'static [u8] {
    b"HTTP/1.1 200 \r\nset-cookie: k\r\ncontent-length: 0\r\n\r\n"
}

// Both browsers open a page of site 1: its paths and answers, and what is found but for site 0 and but for site 1.
#[test]
fn what_is_of_a_site_is_its_own(rt: HostRuntime) -> Result<(), Fail> {
    let heap = rt.alloc();
    let cases: [(&[u8], &[u8], &[u8], &[u8], u8, usize); 4] = [
        (b"/", plain(), b"/", plain(), b'-', 0),
        (b"/", plain(), b"/x", plain(), b'w', 0),
        (b"/", plain(), b"/", with_token(), b't', 1),
        // windows come before tokens
        (b"/", with_token(), b"/x", plain(), b'w', 0),
    ];
    for (path, answer, other_path, other_answer, kind, number) in cases {
        let one = opened(two_sites(&rt, heap)?, path, answer)?;
        let two = opened(two_sites(&rt, heap)?, other_path, other_answer)?;
        let (found, at) = shown(find_difference(&one, &two, site(0)?));
        assert_eq!(rt; found, kind);
        assert_eq!(rt; at, number);
        assert!(rt; find_difference(&one, &two, site(1)?).is_none());
    }
    Ok(())
}

// Everybody sees which windows there are.
#[test]
fn a_window_that_one_lacks_is_seen(rt: HostRuntime) -> Result<(), Fail> {
    let heap = rt.alloc();
    let one = opened(two_sites(&rt, heap)?, b"/", plain())?;
    let two = opened(opened(two_sites(&rt, heap)?, b"/", plain())?, b"/", plain())?;
    let (found, at) = shown(find_difference(&one, &two, site(1)?));
    assert_eq!(rt; found, b'w');
    assert_eq!(rt; at, 1);
    let (found, at) = shown(find_difference(&two, &one, site(1)?));
    assert_eq!(rt; found, b'w');
    assert_eq!(rt; at, 1);
    Ok(())
}

// A page that keeps the two bytes that it is told first, its path, and then overwrites the second of them.
fn write_keeper(rt: &impl Abort, room: &mut [u8]) -> Result<usize, Fail> {
    let steps = [
        Step::Constant(20, 0),
        Step::Constant(21, 2),
        Step::Wait(Call::Keep { bytes: 20 }),
        Step::Constant(24, 1),
        Step::Store(24, 20),
        Step::Wait(Call::Nothing),
    ];
    let Some(script) = Script::new(&steps) else {
        return Err(Fail::new("too many steps"));
    };
    let mut page = [0u8; 64];
    let n = script.write(&mut page).ok_or("no room")?;
    assert!(rt; n <= 64);
    let answer = Response {
        code: 200,
        token: None,
        allowed: None,
        body: &page[0..n],
    };
    let size = write_answer(room, Kind::Page, answer).ok_or("no room")?;
    Ok(size)
}

// A browser in which such a page has had two turns.
fn keeper(rt: &impl Abort, heap: Global, path: &[u8]) -> Result<Browser, Fail> {
    let mut room = [0u8; 256];
    let n = write_keeper(rt, &mut room)?;
    assert!(rt; n <= 256);
    let browser = opened(two_sites(rt, heap)?, path, &room[0..n])?;
    let browser = browser.begin(0).finish(b"").browser;
    Ok(browser.begin(0).finish(b"").browser)
}

#[test]
fn what_a_site_keeps_is_its_own(rt: HostRuntime) -> Result<(), Fail> {
    let heap = rt.alloc();
    let one = keeper(&rt, heap, b"/x")?;
    let two = keeper(&rt, heap, b"/y")?;
    let (found, at) = shown(find_difference(&one, &two, site(0)?));
    assert_eq!(rt; found, b's');
    assert_eq!(rt; at, 1);
    assert!(rt; find_difference(&one, &two, site(1)?).is_none());
    Ok(())
}
