// Pages that do what a test says, and tell their own server what they are told.
use addresses::Site;
use answers::write::write_answer;
use answers::{Kind, Response};
use bounded::site::SiteNumber;
use bounded::text::Text;
use browser::browser::Browser;
use browser::pending::{Finished, Pending};
use browser::values::{Out, What};
use requests::read_request;
use scripts::{Call, Script, Step};
use std::alloc::Global;
use std::process::Abort;
use std::test::Fail;
use storage::table::Table;

// What a page does in a turn: a call, with the site, the window and the byte that go with it.
#[derive(Clone, Copy)]
pub(crate) struct Deed {
    call: Call,
    site: u32,
    window: u32,
    byte: u32,
}

pub(crate) fn ask(site: u32) -> Deed {
    let call = Call::Ask {
        site: 30,
        path: 22,
        body: 26,
    };
    Deed {
        call,
        site,
        window: 0,
        byte: 33,
    }
}

pub(crate) fn say(window: u32, site: u32, byte: u32) -> Deed {
    let call = Call::Say {
        window: 31,
        site: 30,
        bytes: 26,
    };
    Deed {
        call,
        site,
        window,
        byte,
    }
}

pub(crate) fn keep(byte: u32) -> Deed {
    let call = Call::Keep { bytes: 26 };
    Deed {
        call,
        site: 0,
        window: 0,
        byte,
    }
}

pub(crate) fn look() -> Deed {
    Deed {
        call: Call::Look,
        site: 0,
        window: 0,
        byte: 0,
    }
}

pub(crate) fn idle() -> Deed {
    Deed {
        call: Call::Nothing,
        site: 0,
        window: 0,
        byte: 0,
    }
}

pub(crate) fn open(site: u32) -> Deed {
    let call = Call::Open { site: 30, path: 22 };
    Deed {
        call,
        site,
        window: 0,
        byte: 0,
    }
}

// The steps of a page: it does its deeds, one in each turn. From then on it tells its own server in every second turn
// what it is told: the bytes, and after them the kind, the site and the code. In the turns between, in which it is told
// what its server answers to that, it does nothing.
fn steps(heap: Global, own: u32, deeds: &[Deed]) -> Result<Vec<Step>, Fail> {
    let mut steps = Vec::new(heap);
    // the path / at 4000, and a byte at 4010
    steps.extend_from_slice(&[
        Step::Constant(22, 4000),
        Step::Constant(23, 1),
        Step::Constant(24, 47),
        Step::Store(22, 24),
        Step::Constant(24, own),
        Step::Constant(26, 4010),
        Step::Constant(27, 1),
    ])?;
    for deed in deeds {
        steps.extend_from_slice(&[
            Step::Constant(28, deed.byte),
            Step::Store(26, 28),
            Step::Constant(30, deed.site),
            Step::Constant(31, deed.window),
            Step::Wait(deed.call),
        ])?;
    }
    let again = u32::try_from(steps.len())?;
    steps.extend_from_slice(&[
        Step::Move(21, 1),
        Step::Store(21, 0),
        Step::Sum(21, 21, 23),
        Step::Store(21, 2),
        Step::Sum(21, 21, 23),
        Step::Store(21, 3),
        Step::Sum(21, 21, 23),
        Step::Wait(Call::Ask {
            site: 24,
            path: 22,
            body: 20,
        }),
        Step::Wait(Call::Nothing),
        Step::Jump(again),
    ])?;
    Ok(steps)
}

// Writes an answer with the page to the front of the room, and says how long it is.
fn write_page(
    rt: &impl Abort,
    heap: Global,
    own: u32,
    deeds: &[Deed],
    room: &mut [u8],
) -> Result<usize, Fail> {
    let steps = steps(heap, own, deeds)?;
    let Some(script) = Script::new(steps.as_slice()) else {
        return Err(Fail::new("too many steps"));
    };
    let mut page = [0u8; 768];
    let n = script.write(&mut page).ok_or("no room")?;
    assert!(rt; n <= 768);
    let answer = Response {
        code: 200,
        token: None,
        allowed: None,
        body: &page[0..n],
    };
    let size = write_answer(room, Kind::Page, answer).ok_or("no room")?;
    Ok(size)
}

// An event ends with such a page of a site as the answer.
pub(crate) fn finish_page(
    rt: &impl Abort,
    heap: Global,
    pending: Pending,
    own: u32,
    deeds: &[Deed],
) -> Result<Finished, Fail> {
    let mut answer = [0u8; 1024];
    let n = write_page(rt, heap, own, deeds, &mut answer)?;
    assert!(rt; n <= 1024);
    Ok(pending.finish(&answer[0..n]))
}

// A browser for the sites a, b and c, which have the numbers 0, 1 and 2. The host of c is that of a. There are no
// windows.
pub(crate) fn three_sites(rt: &impl Abort, heap: Global) -> Result<Browser, Fail> {
    let mut table = Table::new();
    for (host, port) in [
        (b"a.example", 443),
        (b"b.example", 443),
        (b"a.example", 8443),
    ] {
        let site = Site { host, port };
        assert!(rt; table.add(site).is_some());
    }
    let browser = Browser::new(heap, table)?;
    Ok(browser)
}

// An opening of a site's page / by the settings.
pub(crate) fn opening(browser: Browser, site: u32) -> Result<Pending, Fail> {
    let Some(number) = SiteNumber::new(site) else {
        return Err(Fail::new("no site"));
    };
    let Some(path) = Text::new(b"/") else {
        return Err(Fail::new("too long"));
    };
    Ok(browser.open(number, &path))
}

// One window more: of a site, with a page that does these deeds.
pub(crate) fn with_window(
    rt: &impl Abort,
    heap: Global,
    browser: Browser,
    site: u32,
    deeds: &[Deed],
) -> Result<Browser, Fail> {
    let pending = opening(browser, site)?;
    let done = finish_page(rt, heap, pending, site, deeds)?;
    assert!(rt; done.fault == 0);
    Ok(done.browser)
}

// A server's answer with no bytes.
pub(crate) fn ok() -> &'static [u8] {
    b"HTTP/1.1 200 \r\ncontent-length: 0\r\n\r\n"
}

// A turn of a window in which no server is asked for anything that matters.
pub(crate) fn turn(browser: Browser, window: u32) -> Browser {
    browser.begin(window).finish(ok()).browser
}

// A server's answer for nobody else to see.
pub(crate) fn hi() -> &'static [u8] {
    b"HTTP/1.1 200 \r\ncontent-length: 2\r\n\r\nhi"
}

// What is asked of a server is these bytes.
pub(crate) fn check_request(rt: &impl Abort, pending: &Pending, bytes: &[u8]) -> Result<(), Fail> {
    let mut room = [0u8; 2048];
    let n = pending.request(&mut room).ok_or("nothing asked")?;
    assert!(rt; n <= 2048);
    assert!(rt; &room[0..n] == bytes);
    Ok(())
}

// A turn of a window whose page has done its deeds: it is told these bytes, with the kind, the site and the code after
// them. The turn between is had as well.
pub(crate) fn check_told(
    rt: &impl Abort,
    browser: Browser,
    window: u32,
    told: &[u8],
) -> Result<Browser, Fail> {
    let pending = browser.begin(window);
    let mut room = [0u8; 2048];
    let n = pending.request(&mut room).ok_or("nothing asked")?;
    assert!(rt; n <= 2048);
    let Ok(request) = read_request(&room[0..n]) else {
        return Err(Fail::new("no request"));
    };
    assert!(rt; request.body == told);
    Ok(turn(pending.finish(ok()).browser, window))
}

// What is let out, by a letter, and by its code if it is an answer.
fn letter(what: &What) -> u8 {
    match *what {
        What::Asked { path: _, body: _ } => b'a',
        What::Said { window: _, what: _ } => b's',
        What::Opened { path: _ } => b'o',
        What::Let { code, body: _ } => (code % 256) as u8,
    }
}

fn bytes(what: &What) -> &[u8] {
    match what {
        What::Asked { path: _, body } => body.as_slice(),
        What::Said { window: _, what } => what.as_slice(),
        What::Opened { path } => path.as_slice(),
        What::Let { code: _, body } => body.as_slice(),
    }
}

// What is let out: nothing, or what, from which site, to which, and the bytes.
pub(crate) fn check_out(rt: &impl Abort, out: Option<Out>, shown: &[u8]) -> Result<(), Fail> {
    let Some(out) = out else {
        assert!(rt; shown.is_empty());
        return Ok(());
    };
    assert!(rt; shown.len() >= 3);
    assert_eq!(rt; letter(&out.what), shown[0]);
    assert_eq!(rt; out.from.number(), shown[1]);
    assert_eq!(rt; out.to.number(), shown[2]);
    assert!(rt; bytes(&out.what) == &shown[3..]);
    Ok(())
}

// A turn of a window in which no server is asked and nothing is let out, with this fault.
pub(crate) fn quiet_turn(
    rt: &impl Abort,
    browser: Browser,
    window: u32,
    fault: u8,
) -> Result<Browser, Fail> {
    let pending = browser.begin(window);
    assert!(rt; pending.asks().is_none());
    let done = pending.finish(ok());
    check_out(rt, done.page, b"")?;
    check_out(rt, done.server, b"")?;
    assert_eq!(rt; done.fault, fault);
    Ok(done.browser)
}
