// Askings: what a page is told of an answer, and what goes with the next request.
use crate::page_cases::{
    ask, check_out, check_request, check_told, hi, open, quiet_turn, say, three_sites, with_window,
};
use std::alloc::Global;
use std::process::Abort;
use std::test::Fail;

// A page of a asks a site's server, which answers so: what the page is told, what it and the server let out, and the
// number of the fault.
#[test]
fn a_page_is_told_what_it_may_see(rt: HostRuntime) -> Result<(), Fail> {
    let heap = rt.alloc();
    let to_b: &[u8] = b"a\x00\x01!";
    let by_b: &[u8] = b"\xc8\x01\x00hi";
    let cases: [(u32, &[u8], &[u8], &[u8], &[u8], u8); 8] = [
        (0, hi(), b"hi\x02\x00\xc8", b"", b"", 0),
        // b allows nobody, c, a, everybody
        (1, hi(), b"\x03\x01\x00", to_b, b"", 0),
        (
            1,
            b"HTTP/1.1 200 \r\naccess-control-allow-origin: https://a.example:8443\r\ncontent-length: 2\r\n\r\nhi",
            b"\x03\x01\x00",
            to_b,
            b"",
            0,
        ),
        (
            1,
            b"HTTP/1.1 200 \r\naccess-control-allow-origin: https://a.example\r\ncontent-length: 2\r\n\r\nhi",
            b"hi\x02\x01\xc8",
            to_b,
            by_b,
            0,
        ),
        (
            1,
            b"HTTP/1.1 200 \r\naccess-control-allow-origin: *\r\ncontent-length: 2\r\n\r\nhi",
            b"hi\x02\x01\xc8",
            to_b,
            by_b,
            0,
        ),
        // what can't be read is barred, also from the site's own page
        (0, b"hi", b"\x03\x00\x00", b"", b"", 6),
        (1, b"hi", b"\x03\x01\x00", to_b, b"", 6),
        (
            0,
            b"HTTP/1.1 200 \r\ncontent-length: x\r\n\r\nhi",
            b"\x03\x00\x00",
            b"",
            b"",
            7,
        ),
    ];
    for (site, answer, told, page, server, fault) in cases {
        let browser = with_window(&rt, heap, three_sites(&rt, heap)?, 0, &[ask(site)])?;
        let done = browser.begin(0).finish(answer);
        check_out(&rt, done.page, page)?;
        check_out(&rt, done.server, server)?;
        assert_eq!(rt; done.fault, fault);
        let _browser = check_told(&rt, done.browser, 0, told)?;
    }
    Ok(())
}

// b's answer is barred, and its token goes with the next request to b all the same, unless it can't be read. No token
// is not the empty one.
#[test]
fn a_token_goes_with_the_next_request(rt: HostRuntime) -> Result<(), Fail> {
    let heap = rt.alloc();
    let without: &[u8] =
        b"POST / HTTP/1.1\r\nhost: b.example\r\norigin: https://a.example\r\ncontent-length: 1\r\n\r\n!";
    let cases: [(&[u8], &[u8]); 4] = [
        (hi(), without),
        (
            b"HTTP/1.1 200 \r\nset-cookie: k\r\ncontent-length: 0\r\n\r\n",
            b"POST / HTTP/1.1\r\nhost: b.example\r\norigin: https://a.example\r\ncookie: k\r\ncontent-length: 1\r\n\r\n!",
        ),
        (
            b"HTTP/1.1 200 \r\nset-cookie: \r\ncontent-length: 0\r\n\r\n",
            b"POST / HTTP/1.1\r\nhost: b.example\r\norigin: https://a.example\r\ncookie: \r\ncontent-length: 1\r\n\r\n!",
        ),
        (
            b"HTTP/1.1 200 \r\nset-cookie: k\r\ncontent-length: 1\r\n\r\n",
            without,
        ),
    ];
    for (answer, request) in cases {
        let browser = with_window(
            &rt,
            heap,
            three_sites(&rt, heap)?,
            0,
            &[ask(1), ask(1), ask(1)],
        )?;
        let first = browser.begin(0);
        check_request(&rt, &first, without)?;
        let second = first.finish(answer).browser.begin(0);
        check_request(&rt, &second, request)?;
        // an answer that sets none leaves it
        let third = second.finish(hi()).browser.begin(0);
        check_request(&rt, &third, request)?;
    }
    Ok(())
}

// Writes the next request of a page of a that b's server answered, and says how long it is.
fn next_request(
    rt: &impl Abort,
    heap: Global,
    answer: &[u8],
    room: &mut [u8],
) -> Result<usize, Fail> {
    let browser = with_window(rt, heap, three_sites(rt, heap)?, 0, &[ask(1)])?;
    let done = browser.begin(0).finish(answer);
    let size = done.browser.begin(0).request(room).ok_or("nothing asked")?;
    Ok(size)
}

#[test]
fn a_barred_answer_tells_nothing_of_the_guest(rt: HostRuntime) -> Result<(), Fail> {
    let mut known = [0u8; 256];
    let mut unknown = [0u8; 256];
    let size = next_request(&rt, rt.alloc(), hi(), &mut known)?;
    let refused = b"HTTP/1.1 403 \r\ncontent-length: 0\r\n\r\n";
    assert_eq!(rt; next_request(&rt, rt.alloc(), refused, &mut unknown)?, size);
    assert!(rt; known[..] == unknown[..]);
    Ok(())
}

#[test]
fn a_site_without_a_number_is_not_spoken_to(rt: HostRuntime) -> Result<(), Fail> {
    let heap = rt.alloc();
    let deeds = [ask(3), say(0, 256, 5), open(9)];
    let browser = with_window(&rt, heap, three_sites(&rt, heap)?, 0, &deeds)?;
    let browser = quiet_turn(&rt, browser, 0, 5)?;
    let browser = quiet_turn(&rt, browser, 0, 5)?;
    let browser = quiet_turn(&rt, browser, 0, 5)?;
    let _browser = check_told(&rt, browser, 0, b"\x00\x00\x00")?;
    Ok(())
}
