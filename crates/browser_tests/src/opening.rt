// Windows that are opened.
use crate::page_cases::{
    check_out, check_request, check_told, finish_page, hi, open, opening, quiet_turn, three_sites,
    with_window,
};
use std::test::Fail;

// The page of b that a page of a opens is asked for without an origin; it is told its path, and b's token is taken.
#[test]
fn a_page_is_asked_for_in_nobodys_name(rt: HostRuntime) -> Result<(), Fail> {
    let heap = rt.alloc();
    let browser = with_window(&rt, heap, three_sites(&rt, heap)?, 0, &[open(1)])?;
    let pending = browser.begin(0);
    check_request(
        &rt,
        &pending,
        b"POST / HTTP/1.1\r\nhost: b.example\r\ncontent-length: 0\r\n\r\n",
    )?;
    // two steps: to move the length of what it is told, and to ask its own server for that, with that
    let done = pending.finish(
        b"HTTP/1.1 200 \r\nset-cookie: k\r\ncontent-length: 24\r\n\r\nPAGE 1\x00\x02\x01\x05\x01\x00\x00\x00\x00\x00\x0a\x00\x04\x04\x00\x00\x00\x01",
    );
    assert_eq!(rt; done.fault, 0);
    check_out(&rt, done.page, b"o\x00\x01/")?;
    check_out(&rt, done.server, b"")?;
    let first = done.browser.begin(1);
    check_request(
        &rt,
        &first,
        b"POST / HTTP/1.1\r\nhost: b.example\r\norigin: https://b.example\r\ncookie: k\r\ncontent-length: 1\r\n\r\n/",
    )
}

#[test]
fn a_17th_window_is_let_out_and_not_opened(rt: HostRuntime) -> Result<(), Fail> {
    let heap = rt.alloc();
    let mut browser = with_window(&rt, heap, three_sites(&rt, heap)?, 0, &[open(1), open(1)])?;
    for _ in 0..14u8 {
        browser = with_window(&rt, heap, browser, 2, &[])?;
    }
    let done = finish_page(&rt, heap, browser.begin(0), 1, &[])?;
    check_out(&rt, done.page, b"o\x00\x01/")?;
    let browser = check_told(&rt, done.browser, 15, b"/\x01\x00\x00")?;
    let pending = browser.begin(0);
    assert!(rt; pending.asks().is_none());
    let done = pending.finish(&[]);
    check_out(&rt, done.page, b"o\x00\x01/")?;
    assert!(rt; opening(done.browser, 2)?.asks().is_none());
    Ok(())
}

#[test]
fn a_page_that_cannot_be_read_does_nothing(rt: HostRuntime) -> Result<(), Fail> {
    let heap = rt.alloc();
    for (answer, fault) in [(hi(), 3), (b"hi", 6)] {
        let done = opening(three_sites(&rt, heap)?, 0)?.finish(answer);
        assert_eq!(rt; done.fault, fault);
        let browser = quiet_turn(&rt, done.browser, 0, 0)?;
        let _browser = quiet_turn(&rt, browser, 0, 0)?;
    }
    Ok(())
}

#[test]
fn window_256_is_not_window_0(rt: HostRuntime) -> Result<(), Fail> {
    let heap = rt.alloc();
    let browser = with_window(&rt, heap, three_sites(&rt, heap)?, 0, &[])?;
    let browser = quiet_turn(&rt, browser, 256, 0)?;
    let _browser = check_told(&rt, browser, 0, b"/\x01\x00\x00")?;
    Ok(())
}
