// Words from window to window, and what a site keeps.
use crate::page_cases::{
    Deed, ask, check_out, check_told, hi, idle, keep, look, quiet_turn, say, three_sites, turn,
    with_window,
};
use std::test::Fail;

// A page of a says 5, and this is let out; the page of b in window 1 is told that. Who said it is told nothing.
#[test]
fn a_word_is_for_a_window_of_the_named_site(rt: HostRuntime) -> Result<(), Fail> {
    let heap = rt.alloc();
    let cases: [(Deed, &[u8], &[u8]); 4] = [
        (say(1, 1, 5), b"s\x00\x01\x05", b"\x05\x04\x00\x00"),
        (say(1, 2, 5), b"", b"\x00\x00\x00"),
        (say(257, 1, 5), b"", b"\x00\x00\x00"),
        (say(2, 1, 5), b"", b"\x00\x00\x00"),
    ];
    for (deed, page, told) in cases {
        let browser = with_window(&rt, heap, three_sites(&rt, heap)?, 0, &[deed])?;
        let browser = with_window(&rt, heap, browser, 1, &[])?;
        let browser = check_told(&rt, browser, 1, b"/\x01\x00\x00")?;
        let done = browser.begin(0).finish(&[]);
        check_out(&rt, done.page, page)?;
        let browser = check_told(&rt, done.browser, 1, told)?;
        let _browser = check_told(&rt, browser, 0, b"\x00\x00\x00")?;
    }
    Ok(())
}

#[test]
fn own_doing_comes_before_words_and_words_in_order(rt: HostRuntime) -> Result<(), Fail> {
    let heap = rt.alloc();
    let browser = with_window(&rt, heap, three_sites(&rt, heap)?, 0, &[ask(0)])?;
    let browser = with_window(&rt, heap, browser, 1, &[say(0, 0, 1), say(0, 0, 2)])?;
    let browser = browser.begin(0).finish(hi()).browser;
    let browser = turn(turn(browser, 1), 1);
    let browser = check_told(&rt, browser, 0, b"hi\x02\x00\xc8")?;
    let browser = check_told(&rt, browser, 0, b"\x01\x04\x01\x00")?;
    let browser = check_told(&rt, browser, 0, b"\x02\x04\x01\x00")?;
    let _browser = check_told(&rt, browser, 0, b"\x00\x00\x00")?;
    Ok(())
}

// One is taken in each turn, also where the page does nothing.
#[test]
fn eight_words_wait_and_the_ninth_is_dropped(rt: HostRuntime) -> Result<(), Fail> {
    let heap = rt.alloc();
    let deeds = [
        say(1, 1, 0),
        say(1, 1, 1),
        say(1, 1, 2),
        say(1, 1, 3),
        say(1, 1, 4),
        say(1, 1, 5),
        say(1, 1, 6),
        say(1, 1, 7),
        say(1, 1, 8),
    ];
    let browser = with_window(&rt, heap, three_sites(&rt, heap)?, 0, &deeds)?;
    let mut browser = with_window(&rt, heap, browser, 1, &[idle(), idle()])?;
    for _ in 0..9u8 {
        browser = turn(browser, 0);
    }
    // the path, and the first word
    browser = quiet_turn(&rt, browser, 1, 0)?;
    browser = quiet_turn(&rt, browser, 1, 0)?;
    for i in 1..8u8 {
        browser = check_told(&rt, browser, 1, &[i, 4, 0, 0])?;
    }
    let _browser = check_told(&rt, browser, 1, b"\x00\x00\x00")?;
    Ok(())
}

// A keep, a look and a word to one's own site let nothing out, and a keep tells the keeper nothing.
#[test]
fn a_site_sees_what_it_kept_itself(rt: HostRuntime) -> Result<(), Fail> {
    let heap = rt.alloc();
    let browser = with_window(&rt, heap, three_sites(&rt, heap)?, 0, &[keep(7)])?;
    let browser = with_window(&rt, heap, browser, 1, &[keep(101), look()])?;
    let browser = with_window(&rt, heap, browser, 0, &[say(0, 0, 5), look()])?;
    let mut browser = with_window(&rt, heap, browser, 2, &[look()])?;
    for window in [1, 0, 1, 2, 2, 3] {
        browser = quiet_turn(&rt, browser, window, 0)?;
    }
    browser = check_told(&rt, browser, 0, &[5, 4, 0, 0])?;
    browser = check_told(&rt, browser, 1, &[101, 5, 0, 0])?;
    browser = check_told(&rt, browser, 2, &[7, 5, 0, 0])?;
    let _browser = check_told(&rt, browser, 3, &[5, 0, 0])?;
    Ok(())
}
