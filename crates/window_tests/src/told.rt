// What a window is told, in which order, and what becomes of the words that wait for it.
use bounded::site::SiteNumber;
use bounded::text::Text;
use machine::{Act, Outcome, Span, Told};
use scripts::{Call, Script, Step};
use std::process::Abort;
use std::test::Fail;
use windows::{Window, Word};

// A script that says what it is told: the kind as a window's number, the site as a site's, and the bytes.
fn echo() -> [Step; 3] {
    [
        Step::Move(5, 1),
        Step::Wait(Call::Say {
            window: 0,
            site: 2,
            bytes: 4,
        }),
        Step::Jump(0),
    ]
}

fn said(kind: u32, site: u32, len: u32) -> Outcome {
    Outcome::Did(Act::Say {
        window: kind,
        site,
        bytes: Span { from: 0, len },
    })
}

fn word(from: u32, bytes: &[u8]) -> Result<Word, Fail> {
    let Some(from) = SiteNumber::new(from) else {
        return Err(Fail::new("no site"));
    };
    let Some(text) = Text::new(bytes) else {
        return Err(Fail::new("too long"));
    };
    Ok(Word { from, text })
}

// A window of a site, whose page is /p.
fn window(site: u32, steps: &[Step]) -> Result<Window, Fail> {
    let Some(script) = Script::new(steps) else {
        return Err(Fail::new("too many steps"));
    };
    let Some(path) = Text::new(b"/p") else {
        return Err(Fail::new("too long"));
    };
    let Some(site) = SiteNumber::new(site) else {
        return Err(Fail::new("no site"));
    };
    Ok(Window::new(site, &path, script))
}

// The window's turn: it says this, with these bytes.
fn check_told(
    rt: &impl Abort,
    window: &mut Window,
    kind: u32,
    site: u32,
    bytes: &[u8],
) -> Result<(), Fail> {
    let len = u32::try_from(bytes.len())?;
    assert_eq!(rt; window.step(16), said(kind, site, len));
    assert!(rt; window.bytes(Span { from: 0, len }) == bytes);
    Ok(())
}

#[test]
fn a_window_is_first_told_that_its_page_has_begun(rt: HostRuntime) -> Result<(), Fail> {
    let mut w = window(3, &echo())?;
    assert_eq!(rt; w.site().number(), 3);
    check_told(&rt, &mut w, 1, 0, b"/p")?;
    check_told(&rt, &mut w, 0, 0, b"")
}

#[test]
fn its_own_doing_comes_before_words_and_words_in_order(rt: HostRuntime) -> Result<(), Fail> {
    let mut w = window(3, &echo())?;
    w.hear(3, &word(5, b"first")?);
    w.hear(3, &word(15, b"second")?);
    check_told(&rt, &mut w, 1, 0, b"/p")?;
    w.tell(Told::Kept, b"mine");
    check_told(&rt, &mut w, 5, 0, b"mine")?;
    check_told(&rt, &mut w, 4, 5, b"first")?;
    let mut w = w.owns(Told::Answer { site: 2, code: 404 }, b"not found");
    check_told(&rt, &mut w, 2, 2, b"not found")?;
    check_told(&rt, &mut w, 4, 15, b"second")?;
    w.tell(Told::Barred { site: 7 }, b"never told");
    check_told(&rt, &mut w, 3, 7, b"")?;
    check_told(&rt, &mut w, 0, 0, b"")
}

#[test]
fn eight_words_wait_and_the_ninth_is_dropped(rt: HostRuntime) -> Result<(), Fail> {
    let mut w = window(0, &echo())?;
    for i in 0..9u8 {
        let heard = w.hears(0, &word(1, &[i])?);
        assert_eq!(rt; heard == w, i == 8);
        w = heard;
    }
    check_told(&rt, &mut w, 1, 0, b"/p")?;
    for i in 0..8u8 {
        check_told(&rt, &mut w, 4, 1, &[i])?;
    }
    check_told(&rt, &mut w, 0, 0, b"")
}

#[test]
fn only_a_window_of_the_named_site_hears(rt: HostRuntime) -> Result<(), Fail> {
    let w = window(0, &echo())?;
    let message = word(4, b"hi")?;
    // 256 is not 0: the number is not cut to a byte
    for (named, hears) in [
        (0, true),
        (4, false),
        (1, false),
        (256, false),
        (0x1_0000, false),
    ] {
        assert_eq!(rt; w.hears(named, &message) == w, !hears);
    }
    Ok(())
}

// A word is taken by a script that is not told it.
fn check_lost(rt: &impl Abort, steps: &[Step], outcome: Outcome) -> Result<(), Fail> {
    let mut without = window(2, steps)?;
    let _begun = without.step(16);
    let mut with = without.hears(2, &word(1, b"lost")?);
    assert!(rt; with != without);
    assert_eq!(rt; with.step(16), outcome);
    assert_eq!(rt; without.step(16), outcome);
    assert!(rt; with == without);
    Ok(())
}

#[test]
fn a_word_is_taken_while_the_script_runs_on(rt: HostRuntime) -> Result<(), Fail> {
    check_lost(&rt, &[Step::Jump(0)], Outcome::Paused)
}

#[test]
fn a_word_is_taken_once_the_script_has_ended(rt: HostRuntime) -> Result<(), Fail> {
    check_lost(&rt, &[], Outcome::Idle)
}

#[test]
fn more_than_4096_bytes_are_not_told(rt: HostRuntime) -> Result<(), Fail> {
    let w = window(1, &echo())?;
    let bytes = [b'x'; 4097];
    assert!(rt; w.owns(Told::Kept, &bytes) == w);
    assert!(rt; w.owns(Told::Kept, &bytes[0..4096]) != w);
    Ok(())
}

#[test]
fn a_site_without_a_number_is_not_spoken_to(rt: HostRuntime) -> Result<(), Fail> {
    let mut w = window(1, &echo())?;
    let _begun = w.step(16);
    w.hear(1, &word(9, b"hi")?);
    // with nine sites, site 9 has no number
    assert_eq!(rt; w.step(9).fault(), 5);
    Ok(())
}

#[test]
fn a_span_is_cut_at_the_end_of_the_memory(rt: HostRuntime) -> Result<(), Fail> {
    let w = window(1, &echo())?;
    for (from, len, size) in [
        (0, 4096, 4096),
        (4095, 2, 1),
        (4096, 9, 0),
        (0xffff_ffff, 0xffff_ffff, 0),
    ] {
        assert_eq!(rt; w.bytes(Span { from, len }).len(), size);
    }
    Ok(())
}
