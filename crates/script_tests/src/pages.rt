// Page files, right and wrong.
use scripts::{Call, Script, Step, Unreadable};
use std::process::Abort;
use std::test::Fail;

const HEAD: [u8; 8] = [b'P', b'A', b'G', b'E', b' ', b'1', 0, 1];

// Why a page file cannot be read, and the number of the fault.
fn fault(page: &[u8]) -> Option<(Unreadable, u8)> {
    match Script::read(page) {
        Ok(_) => None,
        Err(why) => Some((why, why.number())),
    }
}

// A page file of one step.
fn page_of(step: [u8; 8]) -> [u8; 16] {
    let [p, a, g, e, space, one, high, low] = HEAD;
    let [k, x, y, z, n3, n2, n1, n0] = step;
    [
        p, a, g, e, space, one, high, low, k, x, y, z, n3, n2, n1, n0,
    ]
}

#[test]
fn a_file_that_is_no_page_has_fault_three(rt: HostRuntime) {
    let cases: [(&[u8], Unreadable); 9] = [
        (b"", Unreadable::OtherKind),
        (b"PAGE", Unreadable::OtherKind),
        (b"PAGE 2\x00\x00", Unreadable::OtherKind),
        (b"PAGE 1", Unreadable::Cut),
        (b"PAGE 1\x00", Unreadable::Cut),
        (b"PAGE 1\x07\xd1", Unreadable::TooLong),
        (b"PAGE 1\xff\xff", Unreadable::TooLong),
        (
            b"PAGE 1\x00\x01\x00\x00\x00\x00\x00\x00\x00",
            Unreadable::Cut,
        ),
        (b"PAGE 1\x00\x00\x00", Unreadable::LeftOver),
    ];
    for (page, why) in cases {
        assert_eq!(rt; fault(page), Some((why, 3)));
    }
    assert_eq!(rt; fault(b"PAGE 1\x00\x00"), None);
}

#[test]
fn an_unknown_step_has_fault_three(rt: HostRuntime) {
    let unknown = Some((Unreadable::UnknownStep, 3));
    assert_eq!(rt; fault(&page_of([11, 0, 0, 0, 0, 0, 0, 0])), unknown);
    assert_eq!(rt; fault(&page_of([255, 0, 0, 0, 0, 0, 0, 0])), unknown);
    assert_eq!(rt; fault(&page_of([10, 0, 0, 0, 0, 0, 0, 6])), unknown);
    assert_eq!(rt; fault(&page_of([10, 0, 0, 0, 1, 0, 0, 5])), unknown);
    assert_eq!(rt; fault(&page_of([10, 0, 0, 0, 0, 0, 0, 5])), None);
}

// The page file of what was read from one.
fn again(rt: &impl Abort, step: [u8; 8]) -> Result<[u8; 16], Fail> {
    let script = Script::read(&page_of(step)).ok().ok_or("no page")?;
    let mut page = [0xee; 16];
    assert_eq!(rt; script.write(&mut page), Some(16));
    Ok(page)
}

#[test]
fn unused_places_are_ignored(rt: HostRuntime) -> Result<(), Fail> {
    let cases: [([u8; 8], [u8; 8]); 6] = [
        ([0, 1, 9, 9, 1, 2, 3, 4], [0, 1, 0, 0, 1, 2, 3, 4]),
        ([2, 1, 2, 3, 9, 9, 9, 9], [2, 1, 2, 3, 0, 0, 0, 0]),
        ([6, 9, 9, 9, 0, 0, 1, 2], [6, 0, 0, 0, 0, 0, 1, 2]),
        ([8, 1, 2, 9, 9, 9, 9, 9], [8, 1, 2, 0, 0, 0, 0, 0]),
        ([10, 5, 9, 9, 0, 0, 0, 3], [10, 5, 0, 0, 0, 0, 0, 3]),
        ([10, 5, 6, 7, 0, 0, 0, 1], [10, 5, 6, 7, 0, 0, 0, 1]),
    ];
    for (step, expected) in cases {
        assert_eq!(rt; again(&rt, step)?, page_of(expected));
    }
    Ok(())
}

#[test]
fn a_script_has_at_most_two_thousand_steps(rt: HostRuntime) -> Result<(), Fail> {
    let step = Step::Wait(Call::Look);
    assert_eq!(rt; Script::new(&[step; 2001]).is_none(), true);
    let script = Script::new(&[step; 2000]).ok_or("too long")?;
    let mut page = [0u8; 16_008];
    assert_eq!(rt; script.write(&mut page[0..16_007]), None);
    assert_eq!(rt; page[0], 0);
    assert_eq!(rt; script.write(&mut page), Some(16_008));
    let read = Script::read(&page).ok().ok_or("no page")?;
    assert_eq!(rt; read.steps().len(), 2000);
    assert_eq!(rt; Script::empty().steps().len(), 0);
    Ok(())
}
