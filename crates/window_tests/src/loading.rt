// The script of a page.
use scripts::{Call, Script, Step, Unreadable};
use std::test::Fail;
use windows::script_of;

#[test]
fn a_page_that_can_be_read_gives_its_steps(rt: HostRuntime) -> Result<(), Fail> {
    let Some(script) = Script::new(&[Step::Wait(Call::Look), Step::Jump(0)]) else {
        return Err(Fail::new("too many steps"));
    };
    let mut page = [0; 24];
    let size = script.write(&mut page).ok_or("no room")?;
    assert_eq!(rt; size, 24);
    let (read, fault) = script_of(Some(&page));
    assert!(rt; read == script);
    assert_eq!(rt; fault, None);
    Ok(())
}

#[test]
fn a_page_that_cannot_be_read_gives_the_script_that_does_nothing(rt: HostRuntime) {
    let idle = [Step::Wait(Call::Nothing), Step::Jump(0)];
    let (read, fault) = script_of(Some(b"PAGE 1\x00"));
    assert!(rt; read.steps() == &idle[..]);
    assert_eq!(rt; fault, Some(Unreadable::Cut));
    let (read, fault) = script_of(None);
    assert!(rt; read.steps() == &idle[..]);
    assert_eq!(rt; fault, None);
}
