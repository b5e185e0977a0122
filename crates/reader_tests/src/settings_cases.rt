// Settings.
use settings::lines::TurnLine;
use settings::write::write_settings;
use settings::{Fault, Refusal, read_settings};
use std::process::Abort;
use std::test::Fail;

const TEXT: &[u8] =
    b"site https://a.example/\nopen https://b.example:8080/x\nopen https://a.example:443/\nopen https://b.example:8080/y\nturn 0\n999999999 times all\nturn 15\n";

fn refused(rt: &impl Abort, text: &[u8], fault: Fault, line: usize) -> Result<(), Fail> {
    let Err(refusal) = read_settings(text) else {
        return Err(Fail::new("bad settings are read"));
    };
    assert_eq!(rt; refusal, Refusal { fault, line });
    Ok(())
}

// Sites are numbered as they are first named, and the turns come line by line.
#[test]
fn good(rt: HostRuntime) -> Result<(), Fail> {
    let Ok(s) = read_settings(TEXT) else {
        return Err(Fail::new("good settings are refused"));
    };
    let opens: [(usize, &[u8]); 3] = [(1, b"/x"), (0, b"/"), (1, b"/y")];
    assert_eq!(rt; s.opens.as_slice().len(), 3);
    for (o, (site, path)) in s.opens.as_slice().iter().zip(opens) {
        assert!(rt; o.site == site);
        assert!(rt; o.path == path);
    }
    let b = s.sites.get(1).ok_or("a site is missing")?;
    assert!(rt; b.host == b"b.example".as_slice());
    assert!(rt; b.port == 8080);
    assert!(rt; s.sites.get(2).is_none());
    let mut turns = s.turns;
    let Some(TurnLine::Window(0)) = turns.next() else {
        return Err(Fail::new("turn 0 is missing"));
    };
    let Some(TurnLine::Rounds(999_999_999)) = turns.next() else {
        return Err(Fail::new("the rounds are missing"));
    };
    let Some(TurnLine::Window(15)) = turns.next() else {
        return Err(Fail::new("turn 15 is missing"));
    };
    assert!(rt; turns.next().is_none());
    Ok(())
}

// A text that is cut is read if it is cut after a newline; else the last line is the fault.
#[test]
fn cut(rt: HostRuntime) -> Result<(), Fail> {
    for n in 0..TEXT.len() {
        let front = &TEXT[0..n];
        if front.is_empty() || front.ends_with(b"\n") {
            assert!(rt; read_settings(front).is_ok());
        } else {
            let line = front.split(|b| *b == b'\n').count();
            refused(&rt, front, Fault::Unreadable, line)?;
        }
    }
    Ok(())
}

#[test]
fn bad(rt: HostRuntime) -> Result<(), Fail> {
    let texts: [(&[u8], usize); 24] = [
        (b"\n", 1),
        (b"turn 1\n\n", 2),
        (b"turn 1\r\n", 1),
        (b" turn 1\n", 1),
        (b"turn  1\n", 1),
        (b"turn 1 \n", 1),
        (b"turn\n", 1),
        (b"turn \n", 1),
        (b"turn 01\n", 1),
        (b"turn 00\n", 1),
        (b"turn -1\n", 1),
        (b"turn 1000000000\n", 1),
        (b"Turn 1\n", 1),
        (b"times all\n", 1),
        (b" times all\n", 1),
        (b"1 times  all\n", 1),
        (b"1 times all.\n", 1),
        (b"01 times all\n", 1),
        (b"open\n", 1),
        (b"open https://a\n", 1),
        (b"open  https://a/\n", 1),
        (b"turn 1\nopen https://a/\n", 2),
        (b"turn 1\nsite https://a/\n", 2),
        (b"site https://a/\nsite https://A/\n", 2),
    ];
    for (text, line) in texts {
        refused(&rt, text, Fault::Unreadable, line)?;
    }
    Ok(())
}

// Sixteen of each are taken, and one more is not; a line that can't be read is that first.
#[test]
fn many(rt: HostRuntime) -> Result<(), Fail> {
    let mut sites = b"".to_vec(rt.alloc())?;
    let mut opens = b"".to_vec(rt.alloc())?;
    for letter in b'a'..=b'p' {
        sites.extend_from_slice(b"site https://a")?;
        sites.push(letter)?;
        sites.extend_from_slice(b"/\n")?;
        opens.extend_from_slice(b"open https://a/\n")?;
    }
    assert!(rt; read_settings(sites.as_slice()).is_ok());
    assert!(rt; read_settings(opens.as_slice()).is_ok());
    sites.extend_from_slice(b"site https://ap:443/\n")?;
    assert!(rt; read_settings(sites.as_slice()).is_ok());
    sites.extend_from_slice(b"site https://aq/\nturn x\n")?;
    refused(&rt, sites.as_slice(), Fault::TooMany, 18)?;
    opens.extend_from_slice(b"site https://a/\nopen https://a\n")?;
    refused(&rt, opens.as_slice(), Fault::Unreadable, 18)?;
    let mut opens = opens;
    opens.truncate(16 * 16);
    opens.extend_from_slice(b"open https://a/\n")?;
    refused(&rt, opens.as_slice(), Fault::TooMany, 17)
}

// What is written names the sites first; a buffer that is too small gets nothing.
#[test]
fn written(rt: HostRuntime) -> Result<(), Fail> {
    let Ok(s) = read_settings(
        b"open https://b:1/x\nsite https://a:443/y\nopen https://b:1/\nturn 0\n7 times all\n",
    ) else {
        return Err(Fail::new("good settings are refused"));
    };
    let text =
        b"site https://b:1/\nsite https://a/\nopen https://b:1/x\nopen https://b:1/\nturn 0\n7 times all\n";
    let mut short = [b'.'; 89];
    assert!(rt; write_settings(&mut short, s).is_none());
    assert!(rt; short == [b'.'; 89]);
    let mut out = [b'.'; 90];
    assert_eq!(rt; write_settings(&mut out, s), Some(90));
    assert!(rt; out == *text);
    Ok(())
}
