use crate::sites::{BANK, SHOP};
use addresses::Site;
use frames::{HEAD_ROOM, Head, Kind, read_head, write_head};
use std::process::Abort;
use std::test::Fail;

fn check_written(rt: &impl Abort, head: Head<'_>, text: &[u8]) -> Result<(), Fail> {
    let mut room = [0u8; HEAD_ROOM];
    let n = write_head(&mut room, head).ok_or("a good head is refused")?;
    assert!(rt; n <= HEAD_ROOM);
    assert!(rt; &room[0..n] == text);
    Ok(())
}

fn head(kind: Kind, site: Site<'_>, len: u32) -> Head<'_> {
    Head { kind, site, len }
}

#[test]
fn written(rt: HostRuntime) -> Result<(), Fail> {
    check_written(
        &rt,
        head(Kind::Request, BANK, 123),
        b"request https://bank.example 123\n",
    )?;
    check_written(
        &rt,
        head(Kind::Answer, SHOP, 2048),
        b"answer https://shop.example:8443 2048\n",
    )?;
    check_written(
        &rt,
        head(Kind::Answer, BANK, 0),
        b"answer https://bank.example 0\n",
    )?;
    check_written(
        &rt,
        head(Kind::Request, SHOP, 999_999_999),
        b"request https://shop.example:8443 999999999\n",
    )
}

// What is no site or too long is not written, and neither is what does not fit.
#[test]
fn unwritten(rt: HostRuntime) {
    let nobody = Site {
        host: b"no host",
        port: 443,
    };
    let mut room = [7u8; HEAD_ROOM];
    assert_eq!(rt; write_head(&mut room, head(Kind::Request, nobody, 1)), None);
    assert_eq!(rt;
        write_head(&mut room, head(Kind::Request, BANK, 1_000_000_000)),
        None
    );
    assert!(rt; room == [7u8; HEAD_ROOM]);
    let mut small = [7u8; 30];
    assert_eq!(rt; write_head(&mut small, head(Kind::Request, BANK, 1)), None);
    assert!(rt; small == [7u8; 30]);
    assert_eq!(rt;
        write_head(&mut small, head(Kind::Answer, BANK, 1)),
        Some(30)
    );
    assert!(rt; small == *b"answer https://bank.example 1\n");
}

#[test]
fn read(rt: HostRuntime) -> Result<(), Fail> {
    let a = read_head(b"request https://bank.example 123\n").ok_or("a good head is refused")?;
    let Kind::Request = a.kind else {
        return Err(Fail::new("a request"));
    };
    assert!(rt; a.site == BANK);
    assert_eq!(rt; a.len, 123);
    let b = read_head(b"answer https://shop.example:8443 0\n").ok_or("a good head is refused")?;
    let Kind::Answer = b.kind else {
        return Err(Fail::new("an answer"));
    };
    assert!(rt; b.site == SHOP);
    assert_eq!(rt; b.len, 0);
    let c = read_head(b"answer https://bank.example:443 999999999\n").ok_or(
        "a written 443 is the same site",
    )?;
    assert!(rt; c.site == BANK);
    Ok(())
}

const BAD: [&[u8]; 24] = [
    b"",
    b"\n",
    b"request\n",
    b"request https://bank.example\n",
    b"request https://bank.example \n",
    b"request https://bank.example 1",
    b"request https://bank.example 1\r\n",
    b"request https://bank.example 1 \n",
    b"request https://bank.example 1\n\n",
    b"request https://bank.example  1\n",
    b"request https://bank.example\t1\n",
    b"request  https://bank.example 1\n",
    b" request https://bank.example 1\n",
    b"Request https://bank.example 1\n",
    b"requests https://bank.example 1\n",
    b"reply https://bank.example 1\n",
    b"request https://bank.example 01\n",
    b"request https://bank.example -1\n",
    b"request https://bank.example 1000000000\n",
    b"request https://bank.example 99999999999999999999\n",
    b"request http://bank.example 1\n",
    b"request https://bank.example/ 1\n",
    b"request https://Bank.example 1\n",
    b"request https://bank.example:0 1\n",
];

#[test]
fn damaged(rt: HostRuntime) {
    for line in BAD {
        assert!(rt; read_head(line).is_none());
    }
}

#[test]
fn cut(rt: HostRuntime) {
    let line: &[u8] = b"answer https://shop.example:8443 2048\n";
    for n in 0..line.len() {
        assert!(rt; read_head(&line[0..n]).is_none());
    }
}
