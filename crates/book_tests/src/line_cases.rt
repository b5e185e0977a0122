use book::read::read_line;
use book::record::{Event, Record};
use book::write::{LINE_ROOM, write_line};
use bounded::site::SiteNumber;
use bounded::text::Text;
use browser::values::{Out, What};
use std::process::Abort;
use std::test::Fail;
use words::scan::Scanner;

const GOOD: [&[u8]; 12] = [
    b"0 open 0 x2f 0 0\n",
    b"1 open 15 x 15 0\n",
    b"2 open 0 x2f - 3\n",
    b"12 turn 3 1 0 | 1 asks 0 x2f6c6f67 x00ff | 0 lets 1 200 x6f6b\n",
    b"13 turn 9 - 0\n",
    b"14 turn 2 1 0 | 1 says 0 4 x6869\n",
    b"15 turn 2 1 0 | 1 opens 0 x2f61\n",
    b"16 turn 2 1 4\n",
    b"17 turn 2 0 255 | 0 asks 1 x x\n",
    b"18 turn 4294967295 0 0 | 0 says 1 4294967295 x\n",
    b"18446744073709551615 turn 0 0 0 | 0 lets 1 65535 x\n",
    b"20 turn 0 0 0 | 0 lets 1 0 x0a0d207c\n",
];

// Nothing of these is a line.
const BAD: [&[u8]; 60] = [
    b"",
    b"\n",
    b" 0 turn 0 0 0\n",
    b"00 turn 0 0 0\n",
    b"01 turn 0 0 0\n",
    b"-1 turn 0 0 0\n",
    b"18446744073709551616 turn 0 0 0\n",
    b"99999999999999999999999 turn 0 0 0\n",
    b"turn 0 0 0\n",
    b"0  turn 0 0 0\n",
    b"0\tturn 0 0 0\n",
    b"0 Turn 0 0 0\n",
    b"0 turns 0 0 0\n",
    b"0 turn  0 0 0\n",
    b"0 turn 00 0 0\n",
    b"0 turn 4294967296 0 0\n",
    b"0 turn - 0 0\n",
    b"0 turn 0 16 0\n",
    b"0 turn 0 01 0\n",
    b"0 turn 0 -1 0\n",
    b"0 turn 0 --\n",
    b"0 turn 0 x 0\n",
    b"0 turn 0 0 256\n",
    b"0 turn 0 0 00\n",
    b"0 turn 0 0 -\n",
    b"0 turn 0 0 0 \n",
    b"0 turn 0 0 0\r\n",
    b"0 turn 0 0\n",
    b"0 turn 0 0 0",
    b"0 open 16 x2f 0 0\n",
    b"0 open 0 2f 0 0\n",
    b"0 open 0 x2 0 0\n",
    b"0 open 0 x2f2 0 0\n",
    b"0 open 0 x2F 0 0\n",
    b"0 open 0 X2f 0 0\n",
    b"0 open 0 x2g 0 0\n",
    b"0 open 0  x2f 0 0\n",
    b"0 open 0 0 0\n",
    b"0 open - x2f - 0\n",
    b"0 turn 0 0 0 |\n",
    b"0 turn 0 0 0 | \n",
    b"0 turn 0 0 0 | 0\n",
    b"0 turn 0 0 0 | 0 asks\n",
    b"0 turn 0 0 0 | 0 asks 1\n",
    b"0 turn 0 0 0 | 0 asks 1 x\n",
    b"0 turn 0 0 0 | 16 asks 1 x x\n",
    b"0 turn 0 0 0 | 0 asks 16 x x\n",
    b"0 turn 0 0 0 | - asks 1 x x\n",
    b"0 turn 0 0 0 | 0 ask 1 x x\n",
    b"0 turn 0 0 0 | 0 asks 1 x x x\n",
    b"0 turn 0 0 0 | 0 says 1 x\n",
    b"0 turn 0 0 0 | 0 says 1 4294967296 x\n",
    b"0 turn 0 0 0 | 0 says 1 04 x\n",
    b"0 turn 0 0 0 | 0 opens 1 2 x\n",
    b"0 turn 0 0 0 | 0 lets 1 x\n",
    b"0 turn 0 0 0 | 0 lets 1 65536 x\n",
    b"0 turn 0 0 0| 0 opens 1 x\n",
    b"0 turn 0 0 0 |0 opens 1 x\n",
    b"0 turn 0 0 0  | 0 opens 1 x\n",
    b"0 turn 0 0 0 | 0 opens 1 x | 0 opens 1 x | 0 opens 1 x\n",
];

// It is read to its end, and written as the same bytes.
fn check_back(rt: &impl Abort, text: &[u8]) -> Result<(), Fail> {
    let mut scanner = Scanner { rest: text };
    let line = read_line(&mut scanner).ok_or("a good line is refused")?;
    assert!(rt; scanner.rest.is_empty());
    let mut room = [0u8; LINE_ROOM];
    let n = write_line(&mut room, line.number, &line.record).ok_or("there is room for every line")?;
    assert!(rt; n <= LINE_ROOM);
    assert!(rt; &room[0..n] == text);
    Ok(())
}

#[test]
fn there_and_back(rt: HostRuntime) -> Result<(), Fail> {
    for text in GOOD {
        check_back(&rt, text)?;
    }
    Ok(())
}

#[test]
fn damaged(rt: HostRuntime) {
    for text in BAD {
        let mut scanner = Scanner { rest: text };
        assert!(rt; read_line(&mut scanner).is_none());
        assert!(rt; scanner.rest == text);
    }
}

// A line without its end is none, wherever it ends.
#[test]
fn cut(rt: HostRuntime) {
    for text in GOOD {
        for n in 0..text.len() {
            let mut scanner = Scanner { rest: &text[0..n] };
            assert!(rt; read_line(&mut scanner).is_none());
        }
    }
}

// Lines are read one after another, up to the first that can't be.
#[test]
fn one_by_one(rt: HostRuntime) -> Result<(), Fail> {
    let mut scanner = Scanner {
        rest: b"0 open 0 x2f 0 0\n1 turn 0 0 0\n2 turn\n3 turn 0 0 0\n",
    };
    for n in 0..2u64 {
        let line = read_line(&mut scanner).ok_or("a good line is refused")?;
        assert_eq!(rt; line.number, n);
    }
    assert!(rt; read_line(&mut scanner).is_none());
    assert!(rt; scanner.rest == b"2 turn\n3 turn 0 0 0\n".as_slice());
    Ok(())
}

fn site(n: u32) -> Result<SiteNumber, Fail> {
    Ok(SiteNumber::new(n).ok_or("no site's number")?)
}

fn text<const N: usize>(bytes: &[u8]) -> Result<Text<N>, Fail> {
    // By match: `ok_or` was tried, and the borrow checker does not cover it at a text of any room.
    match Text::new(bytes) {
        Some(t) => Ok(t),
        None => Err(Fail::new("too many bytes")),
    }
}

// What a site would forge a line with stays within its word.
#[test]
fn forged(rt: HostRuntime) -> Result<(), Fail> {
    let out = Out {
        from: site(1)?,
        to: site(0)?,
        what: What::Said {
            window: 4,
            what: text(b"\n9 turn 0 0 0\n")?,
        },
    };
    let record = Record {
        event: Event::Turn { window: 2 },
        site: Some(site(1)?),
        fault: 0,
        page: None,
        server: Some(out),
    };
    let mut room = [7u8; LINE_ROOM];
    let n = write_line(&mut room, 14, &record).ok_or("there is room for every line")?;
    assert!(rt; n <= LINE_ROOM);
    assert!(rt;
        &room[0..n] == b"14 turn 2 1 0 | 1 says 0 4 x0a39207475726e2030203020300a\n".as_slice()
    );
    Ok(())
}

// The longest line fits its room; a smaller room gets nothing.
#[test]
fn room(rt: HostRuntime) -> Result<(), Fail> {
    let out = Out {
        from: site(15)?,
        to: site(14)?,
        what: What::Let {
            code: 65535,
            body: text(&[255u8; 4096])?,
        },
    };
    let record = Record {
        event: Event::Opening {
            site: site(10)?,
            path: text(&[b'/'; 255])?,
        },
        site: Some(site(10)?),
        fault: 255,
        page: Some(out),
        server: Some(out),
    };
    let mut room = [7u8; LINE_ROOM];
    assert_eq!(rt; write_line(&mut room, u64::MAX, &record), Some(16_974));
    assert_eq!(rt; room[16_974], 7);
    let mut small = [7u8; 16_999];
    assert_eq!(rt; write_line(&mut small, 0, &record), None);
    assert!(rt; small == [7u8; 16_999]);
    Ok(())
}
