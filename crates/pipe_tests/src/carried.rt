use crate::sites::table;
use pipes::carrier::Pipes;
use pipes::fault::{Fault, Lost};
use servers::carrier::Carrier;
use std::io::Cursor;
use std::process::Abort;

// Two answers, one that is too long for the room, and one after it.
#[test]
fn good(rt: HostRuntime) {
    let answers: &[u8] =
        b"answer https://bank.example 2\nokanswer https://shop.example:8443 0\nanswer https://bank.example:443 9\n012345678answer https://shop.example:8443 4\n\x00\n\xff ";
    let mut pipes = Pipes {
        table: table(&rt),
        input: answers,
        output: Vec::new(rt.alloc()),
        lost: None,
    };
    let mut room = [7u8; 4];
    assert_eq!(rt; pipes.exchange(0, b"a\nb", &mut room), 2);
    assert!(rt; room == *b"ok\x07\x07");
    assert_eq!(rt; pipes.exchange(1, b"", &mut room), 0);
    assert_eq!(rt; pipes.exchange(0, b"c", &mut room), 0);
    assert_eq!(rt; pipes.exchange(1, b"d", &mut room), 4);
    assert!(rt; room == *b"\x00\n\xff ");
    assert_eq!(rt; pipes.lost, None);
    assert!(rt; !pipes.is_broken());
    assert!(rt;
        pipes.output.as_slice()
            == b"request https://bank.example 3\na\nbrequest https://shop.example:8443 0\nrequest https://bank.example 1\ncrequest https://shop.example:8443 1\nd".as_slice()
    );
}

// After a fault nothing is sent, and nothing is read.
fn check_broken(rt: &(impl Abort + AllocGlobal), answers: &[u8], fault: Fault) {
    let mut pipes = Pipes {
        table: table(rt),
        input: answers,
        output: Vec::new(rt.alloc()),
        lost: None,
    };
    let mut room = [7u8; 64];
    assert_eq!(rt; pipes.exchange(0, b"a", &mut room), 0);
    assert_eq!(rt; pipes.lost, Some(Lost::Broken(fault)));
    assert!(rt; pipes.is_broken());
    let left = pipes.input.len();
    assert_eq!(rt; pipes.exchange(0, b"b", &mut room), 0);
    assert_eq!(rt; pipes.exchange(1, b"c", &mut room), 0);
    assert_eq!(rt; pipes.lost, Some(Lost::Broken(fault)));
    assert_eq!(rt; pipes.input.len(), left);
    assert!(rt; pipes.output.as_slice() == b"request https://bank.example 1\na".as_slice());
}

#[test]
fn of_another(rt: HostRuntime) {
    check_broken(
        &rt,
        b"answer https://shop.example:8443 2\nokanswer https://bank.example 2\nok",
        Fault::Site,
    );
    check_broken(&rt, b"answer https://bank.example:8443 2\nok", Fault::Site);
    check_broken(&rt, b"answer https://bank.example.evil 2\nok", Fault::Site);
}

const BAD: [&[u8]; 7] = [
    b"\nanswer https://bank.example 2\nok",
    b"request https://bank.example 2\nok",
    b"answer bank.example 2\nok",
    b"answer https://bank.example 02\nok",
    b"answer https://bank.example 1000000000\nok",
    b"answer https://bank.example 2 \nok",
    b"HTTP/1.1 200 \r\n",
];

#[test]
fn damaged(rt: HostRuntime) {
    for answers in BAD {
        check_broken(&rt, answers, Fault::Head);
    }
    // a head that does not end within its bound
    check_broken(&rt, &[b'a'; 600], Fault::Head);
}

fn check_ended(rt: &(impl Abort + AllocGlobal), answers: &[u8]) {
    let mut pipes = Pipes {
        table: table(rt),
        input: answers,
        output: Vec::new(rt.alloc()),
        lost: None,
    };
    let mut room = [7u8; 8];
    assert_eq!(rt; pipes.exchange(1, b"a", &mut room), 0);
    assert_eq!(rt; pipes.lost, Some(Lost::Ended));
    assert!(rt; !pipes.is_broken());
    assert_eq!(rt; pipes.exchange(1, b"b", &mut room), 0);
    assert!(rt; pipes.output.as_slice() == b"request https://shop.example:8443 1\na".as_slice());
}

// The end of the input is no fault, wherever it comes; also where a frame that is too long is passed over.
#[test]
fn cut(rt: HostRuntime) {
    let answer: &[u8] = b"answer https://shop.example:8443 5\n01234";
    for n in 0..answer.len() {
        check_ended(&rt, &answer[0..n]);
    }
    check_ended(&rt, b"answer https://shop.example:8443 9\n01234567");
    check_ended(&rt, b"answer https://shop.example:8443 3000\n01234567");
}

// Nothing is sent to a site that has no number.
#[test]
fn unknown(rt: HostRuntime) {
    let answers: &[u8] = b"answer https://bank.example 2\nok";
    let mut pipes = Pipes {
        table: table(&rt),
        input: answers,
        output: Vec::new(rt.alloc()),
        lost: None,
    };
    for site in [2u8, 15, 16, 255] {
        let mut room = [7u8; 8];
        assert_eq!(rt; pipes.exchange(site, b"a", &mut room), 0);
    }
    assert_eq!(rt; pipes.lost, None);
    assert!(rt; pipes.output.is_empty());
    let mut room = [7u8; 8];
    assert_eq!(rt; pipes.exchange(0, b"a", &mut room), 2);
}

// An output that is full.
#[test]
fn unwritten(rt: HostRuntime) {
    let answers: &[u8] = b"answer https://bank.example 2\nok";
    let mut small = [0u8; 31];
    let mut pipes = Pipes {
        table: table(&rt),
        input: answers,
        output: Cursor::new(&mut small[..]),
        lost: None,
    };
    let mut room = [7u8; 8];
    assert_eq!(rt; pipes.exchange(0, b"a", &mut room), 0);
    assert_eq!(rt; pipes.lost, Some(Lost::Broken(Fault::Output)));
    assert!(rt; pipes.is_broken());
    assert_eq!(rt; pipes.input.len(), answers.len());
}
