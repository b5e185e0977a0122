ghost use Rattle.std.specs.Prelude.{false};

use crate::sites::table;
use pipes::fault::{Fault, Lost};
use pipes::serve::serve;
use servers::carrier::Carrier;
use std::process::Abort;

// Servers that answer with their number and the length of the request, and count requests.
#[derive(Drop)]
struct Counting {
    count: u8,
}

impl Carrier for Counting {
    ghost carries = { λ _ _ _ _ _ _. Unit {0} };

    ghost broken = { λ _. false };

    fn exchange(&mut self, site: u8, request: &[u8], room: &mut [u8]) -> usize {
        self.count = self.count.wrapping_add(1);
        if room.len() < 2 || request.len() > 9 {
            return 0;
        }
        room[0] = b'0' + site % 16;
        room[1] = b'0' + request.len() as u8;
        2
    }

    fn is_broken(&self) -> bool {
        false
    }
}

fn check_served(
    rt: &(impl Abort + AllocGlobal),
    requests: &[u8],
    answers: &[u8],
    count: u8,
    lost: Lost,
) {
    let mut input = requests;
    let mut output = Vec::new(rt.alloc());
    let mut servers = Counting { count: 0 };
    let mut request = [0u8; 8];
    let mut answer = [0u8; 8];
    assert_eq!(rt;
        serve(
            &mut input,
            &mut output,
            &table(rt),
            &mut servers,
            &mut request,
            &mut answer,
        ),
        lost
    );
    assert_eq!(rt; servers.count, count);
    assert!(rt; output.as_slice() == answers);
}

#[test]
fn good(rt: HostRuntime) {
    check_served(&rt, b"", b"", 0, Lost::Ended);
    check_served(
        &rt,
        b"request https://bank.example 3\nabcrequest https://shop.example:8443 0\nrequest https://bank.example:443 8\n01234567",
        b"answer https://bank.example 2\n03answer https://shop.example:8443 2\n10answer https://bank.example 2\n08",
        3,
        Lost::Ended,
    );
}

// A site that has no number, and a request that is too long, are answered by no bytes, and no server is asked.
#[test]
fn unanswered(rt: HostRuntime) {
    check_served(
        &rt,
        b"request https://nobody.example 3\nabcrequest https://bank.example 9\n012345678request https://bank.example 1\na",
        b"answer https://nobody.example 0\nanswer https://bank.example 0\nanswer https://bank.example 2\n01",
        1,
        Lost::Ended,
    );
}

#[test]
fn damaged(rt: HostRuntime) {
    check_served(&rt, b"\n", b"", 0, Lost::Broken(Fault::Head));
    check_served(
        &rt,
        b"answer https://bank.example 1\na",
        b"",
        0,
        Lost::Broken(Fault::Head),
    );
    check_served(
        &rt,
        b"request https://bank.example 1\nabrequest https://bank.example 1\na",
        b"answer https://bank.example 2\n01",
        1,
        Lost::Broken(Fault::Head),
    );
}

#[test]
fn cut(rt: HostRuntime) {
    let request: &[u8] = b"request https://bank.example 3\nabc";
    for n in 0..request.len() {
        check_served(&rt, &request[0..n], b"", 0, Lost::Ended);
    }
}
