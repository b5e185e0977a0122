// Servers that count, fault, loop, and answer any bytes.
use addresses::Site;
use script_servers::family::ScriptServers;
use scripts::{Call, Script, Step};
use servers::Servers;
use std::process::Abort;
use std::test::Fail;

fn asking() -> &'static [u8] {
    b"POST /a HTTP/1.1\r\nhost: b.example:8443\r\norigin: https://a.example\r\ncontent-length: 2\r\n\r\nhi"
}

// The page file of these steps is the script of a site's server.
fn add(
    rt: &impl Abort,
    family: &mut ScriptServers<'_>,
    site: u8,
    steps: &[Step],
) -> Result<(), Fail> {
    let Some(script) = Script::new(steps) else {
        assert!(rt; false);
        return Ok(());
    };
    let mut page = [0u8; 256];
    let Some(n) = script.write(&mut page) else {
        assert!(rt; false);
        return Ok(());
    };
    assert!(rt; n <= 256);
    let there = family.add(site, &page[0..n])?;
    assert!(rt; there);
    Ok(())
}

// A site's server answers a request by these bytes.
fn answers(
    rt: &impl Abort,
    family: &mut ScriptServers<'_>,
    site: u8,
    request: &[u8],
    answer: &[u8],
) {
    let mut room = [0u8; 512];
    let n = family.exchange(site, request, &mut room);
    assert!(rt; n <= 512);
    assert!(rt; &room[0..n] == answer);
}

// Counts its visitors: the answer's body is a digit that rises.
fn counter() -> [Step; 12] {
    [
        Step::Constant(8, 6),
        Step::Constant(9, 200),
        Step::Constant(10, 16),
        Step::Constant(11, 100),
        Step::Constant(12, 1),
        Step::Constant(14, 65),
        Step::Constant(20, 1),
        Step::Constant(21, 48),
        Step::Sum(21, 21, 20),
        Step::Store(11, 21),
        Step::Wait(Call::Nothing),
        Step::Jump(8),
    ]
}

// Allows the asking site, and answers with the body; the path is its token.
fn echo() -> [Step; 9] {
    [
        Step::Constant(8, 6),
        Step::Constant(9, 404),
        Step::Move(10, 2),
        Step::Constant(11, 0),
        Step::Move(12, 1),
        Step::Move(13, 1),
        Step::Move(14, 3),
        Step::Wait(Call::Nothing),
        Step::Jump(0),
    ]
}

#[test]
fn a_server_counts_its_visitors(rt: HostRuntime) -> Result<(), Fail> {
    let sites = [Site {
        host: b"a.example",
        port: 443,
    }];
    let mut family = ScriptServers::new(rt.alloc(), &sites)?;
    add(&rt, &mut family, 1, &counter())?;
    answers(
        &rt,
        &mut family,
        1,
        asking(),
        b"HTTP/1.1 200 \r\ncontent-length: 1\r\n\r\n1",
    );
    answers(
        &rt,
        &mut family,
        1,
        asking(),
        b"HTTP/1.1 200 \r\ncontent-length: 1\r\n\r\n2",
    );
    // a request that can't be read is no visitor
    answers(&rt, &mut family, 1, b"GET /a HTTP/1.1\r\n\r\n", b"");
    answers(
        &rt,
        &mut family,
        1,
        asking(),
        b"HTTP/1.1 200 \r\ncontent-length: 1\r\n\r\n3",
    );
    Ok(())
}

#[test]
fn what_is_told_can_be_answered(rt: HostRuntime) -> Result<(), Fail> {
    let sites = [
        Site {
            host: b"b.example",
            port: 8443,
        },
        Site {
            host: b"a.example",
            port: 443,
        },
    ];
    let mut family = ScriptServers::new(rt.alloc(), &sites)?;
    add(&rt, &mut family, 0, &echo())?;
    answers(
        &rt,
        &mut family,
        0,
        asking(),
        b"HTTP/1.1 404 \r\nset-cookie: /a\r\naccess-control-allow-origin: https://a.example\r\ncontent-length: 2\r\n\r\nhi",
    );
    // nobody asks, and the answer allows nobody
    answers(
        &rt,
        &mut family,
        0,
        b"POST /b HTTP/1.1\r\nhost: b.example:8443\r\ncontent-length: 0\r\n\r\n",
        b"HTTP/1.1 404 \r\nset-cookie: /b\r\ncontent-length: 0\r\n\r\n",
    );
    Ok(())
}

#[test]
fn one_server_faults_and_the_others_go_on(rt: HostRuntime) -> Result<(), Fail> {
    let sites = [Site {
        host: b"a.example",
        port: 443,
    }];
    let mut family = ScriptServers::new(rt.alloc(), &sites)?;
    add(&rt, &mut family, 1, &counter())?;
    add(
        &rt,
        &mut family,
        2,
        &[
            Step::Constant(5, 4096),
            Step::Load(6, 5),
            Step::Wait(Call::Nothing),
        ],
    )?;
    add(&rt, &mut family, 3, &[Step::Jump(0)])?;
    add(
        &rt,
        &mut family,
        4,
        &[Step::Constant(8, 6), Step::Wait(Call::Look), Step::Jump(1)],
    )?;
    let digits: [&[u8]; 3] = [
        b"HTTP/1.1 200 \r\ncontent-length: 1\r\n\r\n1",
        b"HTTP/1.1 200 \r\ncontent-length: 1\r\n\r\n2",
        b"HTTP/1.1 200 \r\ncontent-length: 1\r\n\r\n3",
    ];
    for answer in digits {
        // a fault, 10,000 steps without a wait, another wait, no script, no such site
        for site in [2u8, 3, 4, 5, 16] {
            answers(&rt, &mut family, site, asking(), b"");
        }
        answers(&rt, &mut family, 1, asking(), answer);
    }
    Ok(())
}

#[test]
fn any_bytes_can_be_answered(rt: HostRuntime) -> Result<(), Fail> {
    let sites = [Site {
        host: b"a.example",
        port: 443,
    }];
    let mut family = ScriptServers::new(rt.alloc(), &sites)?;
    let raw = [
        Step::Constant(8, 7),
        Step::Constant(11, 1),
        Step::Constant(12, 3),
        Step::Wait(Call::Nothing),
    ];
    add(&rt, &mut family, 7, &raw)?;
    // from the body on into the path
    answers(&rt, &mut family, 7, asking(), b"i/a");
    Ok(())
}

#[test]
fn servers_are_compared_site_by_site(rt: HostRuntime) -> Result<(), Fail> {
    let sites = [Site {
        host: b"a.example",
        port: 443,
    }];
    let mut one = ScriptServers::new(rt.alloc(), &sites)?;
    let mut other = ScriptServers::new(rt.alloc(), &sites)?;
    add(&rt, &mut one, 1, &counter())?;
    assert!(rt; !one.same(&other, 1));
    add(&rt, &mut other, 1, &counter())?;
    assert!(rt; one.same(&other, 1));
    answers(
        &rt,
        &mut one,
        1,
        asking(),
        b"HTTP/1.1 200 \r\ncontent-length: 1\r\n\r\n1",
    );
    assert!(rt; !one.same(&other, 1));
    assert!(rt; one.same(&other, 0));
    answers(
        &rt,
        &mut other,
        1,
        asking(),
        b"HTTP/1.1 200 \r\ncontent-length: 1\r\n\r\n1",
    );
    assert!(rt; one.same(&other, 1));
    Ok(())
}
