// Answers.
use addresses::Site;
use answers::seen::lets_see;
use answers::write::write_answer;
use answers::{Allowed, Kind, Response, read_answer};
use lines::MessageFault;
use std::test::Fail;

// The number of a text's fault, or 0.
fn fault(kind: Kind, text: &[u8]) -> u8 {
    match read_answer(kind, text) {
        Ok(_) => 0,
        Err(MessageFault::Unreadable) => 6,
        Err(MessageFault::Value) => 7,
    }
}

// The example exchange of RFC 9110, its fields in lines of RFC 9112.
const EXCHANGE: &[u8] =
    b"HTTP/1.1 200 OK\r\nDate: Mon, 27 Jul 2009 12:28:53 GMT\r\nServer: Apache\r\nLast-Modified: Wed, 22 Jul 2009 19:15:56 GMT\r\nETag: \"34aa387-d-1568eb00\"\r\nAccept-Ranges: bytes\r\nContent-Length: 51\r\nVary: Accept-Encoding\r\nContent-Type: text/plain\r\n\r\nHello World! My content includes a trailing CRLF.\r\n";

const NONE: &[u8] = b"(none)";

// The host that an answer allows, and its port.
fn allowed(a: Response<'_>) -> (&[u8], u16) {
    let Some(allowed) = a.allowed else {
        return (NONE, 0);
    };
    match allowed {
        Allowed::Everybody => (b"*", 0),
        Allowed::Site(site) => (site.host, site.port),
    }
}

// Text; code, token, host and port that are allowed, body.
const GOOD: [(&[u8], u16, &[u8], &[u8], u16, &[u8]); 14] = [
    (
        EXCHANGE,
        200,
        NONE,
        NONE,
        0,
        b"Hello World! My content includes a trailing CRLF.\r\n",
    ),
    (
        b"HTTP/1.1 200 OK\r\ncontent-length: 0\r\n\r\n",
        200,
        NONE,
        NONE,
        0,
        b"",
    ),
    // no reason, but the space before it
    (
        b"HTTP/1.1 404 \r\ncontent-length: 2\r\n\r\nno",
        404,
        NONE,
        NONE,
        0,
        b"no",
    ),
    (
        b"HTTP/1.1 000 \r\ncontent-length: 0\r\n\r\n",
        0,
        NONE,
        NONE,
        0,
        b"",
    ),
    (
        b"HTTP/1.1 999 x y\tz\x80\r\ncontent-length: 0\r\n\r\n",
        999,
        NONE,
        NONE,
        0,
        b"",
    ),
    // the first example of RFC 6265
    (
        b"HTTP/1.1 200 OK\r\nSet-Cookie: SID=31d4d96e407aad42\r\nContent-Length: 0\r\n\r\n",
        200,
        b"SID=31d4d96e407aad42",
        NONE,
        0,
        b"",
    ),
    // an empty token is one
    (
        b"HTTP/1.1 200 OK\r\nset-cookie:\r\ncontent-length: 1\r\n\r\n\r",
        200,
        b"",
        NONE,
        0,
        b"\r",
    ),
    (
        b"HTTP/1.1 200 OK\r\nSET-COOKIE:\t ~!a \t\r\ncontent-length:007\r\n\r\n\0\x01\x02\x03\x04\x05\xff",
        200,
        b"~!a",
        NONE,
        0,
        b"\0\x01\x02\x03\x04\x05\xff",
    ),
    (
        b"HTTP/1.1 200 OK\r\naccess-control-allow-origin: *\r\ncontent-length: 0\r\n\r\n",
        200,
        NONE,
        b"*",
        0,
        b"",
    ),
    (
        b"HTTP/1.1 200 OK\r\nAccess-Control-Allow-Origin: https://example.com\r\ncontent-length: 0\r\n\r\n",
        200,
        NONE,
        b"example.com",
        443,
        b"",
    ),
    (
        b"HTTP/1.1 200 OK\r\naccess-control-allow-origin: https://example.com:443\r\ncontent-length: 0\r\n\r\n",
        200,
        NONE,
        b"example.com",
        443,
        b"",
    ),
    (
        b"HTTP/1.1 200 OK\r\naccess-control-allow-origin: https://example.com:8080\r\ncontent-length: 0\r\nset-cookie: t\r\n\r\n",
        200,
        b"t",
        b"example.com",
        8080,
        b"",
    ),
    // names that begin alike, or have length and first letter in common
    (
        b"HTTP/1.1 200 OK\r\nab: 1\r\nabc: 2\r\nac: 3\r\na: 4\r\ncontent-length: 0\r\n\r\n",
        200,
        NONE,
        NONE,
        0,
        b"",
    ),
    (
        b"HTTP/1.1 200 OK\r\n!#$%&'*+-.^_`|~09azAZ: x\r\ncontent-length: 0\r\n\r\n",
        200,
        NONE,
        NONE,
        0,
        b"",
    ),
];

#[test]
fn good(rt: HostRuntime) -> Result<(), Fail> {
    for (text, code, token, host, port, body) in GOOD {
        let a = read_answer(Kind::Asked, text)
            .ok()
            .ok_or("a good answer is refused")?;
        assert!(rt; a.code == code);
        assert!(rt; a.token.unwrap_or(NONE) == token);
        assert!(rt; allowed(a) == (host, port));
        assert!(rt; a.body == body);
    }
    Ok(())
}

#[test]
fn cut_at_every_byte(rt: HostRuntime) {
    for (text, _, _, _, _, _) in GOOD {
        for n in 0..text.len() {
            assert!(rt; fault(Kind::Asked, &text[0..n]) != 0);
        }
    }
}

#[test]
fn bad(rt: HostRuntime) {
    let texts: [(&[u8], u8); 44] = [
        (b"", 6),
        (b"HTTP/1.1 200 OK\r\n\r\n", 6),
        (b"HTTP/1.0 200 OK\r\ncontent-length: 0\r\n\r\n", 6),
        (b"http/1.1 200 OK\r\ncontent-length: 0\r\n\r\n", 6),
        (b"HTTP/1.1  200 OK\r\ncontent-length: 0\r\n\r\n", 6),
        (b"HTTP/1.1 200\r\ncontent-length: 0\r\n\r\n", 6),
        (b"HTTP/1.1 20 OK\r\ncontent-length: 0\r\n\r\n", 6),
        (b"HTTP/1.1 2000 OK\r\ncontent-length: 0\r\n\r\n", 6),
        (b"HTTP/1.1 2x0 OK\r\ncontent-length: 0\r\n\r\n", 6),
        (b"\r\nHTTP/1.1 200 OK\r\ncontent-length: 0\r\n\r\n", 6),
        // line feeds, carriage returns and controls by themselves
        (b"HTTP/1.1 200 OK\ncontent-length: 0\n\n", 6),
        (b"HTTP/1.1 200 OK\r\ncontent-length: 0\r\n\n", 6),
        (
            b"HTTP/1.1 200 OK\r\na: b\rc\r\ncontent-length: 0\r\n\r\n",
            6,
        ),
        (b"HTTP/1.1 200 O\x7fK\r\ncontent-length: 0\r\n\r\n", 6),
        (b"HTTP/1.1 200 OK\r\na: \0\r\ncontent-length: 0\r\n\r\n", 6),
        // white space that RFC 9112 forbids: before the first field, before the colon, and at the start of a line
        (b"HTTP/1.1 200 OK\r\n content-length: 0\r\n\r\n", 6),
        (b"HTTP/1.1 200 OK\r\ncontent-length : 0\r\n\r\n", 6),
        (
            b"HTTP/1.1 200 OK\r\na: b\r\n c\r\ncontent-length: 0\r\n\r\n",
            6,
        ),
        (b"HTTP/1.1 200 OK\r\n: b\r\ncontent-length: 0\r\n\r\n", 6),
        (b"HTTP/1.1 200 OK\r\na\r\ncontent-length: 0\r\n\r\n", 6),
        (
            b"HTTP/1.1 200 OK\r\na(b): c\r\ncontent-length: 0\r\n\r\n",
            6,
        ),
        // encodings of RFC 9112
        (
            b"HTTP/1.1 200 OK\r\nTransfer-Encoding: chunked\r\n\r\n0\r\n\r\n",
            6,
        ),
        (
            b"HTTP/1.1 200 OK\r\nTransfer-Encoding: gzip, chunked\r\ncontent-length: 0\r\n\r\n",
            6,
        ),
        // too many bytes, too few, too many for an answer
        (b"HTTP/1.1 200 OK\r\ncontent-length: 1\r\n\r\nxy", 6),
        (b"HTTP/1.1 200 OK\r\ncontent-length: 3\r\n\r\nxy", 6),
        (b"HTTP/1.1 200 OK\r\ncontent-length: 4097\r\n\r\n", 6),
        (
            b"HTTP/1.1 200 OK\r\ncontent-length: 99999999999999999999999\r\n\r\n",
            6,
        ),
        // values that are not of their kind
        (b"HTTP/1.1 200 OK\r\nContent-Length: 42, 42\r\n\r\n", 7),
        (b"HTTP/1.1 200 OK\r\ncontent-length: +1\r\n\r\nx", 7),
        (b"HTTP/1.1 200 OK\r\ncontent-length:\r\n\r\n", 7),
        (b"HTTP/1.1 200 OK\r\ncontent-length: 0x0\r\n\r\n", 7),
        (
            b"HTTP/1.1 200 OK\r\nSet-Cookie: SID=31d4d96e407aad42; Path=/; Domain=example.com\r\ncontent-length: 0\r\n\r\n",
            7,
        ),
        (
            b"HTTP/1.1 200 OK\r\nset-cookie: 01234567890123456789012345678901234567890123456789012345678901234\r\ncontent-length: 0\r\n\r\n",
            7,
        ),
        (
            b"HTTP/1.1 200 OK\r\naccess-control-allow-origin: null\r\ncontent-length: 0\r\n\r\n",
            7,
        ),
        (
            b"HTTP/1.1 200 OK\r\naccess-control-allow-origin: https://example.com/\r\ncontent-length: 0\r\n\r\n",
            7,
        ),
        (
            b"HTTP/1.1 200 OK\r\naccess-control-allow-origin: http://example.com\r\ncontent-length: 0\r\n\r\n",
            7,
        ),
        (
            b"HTTP/1.1 200 OK\r\naccess-control-allow-origin: **\r\ncontent-length: 0\r\n\r\n",
            7,
        ),
        // a name twice, whatever it is and in whatever case
        (
            b"HTTP/1.1 200 OK\r\nx: 1\r\ncontent-length: 0\r\nX: 1\r\n\r\n",
            7,
        ),
        (
            b"HTTP/1.1 200 OK\r\ncontent-length: 0\r\nContent-Length: 0\r\n\r\n",
            7,
        ),
        (
            b"HTTP/1.1 200 OK\r\nset-cookie: a\r\nset-cookie: a\r\ncontent-length: 0\r\n\r\n",
            7,
        ),
        // in one line 6 comes before 7; of two lines the first wins
        (
            b"HTTP/1.1 200 OK\r\ncontent-length: 0\r\ncontent-length: 4097\r\n\r\n",
            6,
        ),
        (b"HTTP/1.1 200 OK\r\nset-cookie: a b\r\nbad line\r\n\r\n", 7),
        (b"HTTP/1.1 200 OK\r\nbad line\r\nset-cookie: a b\r\n\r\n", 6),
        (b"HTTP/1.1 200 OK\r\nx: 1\r\nx: 1\r\n", 7),
    ];
    for (text, number) in texts {
        assert!(rt; fault(Kind::Asked, text) == number);
    }
}

// Is an answer written that has so many bytes, and read back by its own limit?
fn passes(kind: Kind, body: &[u8]) -> bool {
    let mut out = [0u8; 16500];
    let Some(n) = write_answer(
        &mut out,
        kind,
        Response {
            code: 200,
            token: None,
            allowed: None,
            body,
        },
    ) else {
        return false;
    };
    n <= 16500 && fault(kind, &out[0..n]) == 0
}

#[test]
fn limits(rt: HostRuntime) {
    let body = [b'x'; 16385];
    assert!(rt; passes(Kind::Asked, &body[0..4096]));
    assert!(rt; !passes(Kind::Asked, &body[0..4097]));
    assert!(rt; passes(Kind::Page, &body[0..16384]));
    assert!(rt; !passes(Kind::Page, &body));
    assert!(rt;
        fault(
            Kind::Asked,
            b"HTTP/1.1 200 \r\ncontent-length: 4097\r\n\r\n",
        ) == 6
    );
    assert!(rt;
        fault(
            Kind::Page,
            b"HTTP/1.1 200 \r\ncontent-length: 16385\r\n\r\n",
        ) == 6
    );
}

// Whom an answer lets see it.
#[test]
fn seen_by(rt: HostRuntime) {
    let texts: [(&[u8], &[u8], u16, bool); 9] = [
        (
            b"HTTP/1.1 200 \r\ncontent-length: 0\r\n\r\n",
            b"a.example",
            443,
            false,
        ),
        (
            b"HTTP/1.1 200 \r\naccess-control-allow-origin: *\r\ncontent-length: 0\r\n\r\n",
            b"a.example",
            443,
            true,
        ),
        (
            b"HTTP/1.1 200 \r\naccess-control-allow-origin: https://a.example\r\ncontent-length: 0\r\n\r\n",
            b"a.example",
            443,
            true,
        ),
        (
            b"HTTP/1.1 200 \r\naccess-control-allow-origin: https://a.example:443\r\ncontent-length: 0\r\n\r\n",
            b"a.example",
            443,
            true,
        ),
        (
            b"HTTP/1.1 200 \r\naccess-control-allow-origin: https://a.example\r\ncontent-length: 0\r\n\r\n",
            b"a.example",
            8443,
            false,
        ),
        (
            b"HTTP/1.1 200 \r\naccess-control-allow-origin: https://a.example\r\ncontent-length: 0\r\n\r\n",
            b"b.a.example",
            443,
            false,
        ),
        (
            b"HTTP/1.1 200 \r\naccess-control-allow-origin: https://a.example:8443\r\ncontent-length: 0\r\n\r\n",
            b"a.example",
            8443,
            true,
        ),
        // an answer that can't be read allows nobody
        (
            b"HTTP/1.1 200 \r\naccess-control-allow-origin: *\r\ncontent-length: 1\r\n\r\n",
            b"a.example",
            443,
            false,
        ),
        (
            b"HTTP/1.1 200 \r\naccess-control-allow-origin: *\r\nx: 1\r\nx: 1\r\ncontent-length: 0\r\n\r\n",
            b"a.example",
            443,
            false,
        ),
    ];
    for (text, host, port, sees) in texts {
        assert!(rt; lets_see(text, Site { host, port }) == sees);
    }
}

#[test]
fn written(rt: HostRuntime) {
    let text: &[u8] =
        b"HTTP/1.1 007 \r\nset-cookie: t\r\naccess-control-allow-origin: https://a.example:8443\r\ncontent-length: 2\r\n\r\nhi";
    let a = Response {
        code: 7,
        token: Some(b"t"),
        allowed: Some(Allowed::Site(Site {
            host: b"a.example",
            port: 8443,
        })),
        body: b"hi",
    };
    let mut out = [b'.'; 200];
    let n = text.len();
    assert!(rt; n < 200);
    assert!(rt; write_answer(&mut out[0..n - 1], Kind::Asked, a) == None);
    assert!(rt; out[0] == b'.');
    assert!(rt; write_answer(&mut out, Kind::Asked, a) == Some(n));
    assert!(rt; &out[0..n] == text);
    assert!(rt; out[n] == b'.');
    // what could not be read back is not written
    let parts: [Response<'_>; 4] = [
        Response {
            code: 1000,
            token: None,
            allowed: None,
            body: b"",
        },
        Response {
            code: 200,
            token: Some(b"a\r\nx: y"),
            allowed: None,
            body: b"",
        },
        Response {
            code: 200,
            token: None,
            allowed: Some(Allowed::Site(Site {
                host: b"a\r\n",
                port: 1,
            })),
            body: b"",
        },
        Response {
            code: 200,
            token: None,
            allowed: Some(Allowed::Site(Site {
                host: b"a",
                port: 0,
            })),
            body: b"",
        },
    ];
    for a in parts {
        assert!(rt; is_unwritten(a));
    }
}

fn is_unwritten(a: Response<'_>) -> bool {
    let mut out = [0u8; 200];
    write_answer(&mut out, Kind::Page, a) == None
}
