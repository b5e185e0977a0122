// Requests.
use addresses::Site;
use lines::MessageFault;
use requests::write::write_request;
use requests::{Request, read_request};
use std::test::Fail;

const NONE: &[u8] = b"(none)";

// Text; host and port that are asked, path, host of the asking page, token, body.
const GOOD: [(&[u8], &[u8], u16, &[u8], &[u8], &[u8], &[u8]); 6] = [
    (
        b"POST / HTTP/1.1\r\nhost: a.example\r\ncontent-length: 0\r\n\r\n",
        b"a.example",
        443,
        b"/",
        NONE,
        NONE,
        b"",
    ),
    (
        b"POST /where?q=now HTTP/1.1\r\nHost: www.example.org:8001\r\nContent-Length: 2\r\n\r\n\r\n",
        b"www.example.org",
        8001,
        b"/where?q=now",
        NONE,
        NONE,
        b"\r\n",
    ),
    // tokens of RFC 6265, a site of RFC 6454
    (
        b"POST /a HTTP/1.1\r\nhost: a.example\r\nCookie: SID=31d4d96e407aad42\r\ncontent-length: 1\r\n\r\nx",
        b"a.example",
        443,
        b"/a",
        NONE,
        b"SID=31d4d96e407aad42",
        b"x",
    ),
    (
        b"POST /a HTTP/1.1\r\nhost: a.example\r\nOrigin: https://example.com\r\ncookie: \r\ncontent-length: 0\r\n\r\n",
        b"a.example",
        443,
        b"/a",
        b"example.com",
        b"",
        b"",
    ),
    // in another order, with a field that says nothing
    (
        b"POST /a HTTP/1.1\r\ncontent-length: 0\r\nuser-agent: x y\r\norigin: https://b.example:1\r\nhost: a.example:443\r\n\r\n",
        b"a.example",
        443,
        b"/a",
        b"b.example",
        NONE,
        b"",
    ),
    (
        b"POST /~! HTTP/1.1\r\nhost:a:65535\r\ncontent-length:0\r\n\r\n",
        b"a",
        65535,
        b"/~!",
        NONE,
        NONE,
        b"",
    ),
];

#[test]
fn good(rt: HostRuntime) -> Result<(), Fail> {
    for (text, host, port, path, origin, token, body) in GOOD {
        let q = read_request(text).ok().ok_or("a good request is refused")?;
        assert!(rt; q.site.host == host);
        assert!(rt; q.site.port == port);
        assert!(rt; q.path == path);
        assert!(rt;
            q.origin
                .unwrap_or(Site {
                    host: NONE,
                    port: 0,
                })
                .host
                == origin
        );
        assert!(rt; q.token.unwrap_or(NONE) == token);
        assert!(rt; q.body == body);
    }
    Ok(())
}

fn is_refused(text: &[u8]) -> bool {
    match read_request(text) {
        Err(MessageFault::Unreadable) => true,
        _ => false,
    }
}

#[test]
fn cut_at_every_byte(rt: HostRuntime) {
    for (text, _, _, _, _, _, _) in GOOD {
        for n in 0..text.len() {
            assert!(rt; is_refused(&text[0..n]));
        }
    }
}

#[test]
fn bad(rt: HostRuntime) {
    let texts: [&[u8]; 22] = [
        b"",
        b"GET /where?q=now HTTP/1.1\r\nHost: www.example.org\r\ncontent-length: 0\r\n\r\n",
        b"POST / HTTP/1.0\r\nhost: a\r\ncontent-length: 0\r\n\r\n",
        b"POST / HTTP/1.1 \r\nhost: a\r\ncontent-length: 0\r\n\r\n",
        b"POST /\r\nhost: a\r\ncontent-length: 0\r\n\r\n",
        // the other forms of a target in RFC 9112
        b"POST http://www.example.org/pub/WWW/TheProject.html HTTP/1.1\r\nhost: www.example.org\r\ncontent-length: 0\r\n\r\n",
        b"POST * HTTP/1.1\r\nHost: www.example.org:8001\r\ncontent-length: 0\r\n\r\n",
        b"POST  / HTTP/1.1\r\nhost: a\r\ncontent-length: 0\r\n\r\n",
        b"POST / HTTP/1.1\r\ncontent-length: 0\r\n\r\n",
        b"POST / HTTP/1.1\r\nhost: a\r\n\r\n",
        b"POST / HTTP/1.1\r\nhost: a/\r\ncontent-length: 0\r\n\r\n",
        b"POST / HTTP/1.1\r\nhost: A\r\ncontent-length: 0\r\n\r\n",
        b"POST / HTTP/1.1\r\nhost: a\r\norigin: null\r\ncontent-length: 0\r\n\r\n",
        b"POST / HTTP/1.1\r\nhost: a\r\norigin: https://b/\r\ncontent-length: 0\r\n\r\n",
        b"POST / HTTP/1.1\r\nhost: a\r\nCookie: SID=31d4d96e407aad42; lang=en-US\r\ncontent-length: 0\r\n\r\n",
        b"POST / HTTP/1.1\r\nhost: a\r\ncontent-length: 1025\r\n\r\n",
        b"POST / HTTP/1.1\r\nhost: a\r\ncontent-length: 1\r\n\r\nxy",
        b"POST / HTTP/1.1\r\nhost: a\r\ncontent-length: 3\r\n\r\nxy",
        b"POST / HTTP/1.1\r\nhost: a\r\ncontent-length:\r\n\r\n",
        b"POST / HTTP/1.1\r\nhost: a\r\nhost: a\r\ncontent-length: 0\r\n\r\n",
        b"POST / HTTP/1.1\r\nhost: a\r\nx: 1\r\nX: 2\r\ncontent-length: 0\r\n\r\n",
        b"POST / HTTP/1.1\r\nhost: a\r\ntransfer-encoding: chunked\r\ncontent-length: 0\r\n\r\n",
    ];
    for text in texts {
        assert!(rt; is_refused(text));
    }
}

#[test]
fn written(rt: HostRuntime) {
    let text: &[u8] =
        b"POST /p HTTP/1.1\r\nhost: b.example:8443\r\norigin: https://a.example\r\ncookie: t\r\ncontent-length: 2\r\n\r\nhi";
    let q = Request {
        site: Site {
            host: b"b.example",
            port: 8443,
        },
        path: b"/p",
        origin: Some(Site {
            host: b"a.example",
            port: 443,
        }),
        token: Some(b"t"),
        body: b"hi",
    };
    let mut out = [b'.'; 200];
    let n = text.len();
    assert!(rt; n < 200);
    assert!(rt; write_request(&mut out[0..n - 1], q) == None);
    assert!(rt; out[0] == b'.');
    assert!(rt; write_request(&mut out, q) == Some(n));
    assert!(rt; &out[0..n] == text);
    assert!(rt; out[n] == b'.');
}

// The request for a page that is opened: no origin and no body; no token is not the empty one.
#[test]
fn opened(rt: HostRuntime) {
    let text: &[u8] = b"POST / HTTP/1.1\r\nhost: a.example\r\ncontent-length: 0\r\n\r\n";
    let q = Request {
        site: Site {
            host: b"a.example",
            port: 443,
        },
        path: b"/",
        origin: None,
        token: None,
        body: b"",
    };
    let mut out = [0u8; 200];
    let n = text.len();
    assert!(rt; n < 200);
    assert!(rt; write_request(&mut out, q) == Some(n));
    assert!(rt; &out[0..n] == text);
}

// Is a request with these parts not written?
fn is_unwritten<'a>(path: &'a [u8], origin: &'a [u8], token: &'a [u8], body: &'a [u8]) -> bool {
    let site = Site {
        host: b"a",
        port: 1,
    };
    let mut out = [0u8; 1200];
    write_request(
        &mut out,
        Request {
            site,
            path,
            origin: Some(Site {
                host: origin,
                port: 1,
            }),
            token: Some(token),
            body,
        },
    ) == None
}

// What could not be read back is not written.
#[test]
fn unwritten(rt: HostRuntime) {
    let body = [b'x'; 1025];
    assert!(rt; !is_unwritten(b"/", b"b", b"t", b""));
    assert!(rt; is_unwritten(b"", b"b", b"t", b""));
    assert!(rt; is_unwritten(b"/ HTTP/1.1\r\nx: y", b"b", b"t", b""));
    assert!(rt; is_unwritten(b"/", b"B", b"t", b""));
    assert!(rt; is_unwritten(b"/", b"b", b"a b", b""));
    assert!(rt; !is_unwritten(b"/", b"b", b"t", &body[0..1024]));
    assert!(rt; is_unwritten(b"/", b"b", b"t", &body));
}
