// Addresses and sites.
use addresses::{Site, read_address, read_site, write_site};
use std::test::Fail;

const LABEL: &[u8] = b"abcdefghijklmnopqrstuvwxyz0123456789-abcdefghijklmnopqrstuvwxyz";

// The first four are examples of RFC 6454, with this scheme.
#[test]
fn good(rt: HostRuntime) -> Result<(), Fail> {
    let texts: [(&[u8], &[u8], u16, &[u8]); 10] = [
        (b"https://example.com/", b"example.com", 443, b"/"),
        (b"https://example.com:80/", b"example.com", 80, b"/"),
        (
            b"https://example.com/path/file",
            b"example.com",
            443,
            b"/path/file",
        ),
        (b"https://www.example.com/", b"www.example.com", 443, b"/"),
        (b"https://a:1/", b"a", 1, b"/"),
        (b"https://a:65535/~!", b"a", 65535, b"/~!"),
        (b"https://0.1.2.3.4.5.6.7/", b"0.1.2.3.4.5.6.7", 443, b"/"),
        (b"https://a--b.c/?q#f", b"a--b.c", 443, b"/?q#f"),
        (b"https://a:443/", b"a", 443, b"/"),
        (b"https://a///:8/", b"a", 443, b"///:8/"),
    ];
    for (text, host, port, path) in texts {
        let a = read_address(text).ok().ok_or("a good address is refused")?;
        assert!(rt; a.host == host);
        assert!(rt; a.port == port);
        assert!(rt; a.path == path);
    }
    Ok(())
}

#[test]
fn bad(rt: HostRuntime) {
    let texts: [&[u8]; 25] = [
        b"",
        b"http://example.com/",
        b"HTTPS://example.com/",
        b"https:/example.com/",
        b"https:///",
        b"https://example.com",
        b"https://Example.com/",
        b"https://-a/",
        b"https://a-/",
        b"https://a..b/",
        b"https://.a/",
        b"https://a./",
        b"https://a_b/",
        b"https://a.b.c.d.e.f.g.h.i/",
        b"https://a:/",
        b"https://a:0/",
        b"https://a:080/",
        b"https://a:65536/",
        b"https://a:99999999999999999999/",
        b"https://a:8x/",
        b"https://a b/",
        b"https://a/ ",
        b"https://a/\x7f",
        b"https://u@a/",
        b"https://[::1]/",
    ];
    for text in texts {
        assert!(rt; read_address(text).is_err());
    }
}

// A label of 63 bytes is one, and one of 64 is none; a path of 255 bytes is one, and one of 256 is none.
#[test]
fn longest(rt: HostRuntime) -> Result<(), Fail> {
    let mut text = b"https://".to_vec(rt.alloc())?;
    text.extend_from_slice(LABEL)?;
    assert!(rt; read_site(text.as_slice()).is_some());
    text.push(b'a')?;
    assert!(rt; read_site(text.as_slice()).is_none());
    let mut text = b"https://a/".to_vec(rt.alloc())?;
    for _ in 0..254u8 {
        text.push(b'x')?;
    }
    assert!(rt; read_address(text.as_slice()).is_ok());
    text.push(b'x')?;
    assert!(rt; read_address(text.as_slice()).is_err());
    Ok(())
}

// An address that is cut has the same site as soon as its path begins, and can't be read before.
#[test]
fn cut(rt: HostRuntime) {
    let text: &[u8] = b"https://a.example:8080/path";
    for n in 0..text.len() {
        let (front, _) = text.split_at(n);
        match read_address(front) {
            Ok(a) => {
                assert!(rt; n > 22);
                assert!(rt; a.host == b"a.example".as_slice());
                assert!(rt; a.port == 8080);
                assert!(rt; a.path.len() == n - 22);
            }
            Err(_) => assert!(rt; n <= 22),
        }
    }
}

#[test]
fn same(rt: HostRuntime) -> Result<(), Fail> {
    let one = Site {
        host: b"a.example",
        port: 443,
    };
    let sites: [(&[u8], bool); 5] = [
        (b"https://a.example", true),
        (b"https://a.example:443", true),
        (b"https://a.example:444", false),
        (b"https://b.a.example", false),
        (b"https://a.exampl", false),
    ];
    for (text, same) in sites {
        let site = read_site(text).ok_or("a good site is refused")?;
        assert!(rt; (one == site) == same);
    }
    Ok(())
}

// A site is written whole, or nothing is.
#[test]
fn written(rt: HostRuntime) {
    let site = Site {
        host: b"a.example",
        port: 8080,
    };
    let mut short = [b'.'; 21];
    assert!(rt; write_site(&mut short, site).is_none());
    assert!(rt; short == *b".....................");
    let mut out = [b'.'; 24];
    assert_eq!(rt; write_site(&mut out, site), Some(22));
    assert!(rt; out == *b"https://a.example:8080..");
}
