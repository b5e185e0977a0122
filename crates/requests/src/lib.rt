// Requests: read from bytes to the end, or refused.
#![tactic(auto)]

ghost use Rattle.std.specs.Prelude.{◌≡◌};
ghost use Rattle.std.specs.Option.{option_map};
ghost use Rattle.addresses.specs.Views.{site_of};
ghost use Rattle.lines.specs.Views.{answer_of};
ghost use Rattle.requests.specs.Requests.{Known, length_of, taking, path_then, read_request};
ghost use Rattle.requests.specs.Views.{known_of, asking_of};

use addresses::{Site, is_path, read_host, read_site};
use lines::heads::{Fields, read_fields};
use lines::{MessageFault, same_name, token_of};
use octets::decimal::read_number;
use octets::{Class, split, strip};

pub mod write;

// What is asked, as parts of the bytes that it is read from or written with: of which site and path, by a page of which
// site (by none where a page is opened), with which token and bytes.
#[derive(Clone, Copy)]
pub struct Request<'a> {
    pub site: Site<'a>,
    pub path: &'a [u8],
    pub origin: Option<Site<'a>>,
    pub token: Option<&'a [u8]>,
    pub body: &'a [u8],
}

// What the fields said so far. Answers have a length and a token too, but under other names and with other faults.
#[derive(Clone, Copy)]
struct Heads<'a> {
    host: Option<Site<'a>>,
    origin: Option<Site<'a>>,
    token: Option<&'a [u8]>,
    length: Option<u64>,
}

// The length of a body: digits that write up to 1,024. Not the answers' rule, which tells a length that is no number from
// one over its limit: here both are one fault.
fn length_of(v: &[u8]) -> Option<u64>
    ensures { result ≡ length_of v.now }
{
    if v.is_empty() {
        return None;
    }
    read_number(v, 1024)
}

impl<'a> Fields<'a> for Heads<'a> {
    ghost Known = { Known };

    ghost known = { known_of };

    ghost taking = { taking };

    fn take(&mut self, name: &[u8], value: &'a [u8]) -> Result<(), MessageFault> {
        if same_name(name, b"transfer-encoding") {
            return Err(MessageFault::Unreadable);
        }
        if same_name(name, b"host") {
            self.host = Some(read_host(value).ok_or(MessageFault::Unreadable)?);
        } else if same_name(name, b"origin") {
            self.origin = Some(read_site(value).ok_or(MessageFault::Unreadable)?);
        } else if same_name(name, b"cookie") {
            self.token = Some(token_of(value).ok_or(MessageFault::Unreadable)?);
        } else if same_name(name, b"content-length") {
            self.length = Some(length_of(value).ok_or(MessageFault::Unreadable)?);
        }
        Ok(())
    }
}

fn path_then<'a>(path: &'a [u8], s: &'a [u8]) -> Option<Request<'a>>
    ensures { option_map asking_of result ≡ path_then path.now s.now }
{
    if !is_path(path) {
        return None;
    }
    let rest = strip(s, b" HTTP/1.1\r\n")?;
    let none = Heads {
        host: None,
        origin: None,
        token: None,
        length: None,
    };
    let (h, body) = read_fields(none, rest).ok()?;
    let site = h.host?;
    if body.len() as u64 != h.length? {
        return None;
    }
    Some(Request {
        site,
        path,
        origin: h.origin,
        token: h.token,
        body,
    })
}

// Reads a request to its end.
pub fn read_request(s: &[u8]) -> Result<Request<'_>, MessageFault>
    ensures { answer_of asking_of result ≡ read_request s.now }
{
    let t = strip(s, b"POST ").ok_or(MessageFault::Unreadable)?;
    let (path, end) = split(Class::Visible, t);
    path_then(path, end).ok_or(MessageFault::Unreadable)
}
