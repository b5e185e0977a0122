// Answers: read from bytes to the end or the first fault.
#![tactic(auto)]

ghost use Rattle.std.specs.Prelude.{◌≡◌};
ghost use Rattle.std.specs.Option.{option_map};
ghost use Rattle.lines.specs.Views.{answer_of};
ghost use Rattle.answers.specs.Answers.{limit, Known, length_of, allows_of, taking, code_then, status_then, read_answer};
ghost use Rattle.answers.specs.Views.{allows_by, known_of, content_of};

pub mod seen;
pub mod within;
pub mod write;

use addresses::{Site, read_site};
use lines::heads::{Fields, read_fields};
use lines::{MessageFault, line_then, same_name, token_of};
use octets::decimal::read_number;
use octets::{Class, span, split, strip};

// What was asked for: an answer to a page, or a page that is opened.
#[derive(Clone, Copy)]
pub enum Kind {
    Asked,
    Page,
}

// Whom an answer allows to see it.
#[derive(Clone, Copy)]
pub enum Allowed<'a> {
    Everybody,
    Site(Site<'a>),
}

// An answer, as parts of the bytes that were read.
#[derive(Clone, Copy)]
pub struct Response<'a> {
    pub code: u16,
    pub token: Option<&'a [u8]>,
    pub allowed: Option<Allowed<'a>>,
    pub body: &'a [u8],
}

// What the fields said so far.
#[derive(Clone, Copy)]
struct Heads<'a> {
    kind: Kind,
    length: Option<u64>,
    token: Option<&'a [u8]>,
    allowed: Option<Allowed<'a>>,
}

fn limit_of(kind: Kind) -> u64
    ensures { result ≡ limit kind }
{
    match kind {
        Kind::Asked => 4096,
        Kind::Page => 16384,
    }
}

// A length has digits only, and is within its limit. The two are told apart, so digits are looked for first, and not
// only up to the limit.
fn length_of(kind: Kind, v: &[u8]) -> Result<u64, MessageFault>
    ensures { answer_of (λ n. n) result ≡ length_of kind v.now }
{
    if v.is_empty() || span(Class::Digit, v) != v.len() {
        return Err(MessageFault::Value);
    }
    read_number(v, limit_of(kind)).ok_or(MessageFault::Unreadable)
}

fn allowed_of(v: &[u8]) -> Option<Allowed<'_>>
    ensures { option_map allows_by result ≡ allows_of v.now }
{
    if v == b"*".as_slice() {
        return Some(Allowed::Everybody);
    }
    read_site(v).map(Allowed::Site)
}

impl<'a> Fields<'a> for Heads<'a> {
    ghost Known = { Known };

    ghost known = { known_of };

    ghost taking = { taking };

    fn take(&mut self, name: &[u8], value: &'a [u8]) -> Result<(), MessageFault> {
        if same_name(name, b"transfer-encoding") {
            return Err(MessageFault::Unreadable);
        }
        if same_name(name, b"content-length") {
            self.length = Some(length_of(self.kind, value)?);
        } else if same_name(name, b"set-cookie") {
            self.token = Some(token_of(value).ok_or(MessageFault::Value)?);
        } else if same_name(name, b"access-control-allow-origin") {
            self.allowed = Some(allowed_of(value).ok_or(MessageFault::Value)?);
        }
        Ok(())
    }
}

fn code_then(t: &[u8]) -> Option<(u16, &[u8])>
    ensures { option_map (λ p. (p.0, p.1.now)) result ≡ code_then t.now }
{
    if span(Class::Digit, t) != 3 {
        return None;
    }
    let (digits, end) = split(Class::Digit, t);
    let code = read_number(digits, 999)? as u16;
    let (_, rest) = line_then(strip(end, b" ")?)?;
    Some((code, rest))
}

fn status_then(s: &[u8]) -> Option<(u16, &[u8])>
    ensures { option_map (λ p. (p.0, p.1.now)) result ≡ status_then s.now }
{
    code_then(strip(s, b"HTTP/1.1 ")?)
}

// Reads an answer to its end, or its first fault.
pub fn read_answer<'a>(kind: Kind, s: &'a [u8]) -> Result<Response<'a>, MessageFault>
    ensures { answer_of content_of result ≡ read_answer kind s.now }
{
    let (code, rest) = status_then(s).ok_or(MessageFault::Unreadable)?;
    let none = Heads {
        kind,
        length: None,
        token: None,
        allowed: None,
    };
    let (h, body) = read_fields(none, rest)?;
    let n = h.length.ok_or(MessageFault::Unreadable)?;
    if body.len() as u64 != n {
        return Err(MessageFault::Unreadable);
    }
    Ok(Response {
        code,
        token: h.token,
        allowed: h.allowed,
        body,
    })
}
