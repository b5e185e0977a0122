// The head of a frame: whether a request or an answer follows, of which site, and how many bytes.
#![tactic(auto)]

ghost use Rattle.std.specs.Prelude.{◌≡◌, ◌≤◌, ◌++◌, take, IfSome, if◌then◌else◌, Some, None};
ghost use Rattle.std.specs.Option.{option_map};
ghost use Rattle.octets.specs.Buffers.{written, count};
ghost use Rattle.frames.specs.Heads.{kind_text, head_text, can_write, head_from, read_head};
ghost use Rattle.frames.specs.Views.{head_of};

use addresses::{Site, is_site, port_text, read_site};
use octets::pieces::put_all;
use octets::small::SmallText;
use octets::{Class, split, strip};
use words::numbers::number_after;

#[derive(Clone, Copy)]
pub enum Kind {
    Request,
    Answer,
}

// What follows is of this kind and this site, and has so many bytes.
#[derive(Clone, Copy)]
pub struct Head<'a> {
    pub kind: Kind,
    pub site: Site<'a>,
    pub len: u32,
}

// No head is longer.
pub const HEAD_ROOM: usize = 544;

// No frame is longer.
pub const MOST_BYTES: u32 = 999_999_999;

fn head_from(kind: Kind, s: &[u8]) -> Option<Head<'_>>
    ensures { option_map head_of result ≡ head_from kind s.now }
{
    let (text, end) = split(Class::Visible, s);
    let site = read_site(text)?;
    let (len, end) = number_after(end, b" ", MOST_BYTES as u64)?;
    let rest = strip(end, b"\n")?;
    if !rest.is_empty() {
        return None;
    }
    let len = len as u32;
    Some(Head { kind, site, len })
}

// A head, which is a line with its newline.
pub fn read_head(line: &[u8]) -> Option<Head<'_>>
    ensures { option_map head_of result ≡ read_head line.now }
{
    if let Some(t) = strip(line, b"request ") {
        return head_from(Kind::Request, t);
    }
    head_from(Kind::Answer, strip(line, b"answer ")?)
}

// By name: `AsRef` would not say that it is the word at the front of a head.
fn word<'a>(kind: Kind) -> &'a [u8]
    ensures { result.now ≡ kind_text kind }
{
    match kind {
        Kind::Request => b"request ",
        Kind::Answer => b"answer ",
    }
}

// Writes a head at the front of the buffer, if it is of a site and of few enough bytes and fits; else nothing. It is read
// back.
pub fn write_head(out: &mut [u8], head: Head<'_>) -> Option<usize>
    ensures answer { result ≡ (if can_write (head_of head.entry) then count (head_text (head_of head.entry)) out.old else None) }
    ensures after { out.new ≡ (if can_write (head_of head.entry) then written (head_text (head_of head.entry)) out.old else out.old) }
    ensures short { IfSome result (λ n. n ≤ 544) }
    ensures back { IfSome result (λ n. read_head (take n out.new) ≡ Some (head_of head.entry)) }
{
    if !is_site(head.site) || head.len > MOST_BYTES {
        return None;
    }
    let port = port_text(head.site.port);
    let digits = SmallText::decimal_after(b' ', head.len as u64);
    put_all(
        out,
        &[
            word(head.kind),
            b"https://",
            head.site.host,
            port.as_bytes(),
            digits.as_bytes(),
            b"\n",
        ],
    )
}
