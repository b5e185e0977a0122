// The lines of a message, and the fields that they hold.
#![tactic(auto)]

ghost use Rattle.std.specs.Prelude.{◌≡◌, ◌<◌, if◌then◌else◌, Some, None, ◌≤◌, length};
ghost use Rattle.std.specs.Option.{option_map};
ghost use Rattle.std.specs.List.{prefix_len, suffix_len};
ghost use Rattle.octets.specs.Classes.{has};
ghost use Rattle.octets.specs.declared.Class.TheVariants.{Blank, Token};
ghost use Rattle.lines.specs.Lines.{line_then, trim_end, trim, field_of, small, same_name, among, slot, names_of, token_ok, token_fits};

pub mod heads;
mod line;
pub mod written;

use octets::{Class, is_of, span, split, strip};

// Why a message is refused.
#[derive(Clone, Copy)]
pub enum MessageFault {
    // it can't be read, or is over its limit
    Unreadable,
    // a name twice, or a value that isn't of its kind
    Value,
}

// A line without its end, and what follows.
pub fn line_then(s: &[u8]) -> Option<(&[u8], &[u8])>
    ensures { option_map (λ p. (p.0.now, p.1.now)) result ≡ line_then s.now }
{
    let (line, end) = split(Class::Text, s);
    Some((line, strip(end, b"\r\n")?))
}

// Are the names the same, without regard to case?
pub fn same_name(a: &[u8], b: &[u8]) -> bool
    ensures { result ≡ same_name a.now b.now }
{
    a.eq_ignore_ascii_case(b)
}

// Where a name is marked: the same place for all forms of it.
fn slot_of(name: &[u8]) -> usize
    ensures is { result ≡ slot name.now }
    ensures within { result < 128 }
{
    let Some(first) = name.first() else {
        return 0;
    };
    (name.len() % 128 * 33 + usize::from(first.to_ascii_lowercase())) % 128
}

// Is the name, without regard to case, that of one of the first k lines? They are read again, since a reader claims no
// memory for their names.
fn is_named(s: &[u8], k: usize, name: &[u8]) -> bool
    ensures { result ≡ among name.now (names_of k s.now) }
{
    let mut rest = s;
    for _i in 0..k {
        let Some((line, next)) = line_then(rest) else {
            return false;
        };
        if same_name(name, split(Class::Token, line).0) {
            return true;
        }
        rest = next;
    }
    false
}

// Is it a token: 0 to 64 bytes from '!' to '~'?
pub fn is_token(v: &[u8]) -> bool
    ensures { result ≡ token_ok v.now }
{
    v.len() <= 64 && span(Class::Visible, v) == v.len()
}

// The token, if it is one.
pub fn token_of(v: &[u8]) -> Option<&[u8]>
    ensures { option_map (λ x. x.now) result ≡ (if token_ok v.now then Some v.now else None) }
{
    is_token(v).then_some(v)
}

// Is it a token, if there is one?
pub fn token_fits(token: Option<&[u8]>) -> bool
    ensures { result ≡ token_fits (option_map (λ x. x.now) token.entry) }
{
    token.is_none_or(|t| is_token(t))
}
