// Bytes read and written: classes of bytes, fronts of a text, decimal numbers, pieces put into a lent buffer.
#![tactic(auto)]

ghost use Rattle.std.specs.Prelude.{◌≡◌, ◌≤◌, length};
ghost use Rattle.std.specs.List.{prefix_len};
ghost use Rattle.std.specs.Option.{option_map};
ghost use Rattle.octets.specs.Classes.{is_token, has};
ghost use Rattle.octets.specs.Fronts.{after, front, past};

pub mod decimal;
pub mod pieces;
pub mod small;

// A class of bytes.
#[derive(Clone, Copy)]
pub enum Class {
    // '0' to '9'
    Digit,
    // small letters, digits and '-'
    Label,
    // a label's bytes and '.'
    Name,
    // '!' to '~'
    Visible,
    // what may stand in a line: all but controls, and the tab
    Text,
    // what may stand in the name of a field
    Token,
    // space and tab
    Blank,
    // all but the newline
    Line,
}

fn is_token(b: u8) -> bool
    ensures { result ≡ is_token b }
{
    // most bytes of a name are small letters
    if b >= b'^' {
        return b <= b'z' || b == b'|' || b == b'~';
    }
    matches!(b, b'A'..=b'Z' | b'-'..=b'.' | b'0'..=b'9' | b'!' | b'#'..=b'\'' | b'*'..=b'+')
}

// The class is a value and no closure, since contracts name it, as `has c`.
pub fn is_of(c: Class, b: u8) -> bool
    ensures { result ≡ has c b }
{
    match c {
        Class::Digit => b.is_ascii_digit(),
        Class::Label => b.is_ascii_lowercase() || b.is_ascii_digit() || b == b'-',
        Class::Name => b.is_ascii_lowercase() || b.is_ascii_digit() || b == b'-' || b == b'.',
        Class::Visible => b.is_ascii_graphic(),
        Class::Text => !b.is_ascii_control() || b == b'\t',
        Class::Token => is_token(b),
        Class::Blank => b == b'\t' || b == b' ',
        Class::Line => b != b'\n',
    }
}

// How many bytes at the front are of the class.
pub fn span(c: Class, s: &[u8]) -> usize
    ensures is { result ≡ prefix_len (has c) s.now }
    ensures within { result ≤ length s.now }
{
    s.iter().take_while(|b| is_of(c, **b)).count()
}

// The bytes of the class at the front, and what follows them.
pub fn split(c: Class, s: &[u8]) -> (&[u8], &[u8])
    ensures front { result.0.now ≡ front (has c) s.now }
    ensures past { result.1.now ≡ past (has c) s.now }
{
    s.split_at(span(c, s))
}

// What follows the prefix, if the text begins with it.
pub fn strip<'a>(s: &'a [u8], prefix: &[u8]) -> Option<&'a [u8]>
    ensures { option_map (λ x. x.now) result ≡ after prefix.now s.now }
{
    s.strip_prefix(prefix)
}
