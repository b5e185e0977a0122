// Bytes in hex, two small digits a byte, behind a fixed text.
ghost use Rattle.std.specs.Prelude.{◌≡◌, ◌/◌, ◌%◌, ◌<◌, true, [], ◌∷◌, ◌++◌};
ghost use Rattle.std.specs.Option.{option_map};
ghost use Rattle.octets.specs.Buffers.{written_from, count_from};
ghost use Rattle.bounded.specs.Texts.{text_of};
ghost use Rattle.words.specs.Hex.{hex_digit, hex_of, is_hex, hex_value, AllBytes, pair_then, hex_within, bytes_after};

use bounded::text::Text;
use octets::strip;

// By hand: `char::from_digit` gives a char, of which a byte would have to be made.
fn digit(n: u8) -> u8
    requires { n < 16 }
    ensures { result ≡ hex_digit n }
{
    if n < 10 { b'0' + n } else { b'a' - 10 + n }
}

fn pair_of(b: u8) -> [u8; 2]
    ensures { result ≡ hex_digit (b / 16) ∷ (hex_digit (b % 16) ∷ []) }
{
    [digit(b / 16), digit(b % 16)]
}

fn is_hex(d: u8) -> bool
    ensures { result ≡ is_hex d }
{
    matches!(d, b'0'..=b'9' | b'a'..=b'f')
}

fn value_of(d: u8) -> u8
    requires { is_hex d ≡ true }
    ensures is { result ≡ hex_value d }
    ensures small { result < 16 }
{
    if d <= b'9' { d - b'0' } else { d - (b'a' - 10) }
}

// A byte of two digits, and what follows them.
fn pair_then(s: &[u8]) -> Option<(u8, &[u8])>
    ensures { option_map (λ p. (p.0, p.1.now)) result ≡ pair_then s.now }
{
    let [high, low, ..] = s else {
        return None;
    };
    if !is_hex(*high) || !is_hex(*low) {
        return None;
    }
    let (_, rest) = s.split_at(2);
    Some((16 * value_of(*high) + value_of(*low), rest))
}

// The bytes of the pairs of digits at the front, if they are at most N, and what follows them.
fn bytes_then<const N: usize>(s: &[u8]) -> Option<(Text<N>, &[u8])>
    ensures { option_map (λ p. (text_of p.0, p.1.now)) result ≡ hex_within N s.now }
{
    let mut text = Text::empty();
    let mut rest = s;
    while let Some((b, next)) = pair_then(rest) {
        text.push(b)?;
        rest = next;
    }
    Some((text, rest))
}

// The bytes behind a text, if they are at most N, and what follows them.
pub(crate) fn bytes_after<'a, const N: usize>(
    s: &'a [u8],
    word: &[u8],
) -> Option<(Text<N>, &'a [u8])>
    ensures { option_map (λ p. (text_of p.0, p.1.now)) result ≡ bytes_after word.now N s.now }
{
    bytes_then(strip(s, word)?)
}

// Writes a text and bytes in hex from a place on, if both fit, and gives the place after them; else nothing.
pub fn put_bytes(out: &mut [u8], from: usize, word: &[u8], bytes: &[u8]) -> Option<usize>
    ensures answer { result ≡ count_from from (word.now ++ hex_of bytes.now) out.old }
    ensures after { out.new ≡ written_from from (word.now ++ hex_of bytes.now) out.old }
    ensures bytes { AllBytes bytes.now }
{
    let room = out.len().checked_sub(from)?;
    if word.len() > room || bytes.len() > (room - word.len()) / 2 {
        return None;
    }
    // By place, two digits for each byte: of a slice that `chunks_exact_mut` lends piece by piece, a proof knows no more
    // than the length.
    let mut at = from + word.len();
    out[from..at].copy_from_slice(word);
    for b in bytes {
        out[at..at + 2].copy_from_slice(&pair_of(*b));
        at += 2;
    }
    Some(at)
}
