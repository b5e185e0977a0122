// Decimal numbers without leading zeros, behind a fixed text.
ghost use Rattle.std.specs.Prelude.{◌≡◌, ◌≤◌, ◌++◌, IfSome, decimal};
ghost use Rattle.std.specs.Option.{option_map};
ghost use Rattle.octets.specs.Buffers.{written_from, count_from};
ghost use Rattle.words.specs.Numerals.{numeral, number_after};

use octets::decimal::read_number;
use octets::pieces::put_from;
use octets::small::SmallText;
use octets::{Class, split, strip};

// A number as it is written, if it is at most max: some digits, and no zero before others.
pub fn read_numeral(s: &[u8], max: u64) -> Option<u64>
    ensures is { result ≡ numeral max s.now }
    ensures within { IfSome result (λ n. n ≤ max) }
{
    if s.is_empty() || s[0] == b'0' && s.len() > 1 {
        return None;
    }
    read_number(s, max)
}

// The number behind a text, if it is at most max, and what follows it.
pub fn number_after<'a>(s: &'a [u8], word: &[u8], max: u64) -> Option<(u64, &'a [u8])>
    ensures is { option_map (λ p. (p.0, p.1.now)) result ≡ number_after word.now max s.now }
    ensures within { IfSome result (λ p. p.0 ≤ max) }
{
    let (digits, rest) = split(Class::Digit, strip(s, word)?);
    let n = read_numeral(digits, max)?;
    Some((n, rest))
}

// By name, since a list of pieces has one lifetime for all. Buffer and place are passed on by themselves, as in all that
// writes: of a struct that lends the buffer, nothing is known of its bytes once it is let go.
fn put_both<'a>(out: &mut [u8], from: usize, word: &'a [u8], digits: &'a [u8]) -> Option<usize>
    ensures answer { result ≡ count_from from (word.now ++ digits.now) out.old }
    ensures after { out.new ≡ written_from from (word.now ++ digits.now) out.old }
{
    put_from(out, from, &[word, digits])
}

// Writes a text and a number from a place on, if both fit, and gives the place after them; else nothing.
pub fn put_number(out: &mut [u8], from: usize, word: &[u8], n: u64) -> Option<usize>
    ensures answer { result ≡ count_from from (word.now ++ decimal n) out.old }
    ensures after { out.new ≡ written_from from (word.now ++ decimal n) out.old }
{
    let digits = SmallText::decimal(n);
    put_both(out, from, word, digits.as_bytes())
}
