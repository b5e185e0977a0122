// Words: numbers and registers.
ghost use Rattle.std.specs.Prelude.{◌≡◌, ◌≤◌, IfSome};
ghost use Rattle.script_lines.specs.Words.{hex_value, hex_from, decimal_in, char_in, number_in, register_in, is_name};

use octets::decimal::read_number;
use octets::strip;

// What a hexadecimal digit stands for; 16 if it is none. A number and no Option, as in the definition that says what texts mean.
pub(crate) fn hex_value(b: u8) -> u8
    ensures is { result ≡ hex_value b }
    ensures few { result ≤ 16 }
{
    match b {
        b'0'..=b'9' => b - 48,
        b'a'..=b'f' => b - 87,
        b'A'..=b'F' => b - 55,
        _ => 16,
    }
}

// The number that hexadecimal digits write, if it has 32 bits; no digits write 0.
fn read_hex(s: &[u8]) -> Option<u32>
    ensures { result ≡ hex_from 0 s.now }
{
    let mut n: u32 = 0;
    for b in s {
        let d = hex_value(*b);
        if d >= 16 {
            return None;
        }
        n = n.checked_mul(16)?.checked_add(u32::from(d))?;
    }
    Some(n)
}

fn read_decimal(w: &[u8], max: u32) -> Option<u32>
    ensures is { result ≡ decimal_in max w.now }
    ensures within { IfSome result (λ n. n ≤ max) }
{
    if w.is_empty() {
        return None;
    }
    read_number(w, u64::from(max)).map(|n| n as u32)
}

// The byte of a character between quotes.
fn read_char(w: &[u8]) -> Option<u32>
    ensures { result ≡ char_in w.now }
{
    match w {
        [b'\'', b, b'\''] => Some(u32::from(*b)),
        _ => None,
    }
}

// A number: decimal, hexadecimal after `0x`, or a character.
pub(crate) fn number(w: &[u8]) -> Option<u32>
    ensures { result ≡ number_in w.now }
{
    if let Some(n) = read_decimal(w, u32::MAX) {
        return Some(n);
    }
    match strip(w, b"0x") {
        Some([]) => None,
        Some(digits) => read_hex(digits),
        None => read_char(w),
    }
}

pub(crate) fn register(w: &[u8]) -> Option<u32>
    ensures is { result ≡ register_in w.now }
    ensures within { IfSome result (λ n. n ≤ 31) }
{
    read_decimal(strip(w, b"r")?, 31)
}

// Does the word begin as the name of a label does?
pub(crate) fn is_name(w: &[u8]) -> bool
    ensures { result ≡ is_name w.now }
{
    match w {
        [b'a'..=b'z' | b'A'..=b'Z' | b'_', ..] => true,
        _ => false,
    }
}
