// Decimal numbers, read under a bound and written.
ghost use Rattle.std.specs.Prelude.{◌≡◌, ◌≤◌, IfSome};
ghost use Rattle.octets.specs.Numbers.{number};

use crate::{Class, is_of};

// The number that digits write, if it is at most max; no digits write 0.
pub fn read_number(s: &[u8], max: u64) -> Option<u64>
    ensures is { result ≡ number max 0 s.now }
    ensures within { IfSome result (λ n. n ≤ max) }
{
    let mut n: u64 = 0;
    for &d in s {
        if !is_of(Class::Digit, d) {
            return None;
        }
        n = n.checked_mul(10)?.checked_add(u64::from(d - b'0'))?;
        if n > max {
            return None;
        }
    }
    Some(n)
}
