// The parts of an address: labels and hosts, and ports.
ghost use Rattle.std.specs.Prelude.{◌≡◌};
ghost use Rattle.std.specs.Option.{option_map};
ghost use Rattle.addresses.specs.Address.{label_ok, labels, port, port_then};

use octets::decimal::read_number;
use octets::{Class, split, strip};

fn is_label(l: &[u8]) -> bool
    ensures { result ≡ label_ok l.now }
{
    !l.is_empty() && l.len() <= 63 && !l.starts_with(b"-") && !l.ends_with(b"-")
}

// 1 to 8 labels with dots between.
pub(crate) fn is_host(s: &[u8]) -> bool
    ensures { result ≡ labels 8 s.now }
{
    let mut rest = s;
    for _k in 0..8u8 {
        let (label, end) = split(Class::Label, rest);
        if !is_label(label) {
            return false;
        }
        let Some(next) = strip(end, b".") else {
            return end.is_empty();
        };
        rest = next;
    }
    false
}

fn read_port(s: &[u8]) -> Option<u16>
    ensures { result ≡ port s.now }
{
    if s.is_empty() || s[0] == b'0' {
        return None;
    }
    read_number(s, u64::from(u16::MAX)).map(|n| n as u16)
}

// The port after a colon, or 443, and what follows.
pub(crate) fn port_then(s: &[u8]) -> Option<(u16, &[u8])>
    ensures { option_map (λ p. (p.0, p.1.now)) result ≡ port_then s.now }
{
    let Some(t) = strip(s, b":") else {
        return Some((443, s));
    };
    let (digits, rest) = split(Class::Digit, t);
    Some((read_port(digits)?, rest))
}
