// Lines are read, and fields are read of them.
ghost use Rattle.std.specs.Prelude.{◌≡◌, ◌≤◌, ◌==◌, length};
ghost use Rattle.std.specs.List.{suffix_len};
ghost use Rattle.std.specs.Option.{option_map};
ghost use Rattle.octets.specs.Classes.{has};
ghost use Rattle.octets.specs.declared.Class.TheVariants.{Blank};
ghost use Rattle.lines.specs.Lines.{line_then, trim_end, trim, field_of};
ghost use Rattle.lines.specs.NamedLines.{bytes_of};

use crate::line::NamedLine;
use octets::{Class, is_of, split, strip};

fn blanks_at_end(v: &[u8]) -> usize
    ensures is { result ≡ suffix_len (has Blank) v.now }
    ensures within { result ≤ length v.now }
{
    v.iter()
        .rev()
        .take_while(|b| is_of(Class::Blank, **b))
        .count()
}

fn trim_end(v: &[u8]) -> &[u8]
    ensures { result.now ≡ trim_end v.now }
{
    &v[..v.len() - blanks_at_end(v)]
}

fn trim_blank(v: &[u8]) -> &[u8]
    ensures { result.now ≡ trim v.now }
{
    trim_end(split(Class::Blank, v).1)
}

// A line without its end, and what follows.
pub(crate) fn named_line(s: &[u8]) -> Option<(NamedLine<'_>, &[u8])>
    ensures { option_map (λ p. (bytes_of p.0, p.1.now)) result ≡ line_then s.now }
{
    let (name, after) = split(Class::Token, s);
    let (others, end) = split(Class::Text, after);
    let rest = strip(end, b"\r\n")?;
    Some((NamedLine { name, others }, rest))
}

impl<'a> NamedLine<'a> {
    pub(crate) fn is_empty(self) -> bool
        ensures { result ≡ (length (bytes_of self.entry) == 0) }
    {
        self.name.is_empty() && self.others.is_empty()
    }

    // The name and the value of a field.
    pub(crate) fn field(self) -> Option<(&'a [u8], &'a [u8])>
        ensures { option_map (λ p. (p.0.now, p.1.now)) result ≡ field_of (bytes_of self.entry) }
    {
        if self.name.is_empty() {
            return None;
        }
        Some((self.name, trim_blank(strip(self.others, b":")?)))
    }
}
