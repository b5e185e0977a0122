// Texts are made of slices and read as slices.
ghost use Rattle.std.specs.Prelude.{◌≡◌, ◌≤◌, [], ◌∷◌, ◌++◌, length, IfNone, is_some, if◌then◌else◌, nat_le, Decides};
ghost use Rattle.std.specs.Option.{option_map};
ghost use Rattle.std.specs.Ordering.{on};
ghost use Rattle.std.specs.Bool.{nat_eq};
ghost use Rattle.std.specs.Cmp.Lexicographic.{pointwise};
ghost use Rattle.std.specs.Cmp.Rules.{comparing};
ghost use Rattle.std.proofs.Common.{rules};
ghost use Rattle.bounded.specs.Texts.{text_of, at_most};

use crate::fixed::FixedVec;
use crate::text::Text;

impl<const N: usize> Text<N> {
    pub fn empty() -> Text<N>
        ensures { text_of result ≡ [] }
    {
        Text {
            bytes: FixedVec::empty(0),
        }
    }

    // These bytes, if they are not too many: there is no error to name beside that.
    pub fn new(part: &[u8]) -> Option<Text<N>>
        ensures { option_map text_of result ≡ at_most N part.now }
    {
        let bytes = FixedVec::from_slice(part, 0)?;
        Some(Text { bytes })
    }

    // These bytes in place of those that were here, if they are not too many; else nothing.
    pub fn assign(&mut self, part: &[u8]) -> Option<()>
        ensures is { is_some result ≡ nat_le (length part.now) N }
        ensures after { text_of self.new ≡ (if nat_le (length part.now) N then part.now else text_of self.old) }
        ensures stays { IfNone result (self.new ≡ self.old) }
    {
        self.bytes.assign(part)
    }

    // One byte more at the end, if there is room for it; else nothing.
    pub fn push(&mut self, b: u8) -> Option<()>
        ensures is { option_map (λ _. text_of self.new) result ≡ at_most N (text_of self.old ++ (b ∷ [])) }
        ensures stays { IfNone result (self.new ≡ self.old) }
    {
        self.bytes.push(b)?;
        Some(())
    }

    pub fn as_slice(&self) -> &[u8]
        ensures is { result.now ≡ text_of self.now }
        ensures short { length result.now ≤ N }
    {
        self.bytes.as_slice()
    }
}

// By hand: a derive carries no clause, and what `==` decides is promised.
impl<const N: usize> PartialEq for Text<N> {
    ghost eq = { on text_of (pointwise nat_eq) };

    ghost laws = { Prim.search (comparing, rules) };

    fn eq(&self, other: &Text<N>) -> bool
        ensures is { result ≡ on text_of (pointwise nat_eq) self.now other.now }
        ensures same { Decides result (text_of self.now ≡ text_of other.now) }
    {
        self.as_slice() == other.as_slice()
    }
}

impl<const N: usize> Eq for Text<N> {
    ghost laws = { Prim.search (comparing, rules) };
}
