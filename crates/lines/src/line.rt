// A line whose front may be a name: a name's bytes are bytes of a line, so they are looked at once.
ghost use Rattle.std.specs.Prelude.{◌≡◌, ◌++◌};
ghost use Rattle.octets.specs.Classes.{has};
ghost use Rattle.octets.specs.Fronts.{front, past};
ghost use Rattle.octets.specs.declared.Class.TheVariants.{Token};

pub(crate) mod parts;

// The bytes of a name at the front of a line, and the others.
#[derive(Clone, Copy)]
pub(crate) struct NamedLine<'a> {
    name: &'a [u8],
    others: &'a [u8],
    ghost front: { name.now ≡ front (has Token) (name.now ++ others.now) },
    ghost past: { others.now ≡ past (has Token) (name.now ++ others.now) },
}
