ghost use Rattle.std.specs.Prelude.{◌≡◌, length};

use bounded::text::Text;

mod access;

// One token per site, if its server set one. None is not the empty one. By value: no memory is claimed.
#[derive(Clone, Copy)]
pub struct Tokens {
    tokens: [Option<Text<64>>; 16],
    ghost all: { length tokens ≡ 16 },
}
