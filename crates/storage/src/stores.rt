ghost use Rattle.std.specs.Prelude.{◌≡◌, vec_len};

use bounded::text::Text;

mod access;

// What each site keeps, by the site's number.
#[derive(Drop)]
pub struct Stores {
    texts: Vec<Text<4096>>,
    ghost all: { vec_len texts ≡ 16 },
}
