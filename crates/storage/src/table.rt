ghost use Rattle.std.specs.Prelude.{◌≡◌, true, map};
ghost use Rattle.bounded.specs.Fixed.{items_of};
ghost use Rattle.storage.specs.Rows.{all_sites, row_of};

use bounded::fixed::FixedVec;
use bounded::text::Text;

mod access;

// A site of the table. A host has at most 8 labels of 63 bytes, and 7 dots.
#[derive(Clone, Copy)]
struct Row {
    host: Text<511>,
    port: u16,
}

// Hosts and ports of the sites, by number.
#[derive(Clone, Copy)]
pub struct Table {
    rows: FixedVec<Row, 16>,
    ghost sites: { all_sites (map row_of (items_of rows)) ≡ true },
}
