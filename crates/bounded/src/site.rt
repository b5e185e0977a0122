ghost use Rattle.std.specs.Prelude.{◌<◌};

mod make;

// The number of a site: there are at most 16.
#[derive(Clone, Copy)]
pub struct SiteNumber {
    number: u8,
    ghost known: { number < 16 },
}
