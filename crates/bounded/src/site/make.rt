// Numbers of sites are made of any number that is small enough.
ghost use Rattle.std.specs.Prelude.{◌≡◌, ◌<◌, Decides};
ghost use Rattle.std.specs.Option.{option_map};
ghost use Rattle.std.specs.Ordering.{on};
ghost use Rattle.std.specs.Bool.{nat_eq};
ghost use Rattle.std.specs.Cmp.Rules.{comparing};
ghost use Rattle.std.proofs.Common.{rules};
ghost use Rattle.bounded.specs.Numbers.{number_of, below};

use crate::site::SiteNumber;

impl SiteNumber {
    // The site of this number, if it is below 16. As `NonZero::new` it answers an Option: there is no error to name.
    pub fn new(n: u32) -> Option<SiteNumber>
        ensures { option_map number_of result ≡ below 16 n }
    {
        if n >= 16 {
            return None;
        }
        Some(SiteNumber { number: n as u8 })
    }

    // By name: `u8::from(site)` would not say that it is the number.
    pub fn number(self) -> u8
        ensures is { result ≡ number_of self }
        ensures small { result < 16 }
    {
        self.number
    }
}

// By hand: a derive carries no clause, and what `==` decides is promised.
impl PartialEq for SiteNumber {
    ghost eq = { on number_of nat_eq };

    ghost laws = { Prim.search (comparing, rules) };

    fn eq(&self, other: &SiteNumber) -> bool
        ensures is { result ≡ on number_of nat_eq self.now other.now }
        ensures same { Decides result (number_of self.now ≡ number_of other.now) }
    {
        other.number == self.number
    }
}

impl Eq for SiteNumber {
    ghost laws = { Prim.search (comparing, rules) };
}
