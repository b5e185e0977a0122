// Where two browsers differ, but for what is of one site.
ghost use Rattle.std.specs.Prelude.{not, is_some, Decides};
ghost use Rattle.bounded.specs.Numbers.{number_of};
ghost use Rattle.browser.specs.Parts.{part_of};
ghost use Rattle.pages.specs.Promise.{only};
ghost use Rattle.compare.specs.Alike.{AlikeParts};
ghost use Rattle.compare.specs.Answers.{Found};

use crate::by_site::first_apart;
use crate::row::first_window;
use bounded::site::SiteNumber;
use browser::browser::Browser;

// The first window, token or store that differs: a window by its number, the others by their site.
#[derive(Clone, Copy)]
pub enum Difference {
    Windows { first: usize },
    Tokens { site: SiteNumber },
    Stores { site: SiteNumber },
}

// Windows are compared first, then tokens, then stores.
pub fn find_difference(one: &Browser, two: &Browser, but: SiteNumber) -> Option<Difference>
    ensures alike { Decides (not (is_some result)) (AlikeParts (only (number_of but)) (part_of one.now) (part_of two.now)) }
    ensures first { Found (only (number_of but)) (part_of one.now) (part_of two.now) result }
{
    if let Some(first) = first_window(one.windows(), two.windows(), but) {
        return Some(Difference::Windows { first });
    }
    if let Some(site) = first_apart(one.tokens(), two.tokens(), but) {
        return Some(Difference::Tokens { site });
    }
    if let Some(site) = first_apart(one.stores(), two.stores(), but) {
        return Some(Difference::Stores { site });
    }
    None
}
