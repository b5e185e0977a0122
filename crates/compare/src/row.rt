// Rows of windows, compared window by window.
ghost use Rattle.std.specs.Prelude.{[], ◌∷◌, map, Decides};
ghost use Rattle.bounded.specs.Numbers.{number_of};
ghost use Rattle.pages.specs.Promise.{only};
ghost use Rattle.windows.specs.Windows.{window_of};
ghost use Rattle.compare.specs.Alike.{AlikeWindows};
ghost use Rattle.compare.specs.Answers.{WindowFound};

use bounded::site::SiteNumber;
use windows::Window;

// Two windows of one site: they may differ only if they are of the site that is left out.
fn alike_windows(one: &Window, two: &Window, but: SiteNumber) -> bool
    ensures { Decides result (AlikeWindows (only (number_of but)) (window_of one.now ∷ []) (window_of two.now ∷ [])) }
{
    one.site() == two.site() && (one.site() == but || *one == *two)
}

// The number of the first window that differs, or that one of them lacks.
pub(crate) fn first_window(one: &[Window], two: &[Window], but: SiteNumber) -> Option<usize>
    ensures { WindowFound (only (number_of but)) (map window_of one.now) (map window_of two.now) result }
{
    let mut pairs = one.iter().zip(two);
    if let Some(place) = pairs.position(|(x, y)| !alike_windows(x, y, but)) {
        return Some(place);
    }
    if one.len() != two.len() {
        return Some(one.len().min(two.len()));
    }
    None
}
