// Windows are compared by what they stand for.
ghost use Rattle.std.specs.Prelude.{◌≡◌, Decides};
ghost use Rattle.std.specs.Ordering.{on};
ghost use Rattle.std.specs.Cmp.Rules.{comparing};
ghost use Rattle.std.proofs.Common.{rules};
ghost use Rattle.machine.specs.Turn.{bytes_of};
ghost use Rattle.bounded.specs.Texts.{text_of};
ghost use Rattle.windows.specs.Scripts.{told_of};
ghost use Rattle.windows.specs.Same.{same_told, same_windows};
ghost use Rattle.windows.specs.Windows.{window_of};

use super::Window;
use bounded::text::Text;
use machine::Told;

// The bytes that go with what is told: none with silence, or with an answer that may not be seen.
fn bytes_told(told: Told, bytes: &Text<4096>) -> &[u8]
    ensures { result.now ≡ bytes_of told (text_of bytes.now) }
{
    match told {
        Told::Silence | Told::Barred { site: _ } => &[],
        Told::Begun | Told::Answer { site: _, code: _ } | Told::Heard { site: _ } | Told::Kept =>
            bytes.as_slice(),
    }
}

// Is the same told, with the same bytes? What stands in bytes that nobody is told of is no matter, so it is not `==`.
fn same_told(a: Told, x: &Text<4096>, b: Told, y: &Text<4096>) -> bool
    ensures { result ≡ same_told (told_of a (text_of x.now)) (told_of b (text_of y.now)) }
{
    a == b && bytes_told(a, x) == bytes_told(b, y)
}

// By hand: a derive would compare bytes that nobody is told of.
impl PartialEq for Window {
    ghost eq = { on window_of same_windows };

    ghost laws = { Prim.search (comparing, rules) depth 12 };

    fn eq(&self, other: &Window) -> bool
        ensures is { result ≡ on window_of same_windows self.now other.now }
        ensures same { Decides result (window_of self.now ≡ window_of other.now) }
    {
        self.site == other.site
            && self.process == other.process
            && same_told(self.own, &self.bytes, other.own, &other.bytes)
            && self.queue == other.queue
    }
}
