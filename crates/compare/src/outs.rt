// What is let out is compared by what it stands for.
ghost use Rattle.std.specs.Prelude.{◌≡◌, ◌++◌, Decides};
ghost use Rattle.std.specs.Option.{option_map};
ghost use Rattle.browser.specs.Values.{outs_of};

use browser::values::Out;

// Nothing, or the same. A function of its own, to say by its contract what the comparison decides.
fn same_place(a: Option<&Out>, b: Option<&Out>) -> bool
    ensures { Decides result (outs_of (option_map (λ x. x.now) a.entry) ≡ outs_of (option_map (λ x. x.now) b.entry)) }
{
    a == b
}

// At most two things on each side, as lists: what stands first, and what stands second.
pub(crate) fn same_lists(a: Option<&Out>, b: Option<&Out>, c: Option<&Out>, d: Option<&Out>) -> bool
    ensures { Decides result (outs_of (option_map (λ x. x.now) a.entry) ++ outs_of (option_map (λ x. x.now) b.entry) ≡ outs_of (option_map (λ x. x.now) c.entry) ++ outs_of (option_map (λ x. x.now) d.entry)) }
{
    same_place(a.or(b), c.or(d)) && same_place(a.and(b), c.and(d))
}
