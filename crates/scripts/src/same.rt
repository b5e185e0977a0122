// Steps and scripts are compared. Two steps are one where their bytes are, since a step's bytes are read as that step.
ghost use Rattle.std.specs.Prelude.{◌≡◌, Decides};
ghost use Rattle.scripts.specs.Scripts.{steps_of};
ghost use Rattle.scripts.specs.Same.{same_steps};
ghost use Rattle.std.specs.Ordering.{on};
ghost use Rattle.std.specs.Cmp.Lexicographic.{pointwise};
ghost use Rattle.std.specs.Cmp.Rules.{comparing};
ghost use Rattle.std.proofs.Common.{rules};

use crate::script::Script;
use crate::{Step, encode};

// By hand: a derive carries no clause, and what `==` decides is promised.
impl PartialEq for Step {
    ghost eq = { same_steps };

    ghost laws = { Prim.search (comparing, rules) };

    fn eq(&self, other: &Step) -> bool
        ensures is { result ≡ same_steps self.now other.now }
        ensures same { Decides result (self.now ≡ other.now) }
    {
        let a = encode::step(*self);
        let b = encode::step(*other);
        a == b
    }
}

// By what both hold: the places behind a script's count are no part of it.
impl PartialEq for Script {
    ghost eq = { on steps_of (pointwise same_steps) };

    ghost laws = { Prim.search (comparing, rules) };

    fn eq(&self, other: &Script) -> bool
        ensures is { result ≡ on steps_of (pointwise same_steps) self.now other.now }
        ensures same { Decides result (steps_of self.now ≡ steps_of other.now) }
    {
        let a = self.steps();
        let b = other.steps();
        a == b
    }
}
