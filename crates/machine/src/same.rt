// Machines are compared.
ghost use Rattle.std.specs.Prelude.{◌≡◌, Decides};
ghost use Rattle.machine.specs.Same.{same_machines};
ghost use Rattle.std.specs.Cmp.Rules.{comparing};
ghost use Rattle.std.proofs.Common.{rules};

use crate::Machine;

// By hand: a derive carries no clause, and what `==` decides is promised.
impl PartialEq for Machine {
    ghost eq = { same_machines };

    ghost laws = { Prim.search (comparing, rules) };

    fn eq(&self, other: &Machine) -> bool
        ensures is { result ≡ same_machines self.now other.now }
        ensures same { Decides result (self.now ≡ other.now) }
    {
        self.next == other.next && self.status == other.status && self.registers == other.registers
    }
}
