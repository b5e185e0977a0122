// Servers are compared.
ghost use Rattle.std.specs.Prelude.{◌≡◌, Decides};
ghost use Rattle.std.specs.Ordering.{on};
ghost use Rattle.std.specs.Cmp.Rules.{comparing};
ghost use Rattle.std.proofs.Common.{rules};
ghost use Rattle.machine.specs.Same.{same_states};
ghost use Rattle.script_servers.specs.Views.{state_of};

use super::Server;

// By hand: a derive carries no clause, and the equality is that of the states.
impl PartialEq for Server {
    ghost eq = { on state_of same_states };

    ghost laws = { Prim.search (comparing, rules) depth 12 };

    fn eq(&self, other: &Server) -> bool
        ensures is { result ≡ on state_of same_states self.now other.now }
        ensures same { Decides result (state_of self.now ≡ state_of other.now) }
    {
        self.machine == other.machine && self.script == other.script && self.memory == other.memory
    }
}
