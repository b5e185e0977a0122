// A script that runs.
ghost use Rattle.std.specs.Prelude.{◌≡◌, Decides};
ghost use Rattle.std.specs.Ordering.{on};
ghost use Rattle.std.specs.Cmp.Rules.{comparing};
ghost use Rattle.std.proofs.Common.{rules};
ghost use Rattle.machine.specs.Limits.{part};
ghost use Rattle.machine.specs.Same.{same_states};
ghost use Rattle.machine.specs.Script.{initial, done_in};
ghost use Rattle.scripts.specs.Scripts.{steps_of};
ghost use Rattle.pages.specs.Browser.{named};
ghost use Rattle.windows.specs.Scripts.{told_of, act_by, act_in, outcome_in, state_in, InLimits};
ghost use Rattle.windows.specs.Windows.{state_of};

use machine::{Machine, Outcome, Span, Told};
use scripts::Script;

// A script, which stays the same, with its machine and its memory. A server made of a script holds these three as well;
// a struct for both, in a crate below, would lay machine and memory open to both crates.
#[derive(Clone, Copy)]
pub(crate) struct Process {
    script: Script,
    machine: Machine,
    memory: [u8; 4096],
}

impl Process {
    pub(crate) fn new(script: Script) -> Process
        ensures { state_of result ≡ initial (steps_of script) }
    {
        Process {
            script,
            machine: Machine::new(),
            memory: [0; 4096],
        }
    }

    // The script's turn, where so many sites are named.
    pub(crate) fn turn(&mut self, sites: u32, told: Told, bytes: &[u8]) -> Outcome
        ensures outcome { result ≡ outcome_in sites (state_of self.old) (told_of told bytes.now) }
        ensures state { state_of self.new ≡ state_in sites (state_of self.old) (told_of told bytes.now) }
        ensures act { act_by (done_in result (state_of self.new).memory) ≡ named sites (act_in sites (state_of self.old) (told_of told bytes.now)) }
        ensures limits { InLimits sites (act_by (done_in result (state_of self.new).memory)) }
    {
        self.machine
            .turn(self.script.steps(), sites, told, bytes, &mut self.memory)
    }

    // The part of the memory that a span names, as far as it lies in the memory.
    pub(crate) fn bytes(&self, span: Span) -> &[u8]
        ensures { result.now ≡ part span (state_of self.now).memory }
    {
        let from = (span.from as usize).min(4096);
        let end = (from + span.len as usize).min(4096);
        &self.memory[from..end]
    }
}

// By hand: a derive carries no clause, and the equality is that of the states.
impl PartialEq for Process {
    ghost eq = { on state_of same_states };

    ghost laws = { Prim.search (comparing, rules) depth 12 };

    fn eq(&self, other: &Process) -> bool
        ensures is { result ≡ on state_of same_states self.now other.now }
        ensures same { Decides result (state_of self.now ≡ state_of other.now) }
    {
        self.machine == other.machine && self.script == other.script && self.memory == other.memory
    }
}
