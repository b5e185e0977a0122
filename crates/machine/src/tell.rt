// What another than a browser tells a script, and finds in its registers: servers are played by scripts too.
ghost use Rattle.std.specs.Prelude.{◌≡◌};
ghost use Rattle.machine.specs.Step.{register};
ghost use Rattle.machine.specs.Tells.{waiting, tells};

use crate::{Machine, Status};

impl Machine {
    // A script that waits is told five numbers, and runs from then on. One that runs or has ended is told nothing. Says
    // whether it was told.
    pub fn tell(&mut self, numbers: [u32; 5]) -> bool
        ensures told { result ≡ waiting self.old.status }
        ensures machine { self.new ≡ tells self.old.status numbers self.old }
    {
        match self.status {
            Status::Waiting => {
                self.start(&numbers);
                true
            }
            Status::Running | Status::Ended => false,
        }
    }

    // What a register holds; of one that is not there, 0.
    pub fn register(&self, a: u8) -> u32
        ensures { result ≡ register self.now a }
    {
        self.registers.get(a as usize).copied().unwrap_or(0)
    }
}
