// A turn of a script. Script and memory are lent beside the machine: their owner holds all three, and of a struct that
// lends the memory nothing would be known of its bytes once it is let go.
ghost use Rattle.std.specs.Prelude.{◌≡◌, ◌≤◌, length};
ghost use Rattle.machine.specs.Acts.{Acts};
ghost use Rattle.machine.specs.Script.{state, done_in, action_in, state_after};
ghost use Rattle.machine.specs.Step.{after};
ghost use Rattle.machine.specs.Turn.{bytes_of, room, placed, numbers_told, started, hears, runs, turned, end_of, turn_of};

use crate::{Flow, Machine, OutOfRange, Outcome, Status, Told, limits};
use scripts::Step;

// Copies by way of an array of the caller's own. Clang is not told that `from` and `to` lie apart, and leaves a loop from
// one to the other as it is. That such an array lies apart from both it sees: it makes the two copies one `memmove`, and
// the array is gone.
fn copy_through(held: &mut [u8], from: &[u8], to: &mut [u8])
    requires held { length held.old ≡ length from.now }
    requires to { length to.old ≡ length from.now }
    ensures held { held.new ≡ from.now }
    ensures to { to.new ≡ from.now }
{
    held.copy_from_slice(from);
    to.copy_from_slice(held);
}

// Writes the bytes from the first place on, as far as there is room, and says how many.
fn place(bytes: &[u8], memory: &mut [u8]) -> u32
    ensures count { result ≡ room bytes.now memory.old }
    ensures memory { memory.new ≡ placed bytes.now memory.old }
{
    let n = bytes.len().min(memory.len()).min(4096);
    let mut held = [0; 4096];
    copy_through(&mut held[0..n], &bytes[0..n], &mut memory[0..n]);
    n as u32
}

// Places the bytes that are told, and says what is told of them: kind, length, site and code.
fn place_told(told: Told, bytes: &[u8], memory: &mut [u8]) -> [u32; 4]
    ensures numbers { result ≡ numbers_told told bytes.now memory.old }
    ensures memory { memory.new ≡ placed (bytes_of told bytes.now) memory.old }
{
    match told {
        Told::Silence => [0, 0, 0, 0],
        Told::Begun => [1, place(bytes, memory), 0, 0],
        Told::Answer { site, code } => [2, place(bytes, memory), site, code],
        Told::Barred { site } => [3, 0, site, 0],
        Told::Heard { site } => [4, place(bytes, memory), site, 0],
        Told::Kept => [5, place(bytes, memory), 0, 0],
    }
}

impl Machine {
    // The numbers are in the first registers, and the script runs.
    pub(crate) fn start(&mut self, numbers: &[u32])
        requires { length numbers.now ≤ 5 }
        ensures { self.new ≡ started numbers.now self.old }
    {
        self.registers[..numbers.len()].copy_from_slice(numbers);
        self.status = Status::Running;
    }

    fn hear(&mut self, told: Told, bytes: &[u8], memory: &mut [u8])
        ensures machine { self.new ≡ hears told bytes.now self.old memory.old }
        ensures memory { memory.new ≡ placed (bytes_of told bytes.now) memory.old }
    {
        let numbers = place_told(told, bytes, memory);
        self.start(&numbers);
    }

    // Up to so many steps: until a wait or a fault.
    fn run(&mut self, script: &[Step], memory: &mut [u8], most: u32) -> Flow
        ensures { after result self.new memory.new ≡ runs script.now most self.old memory.old }
    {
        // How the run went is the loop's value, so each way out of it is a `break`.
        let mut left = most;
        'steps: loop {
            if left == 0 {
                break 'steps Ok(None);
            }
            left -= 1;
            if let Some(act) = self.step(script, memory)? {
                break 'steps Ok(Some(act));
            }
        }
    }

    // Runs on, and says what came of it.
    fn go(&mut self, script: &[Step], sites: u32, memory: &mut [u8]) -> Outcome
        ensures turn { turned result self.new memory.new ≡ end_of sites (runs script.now 10000 self.old memory.old) }
        ensures acts { Acts result sites script.now self.new memory.new }
    {
        match self.run(script, memory, 10_000) {
            Ok(None) => Outcome::Paused,
            Ok(Some(act)) => {
                self.status = Status::Waiting;
                if limits::allows(act, sites, memory) {
                    Outcome::Did(act)
                } else {
                    Outcome::Refused
                }
            }
            Err(OutOfRange) => {
                self.status = Status::Ended;
                Outcome::Faulted
            }
        }
    }

    // One turn of a script, where so many sites are named. It is told something, with bytes, if it waits.
    pub fn turn(
        &mut self,
        script: &[Step],
        sites: u32,
        told: Told,
        bytes: &[u8],
        memory: &mut [u8],
    ) -> Outcome
        ensures turn { turned result self.new memory.new ≡ turn_of sites script.now told bytes.now self.old memory.old }
        ensures action { done_in result memory.new ≡ action_in sites (state self.old memory.old script.now) told bytes.now }
        ensures state { state self.new memory.new script.now ≡ state_after sites (state self.old memory.old script.now) told bytes.now }
        ensures acts { Acts result sites script.now self.new memory.new }
    {
        match self.status {
            Status::Ended => return Outcome::Idle,
            Status::Running => {}
            Status::Waiting => self.hear(told, bytes, memory),
        }
        self.go(script, sites, memory)
    }
}
