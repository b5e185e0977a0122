// The machine as a static library, for timing it beside the same interpreter in Rust.
#![tactic(auto)]

ghost use Rattle.std.specs.Prelude.{◌≡◌, ◌≤◌};
ghost use Rattle.machine_export.specs.Plays.{counts, played, plays, Ran};
ghost use Rattle.scripts.specs.Page.{page_in};

use machine::{Machine, Outcome, Told};
use scripts::{Script, Step};

// 1 for a turn in which something is done.
fn count(outcome: Outcome) -> u32
    ensures value { result ≡ counts outcome }
    ensures small { result ≤ 1 }
{
    u32::from(matches!(outcome, Outcome::Did(_)))
}

// So many turns, each told the same; says in how many something was done.
fn play(machine: &mut Machine, script: &[Step], turns: u32, bytes: &[u8], memory: &mut [u8]) -> u32
    ensures { played result machine.new memory.new ≡ plays turns script.now bytes.now (played 0 machine.old memory.old) }
{
    let mut done = 0;
    // A loop: a closure that is summed up would lend machine and memory.
    for i in 0..turns {
        done += count(machine.turn(script, 16, Told::Heard { site: 0 }, bytes, memory));
    }
    done
}

// Runs a page for so many turns; 2^32 - 1 where it cannot be read.
#[unsafe(no_mangle)]
pub extern "C" fn machine_play(page: &[u8], turns: u32, bytes: &[u8], memory: &mut [u8]) -> u32
    ensures { Ran (page_in page.now) turns bytes.now memory.old result memory.new }
{
    let Ok(script) = Script::read(page) else {
        return u32::MAX;
    };
    let mut machine = Machine::new();
    play(&mut machine, script.steps(), turns, bytes, memory)
}
