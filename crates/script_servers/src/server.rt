// One server.
use machine::Machine;
use scripts::Script;

mod compare;
mod hear;
mod reply;
mod serve;

// A server's script, its machine and its memory. A window's process holds these three as well; a struct for both, in a
// crate below, would lay machine and memory open to both crates.
#[derive(Clone, Copy)]
pub struct Server {
    script: Script,
    machine: Machine,
    memory: [u8; 4096],
}
