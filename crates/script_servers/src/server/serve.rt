// A request is answered.
ghost use Rattle.std.specs.Prelude.{◌≡◌, [], length};
ghost use Rattle.octets.specs.Buffers.{written};
ghost use Rattle.machine.specs.Script.{initial, turn_from};
ghost use Rattle.machine.specs.declared.Told.TheVariants.{Silence};
ghost use Rattle.scripts.specs.Scripts.{steps_of};
ghost use Rattle.script_servers.specs.Rooms.{taken};
ghost use Rattle.script_servers.specs.Serving.{player, ran_on, serves};
ghost use Rattle.script_servers.specs.Views.{state_of, sites_of};

use super::Server;
use super::hear::kind_of;
use addresses::Site;
use machine::{Machine, Outcome, Told};
use requests::read_request;
use scripts::Script;

impl Server {
    // A server whose script has not begun.
    pub(crate) fn new(script: Script) -> Server
        ensures { state_of result ≡ initial (steps_of script) }
    {
        Server {
            script,
            machine: Machine::new(),
            memory: [0; 4096],
        }
    }

    // Runs on until the script waits, faults, or has done 10,000 steps.
    fn run(&mut self) -> Outcome
        ensures outcome { result ≡ (turn_from 0 (state_of self.old) Silence []).outcome }
        ensures after { state_of self.new ≡ ran_on (state_of self.old) }
    {
        self.machine.turn(self.script.steps(), 0, Told::Silence, &[], &mut self.memory)
    }

    // Answers a request, at the front of the room; a request that can't be read is not answered.
    pub(crate) fn serve(&mut self, sites: &[Site<'_>], request: &[u8], room: &mut [u8]) -> usize
        ensures count { result ≡ taken (serves request.now (player (sites_of sites.now) (state_of self.old))).0 room.old }
        ensures room { room.new ≡ written (serves request.now (player (sites_of sites.now) (state_of self.old))).0 room.old }
        ensures after { player (sites_of sites.now) (state_of self.new) ≡ (serves request.now (player (sites_of sites.now) (state_of self.old))).1 }
    {
        let Ok(request) = read_request(request) else {
            return 0;
        };
        self.hear(sites, request);
        let outcome = self.run();
        self.reply(outcome, &*sites, kind_of(request), room)
    }
}
