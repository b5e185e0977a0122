// The second half of an event.
ghost use Rattle.std.specs.Prelude.{◌≡◌};
ghost use Rattle.std.specs.Option.{option_map};
ghost use Rattle.browser.specs.Ends.{request_of, finished, server_outs_of, faults_of, request_written, request_count};
ghost use Rattle.browser.specs.Parts.{part_of, sites_in};
ghost use Rattle.browser.specs.Values.{outs_of};

use super::{Finished, Pending};
use crate::browser::replies::Replied;
use requests::write::write_request;

impl Pending {
    // The site whose server is asked, if one is.
    pub fn asks(&self) -> Option<u8>
        ensures { result ≡ option_map (λ q. q.site) (request_of self.now) }
    {
        self.need.map(|need| need.site.number())
    }

    // Writes the request to the front of the room, and says how long it is.
    pub fn request(&self, room: &mut [u8]) -> Option<usize>
        ensures count { result ≡ request_count (sites_in self.now.browser) (request_of self.now) room.old }
        ensures room { room.new ≡ request_written (sites_in self.now.browser) (request_of self.now) room.old }
    {
        let need = self.need.as_ref()?;
        write_request(room, self.browser.asking(need))
    }

    // Takes the bytes of the answer, which say nothing where no server was asked, and gives the browser back.
    pub fn finish(self, answer: &[u8]) -> Finished
        ensures part { part_of result.browser ≡ finished (sites_in self.browser) self.window (request_of self) answer.now (part_of self.browser) }
        ensures page { result.page ≡ self.out }
        ensures server { outs_of result.server ≡ server_outs_of (sites_in self.browser) (request_of self) answer.now }
        ensures fault { result.fault ≡ faults_of self.fault (request_of self) answer.now }
        ensures sites { sites_in result.browser ≡ sites_in self.browser }
    {
        let Pending {
            mut browser,
            window,
            need,
            out,
            fault,
        } = self;
        let Replied { out: server, fault } = match need {
            Some(need) => browser.reply(window as usize, &need, answer),
            None => Replied { out: None, fault },
        };
        Finished {
            browser,
            page: out,
            server,
            fault,
        }
    }
}
