// What a script answers, by its registers.
ghost use Rattle.std.specs.Prelude.{◌≡◌};
ghost use Rattle.std.specs.Option.{option_map};
ghost use Rattle.octets.specs.Buffers.{written};
ghost use Rattle.script_servers.specs.Replies.{part_at, code_by, allows_by, token_by, content_at, text_by, raw_by, reply_at, reply_by};
ghost use Rattle.answers.specs.Views.{content_of, allows_by as allows_of};
ghost use Rattle.script_servers.specs.Rooms.{taken};
ghost use Rattle.script_servers.specs.Views.{state_of, sites_of};

use super::Server;
use addresses::Site;
use answers::write::write_answer;
use answers::{Allowed, Kind, Response};
use machine::{Act, Outcome};
use octets::pieces::put_all;

fn code_by(n: u32) -> Option<u16>
    ensures { result ≡ code_by n }
{
    if n > 999 {
        return None;
    }
    Some(n as u16)
}

fn token_by(len: u32, bytes: Option<&[u8]>) -> Option<Option<&[u8]>>
    ensures { option_map (option_map (λ x. x.now)) result ≡ token_by len (option_map (λ x. x.now) bytes.entry) }
{
    if len > 64 {
        return Some(None);
    }
    bytes.map(Some)
}

// Whom an answer allows: 16 is nobody, 17 everybody, and another number is a site's.
fn allowed_by<'a>(sites: &'a [Site<'a>], n: u32) -> Option<Option<Allowed<'a>>>
    ensures { option_map (option_map allows_of) result ≡ allows_by (sites_of sites.now) n }
{
    match n {
        16 => Some(None),
        17 => Some(Some(Allowed::Everybody)),
        _ => Some(Some(Allowed::Site(*sites.get(n as usize)?))),
    }
}

impl Server {
    // The bytes that registers a and a + 1 name, where they lie in the memory.
    fn part(&self, a: u8) -> Option<&[u8]>
        ensures { option_map (λ x. x.now) result ≡ part_at (state_of self.now) a }
    {
        let span = self.machine.span(a, self.memory.len()).ok()?;
        let from = span.from as usize;
        Some(&self.memory[from..from + span.len as usize])
    }

    fn content<'s>(&'s self, sites: &'s [Site<'s>]) -> Option<Response<'s>>
        ensures { option_map content_of result ≡ content_at (sites_of sites.now) (state_of self.now) }
    {
        Some(Response {
            code: code_by(self.machine.register(9))?,
            allowed: allowed_by(sites, self.machine.register(10))?,
            body: self.part(11)?,
            token: token_by(self.machine.register(14), self.part(13))?,
        })
    }

    fn answer<'s>(&'s self, sites: &'s [Site<'s>], kind: Kind, room: &mut [u8]) -> usize
        ensures count { result ≡ taken (text_by kind (content_at (sites_of sites.now) (state_of self.now))) room.old }
        ensures room { room.new ≡ written (text_by kind (content_at (sites_of sites.now) (state_of self.now))) room.old }
    {
        let Some(content) = self.content(sites) else {
            return 0;
        };
        write_answer(room, kind, content).unwrap_or(0)
    }

    fn raw(&self, room: &mut [u8]) -> usize
        ensures count { result ≡ taken (raw_by (part_at (state_of self.now) 11)) room.old }
        ensures room { room.new ≡ written (raw_by (part_at (state_of self.now) 11)) room.old }
    {
        let Some(bytes) = self.part(11) else {
            return 0;
        };
        put_all(room, &[bytes]).unwrap_or(0)
    }

    // Writes what came of a turn.
    pub(crate) fn reply<'s>(
        &'s self,
        outcome: Outcome,
        sites: &'s [Site<'s>],
        kind: Kind,
        room: &mut [u8],
    ) -> usize
        ensures count { result ≡ taken (reply_by outcome (sites_of sites.now) kind (state_of self.now)) room.old }
        ensures room { room.new ≡ written (reply_by outcome (sites_of sites.now) kind (state_of self.now)) room.old }
    {
        let Outcome::Did(Act::Nothing) = outcome else {
            return 0;
        };
        match self.machine.register(8) {
            6 => self.answer(sites, kind, room),
            7 => self.raw(room),
            _ => 0,
        }
    }
}
