// What carries requests to servers, and their answers back: in this process, or to others by pipes.
ghost use Rattle.std.specs.Prelude.{◌≡◌, ℕ, ◌≤◌, Bool, false, List, length, take};
ghost use Rattle.servers.specs.Answering.{Exact};

use crate::Servers;

pub trait Carrier {
    // What one exchange may be: the room for the answer, the carrier before, whose server is asked, the bytes of the
    // request and of the answer, the carrier after.
    ghost carries: { ℕ → Self → ℕ → List ℕ → List ℕ → Self → Type 0 };

    // Has it broken down? A run ends then.
    ghost broken: { Self → Bool };

    // Hands a request to a site's server. Its answer is at the front of the room, so many bytes.
    fn exchange(&mut self, site: u8, request: &[u8], room: &mut [u8]) -> usize
        ensures within { result ≤ length room.new }
        ensures exchange { carries (length room.old) self.old site request.now (take result room.new) self.new };

    fn is_broken(&self) -> bool
        ensures { result ≡ broken self.now };
}

// Servers in this process: each exchange is exactly what the asked server does.
#[derive(Drop)]
pub struct InProcess<S> {
    pub servers: S,
}

impl<S: Servers> Carrier for InProcess<S> {
    ghost carries = { λ room x site request answer y. Exact S.Servers.serving (S.Servers.states x.servers) room site request answer (S.Servers.states y.servers) };

    ghost broken = { λ _. false };

    fn exchange(&mut self, site: u8, request: &[u8], room: &mut [u8]) -> usize {
        self.servers.exchange(site, request, room)
    }

    fn is_broken(&self) -> bool {
        false
    }
}
