// Servers, whatever they are: one a site. Each has a state of its own, and what it answers goes by that state and by the
// bytes of the request, and by nothing else.
#![tactic(auto)]

ghost use Rattle.std.specs.Prelude.{◌≡◌, ℕ, ◌≤◌, List, length, take, Decides};
ghost use Rattle.pages.specs.Browser.{at};
ghost use Rattle.servers.specs.Answering.{fitting};

pub mod carrier;

pub trait Servers {
    ghost State: { Type 0 };

    // The state of each site's server.
    ghost states: { Self → ℕ → State };

    // What a site's server does with the bytes of a request in a state: the bytes of its answer, and its next state. It
    // is one function for all values of the type, so what differs between two families lies in their states.
    ghost serving: { ℕ → List ℕ → State → List ℕ × State };

    // Hands a request to a site's server. Its answer is at the front of the room, so many bytes; one that does not fit is
    // no bytes at all, which nobody can read. No other server's state changes.
    fn exchange(&mut self, site: u8, request: &[u8], room: &mut [u8]) -> usize
        ensures within { result ≤ length room.new }
        ensures answer { take result room.new ≡ fitting (length room.old) (serving site request.now (states self.old site)).0 }
        ensures after { states self.new ≡ at site (serving site request.now (states self.old site)).1 (states self.old) };

    // Is a site's server in the same state in both? Sites have numbers below 16, and beyond nothing differs.
    // No `==`: that would compare all sites.
    fn same(&self, other: &Self, site: u8) -> bool
        ensures state { Decides result (states self.now site ≡ states other.now site) }
        ensures beyond { (s : ℕ) → 16 ≤ s → states self.now s ≡ states other.now s };
}
