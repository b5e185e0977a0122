// What takes bytes: a file, a stream, a buffer.
ghost use Rattle.std.specs.Prelude.{ℕ, Bool, List};

use std::io::Write;

pub trait Sink {
    // What putting bytes may do: the sink before, the bytes, whether they were taken, the sink after.
    ghost puts: { Self → List ℕ → Bool → Self → Type 0 };

    // Puts bytes behind those that are there, and says whether they were taken. A bool: of a failure no more is told than that.
    fn put(&mut self, bytes: &[u8]) -> bool
        ensures { puts self.old bytes.now result self.new };
}

// A stream, of which nothing can be said.
#[derive(Drop)]
pub struct Output<W> {
    pub stream: W,
}

impl<W: Write> Sink for Output<W> {
    ghost puts = { λ _ _ _ _. Unit {0} };

    fn put(&mut self, bytes: &[u8]) -> bool {
        self.stream.write_all(bytes).is_ok()
    }
}
