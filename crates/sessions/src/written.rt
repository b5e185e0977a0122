// A book whose lines are written as events happen.
ghost use Rattle.std.specs.Prelude.{◌≡◌, false};
ghost use Rattle.book.specs.Lines.{line_text};
ghost use Rattle.book.specs.Records.{entry_of};
ghost use Rattle.sessions.specs.Lined.{Lined};

use crate::sink::Sink;
use book::record::Record;
use book::write::{LINE_ROOM, write_line};
use runs::notes::Book;

// Where the lines go, the number of the next one, and whether one was not taken. A flag beside the number, since
// the law of a book says what becomes of each.
#[derive(Drop)]
pub struct WrittenBook<S> {
    pub sink: S,
    pub next: u64,
    pub failed: bool,
}

impl<S: Sink> WrittenBook<S> {
    // A book without lines.
    pub fn new(sink: S) -> WrittenBook<S>
        ensures { (result.sink ≡ sink) × ((result.next ≡ 0) × (result.failed ≡ false)) }
    {
        WrittenBook {
            sink,
            next: 0,
            failed: false,
        }
    }
}

fn put_line<S: Sink>(sink: &mut S, n: u64, noted: &Record) -> bool
    ensures { S.Sink.puts sink.old (line_text n (entry_of noted.now)) result sink.new }
{
    let mut room = [0u8; LINE_ROOM];
    let Some(len) = write_line(&mut room, n, noted) else {
        return false;
    };
    sink.put(&room[0..len])
}

impl<S: Sink> Book for WrittenBook<S> {
    ghost notes = { λ x e y. Lined S.Sink.puts x.sink x.next x.failed e y.sink y.next y.failed };

    fn note(&mut self, noted: &Record) {
        if self.failed {
            return;
        }
        if put_line(&mut self.sink, self.next, noted) && self.next < u64::MAX {
            self.next += 1;
        } else {
            self.failed = true;
        }
    }
}
