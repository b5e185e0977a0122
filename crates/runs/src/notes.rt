// A book, whatever it is written to.
ghost use Rattle.std.specs.Prelude.{◌≤◌, vec_capacity};
ghost use Rattle.book.specs.Records.{Entry, entry_of};

use book::record::Record;

pub mod memory;

pub trait Book {
    // What noting an entry may do: the book before, the entry, the book after.
    ghost notes: { Self → Entry → Self → Type 0 };

    fn note(&mut self, noted: &Record)
        ensures { notes self.old (entry_of noted.now) self.new };
}

// A book in memory, for so many records. Whether one was missed for want of room is remembered: to note something answers
// nothing, so that no run goes by it. The room stands beside the vector, whose capacity may be more than was asked for.
#[derive(Drop)]
pub struct MemoryBook {
    pub(crate) records: Vec<Record>,
    pub(crate) missed: bool,
    pub(crate) room: usize,
    ghost claimed: { room ≤ vec_capacity records },
}
