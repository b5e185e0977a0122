// The book in memory.
ghost use Rattle.std.specs.Prelude.{◌≡◌, map, IfOk};
ghost use Rattle.book.specs.Records.{entry_of};
ghost use Rattle.runs.specs.Books.{entries_of, Noted, Empty};

use super::{Book, MemoryBook};
use book::record::Record;
use std::alloc::{AllocError, Global};

impl MemoryBook {
    pub fn new(heap: Global, room: usize) -> Result<MemoryBook, AllocError>
        ensures { IfOk result (Empty room) }
    {
        let records = Vec::with_capacity(heap, room)?;
        Ok(MemoryBook {
            records,
            missed: false,
            room,
        })
    }

    // What was noted, in order.
    pub fn records(&self) -> &[Record]
        ensures { map entry_of result.now ≡ entries_of self.now }
    {
        self.records.as_slice()
    }

    // Was one missed?
    pub fn missed(&self) -> bool
        ensures { result ≡ self.now.missed }
    {
        self.missed
    }
}

impl Book for MemoryBook {
    ghost notes = { Noted };

    fn note(&mut self, noted: &Record) {
        if self.records.len() < self.room {
            self.records.push_reserved(*noted);
        } else {
            self.missed = true;
        }
    }
}
