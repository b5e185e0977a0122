// What is still to be done: windows to open, turns of the round that has begun, lines of turns.
ghost use Rattle.std.specs.Prelude.{◌≡◌, ◌≤◌, [], None};
ghost use Rattle.std.specs.Vec.Iter.{into_iter_items};
ghost use Rattle.std.specs.Option.{option_map};
ghost use Rattle.book.specs.Records.{event_of};
ghost use Rattle.pages.specs.Runs.{due, line_due};
ghost use Rattle.plans.specs.Agendas.{agenda_of, lines_of, Takes, event_in, rest_of};

use book::record::Event;
use bounded::site::SiteNumber;
use bounded::text::Text;
use settings::Turns;
use settings::lines::TurnLine;
use std::alloc::Global;
use std::ops::Range;
use std::vec;

// A window that the settings open.
#[derive(Clone, Copy)]
pub struct Opening {
    pub site: SiteNumber,
    pub path: Text<255>,
}

// Windows are still to be opened; those of the `round` have yet to have their turn in it; so many `rounds` are left of the
// line that has begun, if one has.
#[derive(Drop)]
pub struct Agenda<'a> {
    pub(crate) opens: vec::IntoIter<Opening, Global>,
    pub(crate) round: Range<u32>,
    pub(crate) rounds: Option<u32>,
    pub(crate) turns: Turns<'a>,
}

impl<'a> Agenda<'a> {
    // What is left of the line that has begun, or the next line.
    fn take_line(&mut self) -> Option<TurnLine>
        ensures begun { self.new.rounds ≡ None }
        ensures line { Takes result (lines_of self.old) (lines_of self.new) }
        ensures rest { (self.new.opens ≡ self.old.opens) × (self.new.round ≡ self.old.round) }
    {
        match self.rounds {
            Some(n) => {
                self.rounds = None;
                Some(TurnLine::Rounds(n))
            }
            None => self.turns.next(),
        }
    }

    // The first turn of the lines, where there are so many windows. A round of no windows is over at once.
    fn next_line(&mut self, windows: u32) -> Option<Event>
        requires opened { into_iter_items self.old.opens ≡ [] }
        requires round { self.old.round.end ≤ self.old.round.start }
        ensures event { option_map event_of result ≡ event_in (line_due windows (lines_of self.old)) }
        ensures rest { agenda_of self.new ≡ rest_of (line_due windows (lines_of self.old)) }
    {
        while let Some(line) = self.take_line() {
            match line {
                TurnLine::Window(window) => return Some(Event::Turn { window }),
                TurnLine::Rounds(n) => {
                    if n > 0 && windows > 0 {
                        self.rounds = Some(n - 1);
                        self.round = 1..windows;
                        return Some(Event::Turn { window: 0 });
                    }
                }
            }
        }
        None
    }

    // The next event, where there are so many windows; it is then done with.
    pub fn next(&mut self, windows: u32) -> Option<Event>
        ensures event { option_map event_of result ≡ event_in (due windows (agenda_of self.old)) }
        ensures rest { agenda_of self.new ≡ rest_of (due windows (agenda_of self.old)) }
    {
        if let Some(Opening { site, path }) = self.opens.next() {
            return Some(Event::Opening { site, path });
        }
        if let Some(window) = self.round.next() {
            return Some(Event::Turn { window });
        }
        self.next_line(windows)
    }
}
