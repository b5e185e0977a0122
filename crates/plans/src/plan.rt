// Settings, read to their end, as a plan by value.
ghost use Rattle.std.specs.Prelude.{◌≡◌};
ghost use Rattle.plans.specs.declared.plan.Unplanned.TheVariants.{Refused, NoMemory};
ghost use Rattle.plans.specs.Reading.{PlanRead};
ghost use Rattle.settings.specs.Settings.{read_settings};

use crate::agenda::Agenda;
use crate::gather::{openings, table_of};
use settings::{Refusal, read_settings};
use std::alloc::{AllocError, Global};
use storage::table::Table;

// The sites by number, and what is to be done.
#[derive(Drop)]
pub struct Plan<'a> {
    pub table: Table,
    pub agenda: Agenda<'a>,
}

// Why there is no plan.
#[derive(Clone, Copy)]
pub enum Unplanned {
    Refused(Refusal),
    NoMemory(AllocError),
}

impl From<Refusal> for Unplanned {
    ghost from_gives = { λ r e. e ≡ Refused r };

    fn from(refusal: Refusal) -> Unplanned {
        Unplanned::Refused(refusal)
    }
}

impl From<AllocError> for Unplanned {
    ghost from_gives = { λ a e. e ≡ NoMemory a };

    fn from(e: AllocError) -> Unplanned {
        Unplanned::NoMemory(e)
    }
}

impl<'a> Plan<'a> {
    // Reads settings to their end or to the first fault.
    pub fn read(heap: Global, text: &'a [u8]) -> Result<Plan<'a>, Unplanned>
        ensures { PlanRead (read_settings text.now) result }
    {
        let settings = read_settings(text)?;
        let opens = openings(heap, &settings.opens)?;
        let agenda = Agenda {
            opens: opens.into_iter(),
            round: 0..0,
            rounds: None,
            turns: settings.turns,
        };
        Ok(Plan {
            table: table_of(&settings.sites),
            agenda,
        })
    }
}
