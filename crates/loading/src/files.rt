// Files that are read whole, and the plan that settings are.
ghost use Rattle.std.specs.Prelude.{Err};
ghost use Rattle.loading.specs.Planned.{Planned};
ghost use Rattle.plans.specs.Reading.{PlanRead};
ghost use Rattle.settings.specs.Settings.{read_settings, Config, Outcome};

use crate::stop::Stop;
use plans::plan::{Plan, Unplanned};
use std::alloc::Global;
use std::fs;

pub fn read_file(rt: &HostRuntime, path: &str) -> Result<Vec<u8>, Stop> {
    fs::read(rt, path).or_else(|why| {
        let path = String::from_str(rt.alloc(), path)?;
        Err(Stop::File { path, why })
    })
}

// Why there is no plan, with the name of the settings' file.
fn unplanned(heap: Global, path: &str, why: Unplanned) -> Stop
    ensures { (o : Outcome Config) → PlanRead o (Err why) → Planned o (Err result) }
{
    let Unplanned::Refused(refusal) = why else {
        return Stop::NoMemory;
    };
    match String::from_str(heap, path) {
        Ok(path) => Stop::Settings { path, refusal },
        Err(_) => Stop::NoMemory,
    }
}

// Reads settings to their end or to the first fault, which is said with the name of their file.
pub fn read_plan<'a>(heap: Global, path: &str, text: &'a [u8]) -> Result<Plan<'a>, Stop>
    ensures { Planned (read_settings text.now) result }
{
    Plan::read(heap, text).map_err(|why| unplanned(heap, path, why))
}
