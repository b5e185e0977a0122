// From a page's bytes to its script.
ghost use Rattle.std.specs.Prelude.{◌≡◌};
ghost use Rattle.std.specs.Option.{option_map};
ghost use Rattle.scripts.specs.Scripts.{steps_of};
ghost use Rattle.windows.specs.Scripts.{idle_steps, steps_from, unreadable_in};

use scripts::{Call, Script, Step, Unreadable};

// The script that does nothing: it waits again and again.
fn idle_script() -> Script
    ensures { steps_of result ≡ idle_steps }
{
    Script::new(&[Step::Wait(Call::Nothing), Step::Jump(0)]).unwrap_or(Script::empty())
}

// The script of a page, and why it cannot be read, if it cannot. An unreadable page, and none, give the script that
// does nothing. A pair and no Result: with a fault goes a script too.
pub fn script_of(page: Option<&[u8]>) -> (Script, Option<Unreadable>)
    ensures steps { steps_of result.0 ≡ steps_from (option_map (λ x. x.now) page.entry) }
    ensures fault { result.1 ≡ unreadable_in (option_map (λ x. x.now) page.entry) }
{
    let Some(bytes) = page else {
        return (idle_script(), None);
    };
    match Script::read(bytes) {
        Ok(script) => (script, None),
        Err(fault) => (idle_script(), Some(fault)),
    }
}
