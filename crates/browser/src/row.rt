ghost use Rattle.std.specs.Prelude.{◌≤◌, vec_len, vec_capacity};

use windows::Window;

mod change;
pub(crate) mod run;

// The windows, by number: at most 16. The memory for them is claimed when the row is made.
#[derive(Drop)]
pub(crate) struct Row {
    windows: Vec<Window>,
    ghost few: { vec_len windows ≤ 16 },
    ghost room: { 16 ≤ vec_capacity windows },
}
