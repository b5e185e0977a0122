// The eight bytes of a step.
ghost use Rattle.std.specs.Prelude.{◌≡◌, ◌/◌, ◌%◌, Some};
ghost use Rattle.scripts.specs.Page.{word, row, call_bytes, step_bytes, step_in};

use crate::{Call, Step};

// The kind is the byte that the file has for it.
fn row(kind: u8, a: u8, b: u8, c: u8, number: u32) -> [u8; 8]
    ensures bytes { result ≡ row kind a b c number }
    ensures back { word (number / 16777216 % 256) (number / 65536 % 256) (number / 256 % 256) (number % 256) ≡ number }
{
    let [w, x, y, z] = number.to_be_bytes();
    [kind, a, b, c, w, x, y, z]
}

fn wait(call: Call) -> [u8; 8]
    ensures { result ≡ call_bytes call }
{
    match call {
        Call::Nothing => row(10, 0, 0, 0, 0),
        Call::Ask { site, path, body } => row(10, site, path, body, 1),
        Call::Say {
            window,
            site,
            bytes,
        } => row(10, window, site, bytes, 2),
        Call::Keep { bytes } => row(10, bytes, 0, 0, 3),
        Call::Look => row(10, 0, 0, 0, 4),
        Call::Open { site, path } => row(10, site, path, 0, 5),
    }
}

pub(crate) fn step(step: Step) -> [u8; 8]
    ensures bytes { result ≡ step_bytes step }
    ensures back { step_in (step_bytes step) ≡ Some step }
{
    match step {
        Step::Constant(a, number) => row(0, a, 0, 0, number),
        Step::Move(a, b) => row(1, a, b, 0, 0),
        Step::Sum(a, b, c) => row(2, a, b, c, 0),
        Step::Product(a, b, c) => row(3, a, b, c, 0),
        Step::Equal(a, b, c) => row(4, a, b, c, 0),
        Step::Less(a, b, c) => row(5, a, b, c, 0),
        Step::Jump(number) => row(6, 0, 0, 0, number),
        Step::JumpIf(a, number) => row(7, a, 0, 0, number),
        Step::Load(a, b) => row(8, a, b, 0, 0),
        Step::Store(a, b) => row(9, a, b, 0, 0),
        Step::Wait(call) => wait(call),
    }
}
