// A step from its eight bytes.
ghost use Rattle.std.specs.Prelude.{◌≡◌, length};
ghost use Rattle.scripts.specs.Page.{call_by, step_by, step_in};

use crate::{Call, Step};

fn call(number: u32, a: u8, b: u8, c: u8) -> Option<Call>
    ensures { result ≡ call_by number a b c }
{
    match number {
        0 => Some(Call::Nothing),
        1 => Some(Call::Ask {
            site: a,
            path: b,
            body: c,
        }),
        2 => Some(Call::Say {
            window: a,
            site: b,
            bytes: c,
        }),
        3 => Some(Call::Keep { bytes: a }),
        4 => Some(Call::Look),
        5 => Some(Call::Open { site: a, path: b }),
        _ => None,
    }
}

// The kind is a byte of the file: here it becomes a step.
fn by_kind(kind: u8, a: u8, b: u8, c: u8, number: u32) -> Option<Step>
    ensures { result ≡ step_by kind a b c number }
{
    match kind {
        0 => Some(Step::Constant(a, number)),
        1 => Some(Step::Move(a, b)),
        2 => Some(Step::Sum(a, b, c)),
        3 => Some(Step::Product(a, b, c)),
        4 => Some(Step::Equal(a, b, c)),
        5 => Some(Step::Less(a, b, c)),
        6 => Some(Step::Jump(number)),
        7 => Some(Step::JumpIf(a, number)),
        8 => Some(Step::Load(a, b)),
        9 => Some(Step::Store(a, b)),
        10 => Some(Step::Wait(call(number, a, b, c)?)),
        _ => None,
    }
}

// The step that eight bytes are.
pub(crate) fn step(bytes: &[u8]) -> Option<Step>
    requires { length bytes.now ≡ 8 }
    ensures { result ≡ step_in bytes.now }
{
    let number = u32::from_be_bytes([bytes[4], bytes[5], bytes[6], bytes[7]]);
    by_kind(bytes[0], bytes[1], bytes[2], bytes[3], number)
}
