use crate::fixed::FixedVec;

mod make;

// At most N bytes. By value, since a turn claims no memory.
#[derive(Clone, Copy)]
pub struct Text<const N: usize> {
    bytes: FixedVec<u8, N>,
}
