use crate::Step;
use bounded::fixed::FixedVec;

// A script by value: room for the 2,000 steps that a page may have, so that reading one claims no memory.
#[derive(Clone, Copy)]
pub struct Script {
    pub(crate) steps: FixedVec<Step, 2000>,
}
