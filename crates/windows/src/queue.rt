use bounded::fixed::FixedVec;
use bounded::site::SiteNumber;
use bounded::text::Text;

mod words;

// What a window of a site said.
#[derive(Clone, Copy)]
pub struct Word {
    pub from: SiteNumber,
    pub text: Text<1024>,
}

// The words that wait for a window: up to eight, the oldest first. By value: a turn claims no memory, and the kit's own
// vector of fixed room cannot be copied as windows are.
#[derive(Clone, Copy)]
pub(crate) struct Queue {
    words: FixedVec<Word, 8>,
}
