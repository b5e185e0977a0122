// The book of a run: what happened in each event, and what was let out.
#![tactic(auto)]

pub mod read;
pub mod record;
pub mod write;
