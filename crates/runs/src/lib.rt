// Whole runs: a browser, what carries its requests to servers, and a book.
#![tactic(auto)]

pub mod event;
pub mod notes;
pub mod run;
