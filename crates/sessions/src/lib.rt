// A whole session of the browser, from its plan on, and a book of it that is written line by line.
#![tactic(auto)]

pub mod session;
pub mod sink;
pub mod written;
