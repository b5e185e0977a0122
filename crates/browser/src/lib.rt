// The browser by value: a turn in two calls.
#![tactic(auto)]

pub mod browser;
mod deed;
mod fitted;
pub mod pending;
mod row;
pub mod values;
