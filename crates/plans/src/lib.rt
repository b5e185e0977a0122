// What settings say is to be done: the sites by number, and the events one by one.
#![tactic(auto)]

pub mod agenda;
mod gather;
pub mod plan;
