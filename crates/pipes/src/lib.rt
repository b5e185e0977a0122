// Frames over a pair of streams: a carrier whose servers are behind pipes, and the other side of those pipes.
#![tactic(auto)]

pub mod carrier;
pub mod fault;
pub mod serve;
mod streams;
