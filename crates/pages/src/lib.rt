// The promise: of a site, others learn what it lets out, and nothing else. The definitions and statements are in specs/; here are the functions whose contracts ask for their proofs.
#![tactic(auto)]

pub mod cases;
pub mod code;
pub mod limits;
pub mod moments;
pub mod promise;
pub mod views;
