// Words of a line, each behind a fixed text: decimal numbers up to 64 bits, and bytes in hex.
#![tactic(auto)]

pub mod hex;
pub mod numbers;
pub mod scan;
