// Two runs side by side, with the same settings and with servers that differ at one site.
#![tactic(auto)]

mod leak;
pub mod twice;
pub mod verdict;
