// Values with a bound in their type: bytes by value, with no memory claimed, and the numbers of sites.
#![tactic(auto)]

pub mod fixed;
pub mod site;
pub mod text;
