// Two browsers side by side: is everything of all sites but one the same in both?
// Each comparison leaves out a site, or all others, so none is a `==`.
#![tactic(auto)]

mod by_site;
pub mod difference;
pub mod let_out;
mod outs;
mod row;
pub mod sent;
pub mod world;
