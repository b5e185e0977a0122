// What the programs share: files and plans, the sites of a plan by name and number, servers from a folder, and why a program stops.
#![tactic(auto)]

pub mod files;
pub mod folder;
pub mod sites;
pub mod stop;
