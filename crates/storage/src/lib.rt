// What a browser remembers of each site: its token, what it keeps, its host and port.
#![tactic(auto)]

pub mod stores;
pub mod table;
#[cfg(test)]
mod tests;
pub mod tokens;
