// Examples of servers that scripts play, as tests. They stand here so that the crate of those servers is not proved twice.
#![tactic(auto)]

#[cfg(test)]
mod played;
