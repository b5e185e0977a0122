// Examples of page files and of turns, as tests: those of scripts and machine are many, and stand here so that those
// crates are not proved twice.
#![tactic(auto)]

#[cfg(test)]
mod pages;
#[cfg(test)]
mod steps;
#[cfg(test)]
mod turns;
