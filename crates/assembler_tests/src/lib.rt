// Examples of texts and of page files, as tests, in a crate of their own so that the others are not proved twice.
#![tactic(auto)]

#[cfg(test)]
mod pages;
#[cfg(test)]
mod refusals;
#[cfg(test)]
mod texts;
