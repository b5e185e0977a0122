// Examples of what windows hear and are told, as tests. They stand here so that the crate windows is not proved twice.
#![tactic(auto)]

#[cfg(test)]
mod loading;
#[cfg(test)]
mod told;
