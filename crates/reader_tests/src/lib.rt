// Tests of the readers: tables of good and bad texts, and each text cut at every byte.
#![tactic(auto)]

#[cfg(test)]
mod address_cases;
#[cfg(test)]
mod settings_cases;
