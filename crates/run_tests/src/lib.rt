// Whole runs, as tests.
#![tactic(auto)]

#[cfg(test)]
mod agendas;
