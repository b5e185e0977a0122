// Turns of a browser, as tests: what pages are told, what servers are asked, and what is let out. They stand here so
// that the crate browser is not proved twice.
#![tactic(auto)]

#[cfg(test)]
mod asking;
#[cfg(test)]
mod opening;
#[cfg(test)]
mod page_cases;
#[cfg(test)]
mod words;
