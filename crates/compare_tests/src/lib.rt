// Browsers, servers, books and requests side by side, as tests. They stand here so that the crate compare is not proved
// twice.
#![tactic(auto)]

#[cfg(test)]
mod asked;
#[cfg(test)]
mod books;
#[cfg(test)]
mod browsers;
#[cfg(test)]
mod family;
