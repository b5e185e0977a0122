// Tests of the book's lines: examples there and back, damaged forms, every line cut at every byte.
#![tactic(auto)]

#[cfg(test)]
mod line_cases;
