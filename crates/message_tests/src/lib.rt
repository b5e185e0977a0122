// Tests of answers and requests: tables of good and bad texts, each text cut at every byte, limits, and buffers.
#![tactic(auto)]

#[cfg(test)]
mod answer_cases;
#[cfg(test)]
mod request_cases;
