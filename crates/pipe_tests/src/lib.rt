// Tests of frames in memory: heads, a carrier's exchanges, requests that are served.
#![tactic(auto)]

#[cfg(test)]
mod carried;
#[cfg(test)]
mod heads;
#[cfg(test)]
mod served;
#[cfg(test)]
mod sites;
