//! Tests of the crates for configurations, their differences and their values in use, where the program shows
//! nothing of a call (what it shows is in cases/). Nothing stands on this crate.
#![tactic(auto)]

#[cfg(test)]
mod sample;
