//! Tests of the journal over the disk in memory: a stop at each call, with each image that the disk picks of
//! what a stop leaves, and a fault of each call. Nothing stands on this crate.
#![tactic(auto)]

#[cfg(test)]
mod retries_tests;
#[cfg(test)]
mod steps;
#[cfg(test)]
mod stops_tests;
