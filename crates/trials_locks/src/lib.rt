//! Tests of the crates for locks, partial locks and the pending commit, by calls one after another. Nothing
//! stands on this crate.
#![tactic(auto)]

#[cfg(test)]
mod site;
