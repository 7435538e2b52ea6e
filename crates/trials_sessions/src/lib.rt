//! Tests of sessions at a small desk, of what the program does not show: a desk that fails, reads and writes
//! that fail, the reasons of ends, and how many Ends are entered. Nothing stands on this crate.
#![tactic(auto)]

#[cfg(test)]
mod spelled;
