//! Tests of the machine, and the schema that they are made with. Nothing stands on this crate.
#![tactic(auto)]

#[cfg(test)]
mod laws;
#[cfg(test)]
mod machines;
#[cfg(test)]
mod sample;
