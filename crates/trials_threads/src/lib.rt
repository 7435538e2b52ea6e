//! Tests of what threads share: the events of one turn, two sessions over one machine, and the connections of
//! a listener under gates that hold them. Nothing stands on this crate.
#![tactic(auto)]

#[cfg(test)]
mod gates;
#[cfg(test)]
mod locking;
#[cfg(test)]
mod sample;
#[cfg(test)]
mod serving;
#[cfg(test)]
mod streams;
#[cfg(test)]
mod turns;
