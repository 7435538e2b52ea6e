//! Tests of the disk and of the listener against the operating system, in folders and at sockets of their own
//! in the working folder. Nothing stands on this crate.
#![tactic(auto)]

#[cfg(test)]
mod disk_tests;
#[cfg(test)]
mod socket_tests;
