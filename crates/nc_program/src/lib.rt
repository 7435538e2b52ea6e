//! All that the program `netconfd` does, over a world that is handed in. It stands on the crates of the
//! server, of sessions, of scripts and of the store.
//!
//! `run` reads the words of a command line, makes a device of the folder that they name, opens its store, and
//! serves one session, does a script, or looks at the device. Its contract says what a run came to for all
//! words, files, disks, inputs and outputs (`Runs` in specs/Run.antt), its status, and the line on standard
//! error; and beside it, in plain clauses, when single statuses come.
#![tactic(auto)]

mod done;
mod program;

pub use program::{Ran, World, run, without_words};
