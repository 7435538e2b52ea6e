//! What the program writes to standard output: of a script, what each connection was told; of a load test
//! and of a look at a device, a line of counts. It stands on the crates of scripts, of the server and of a
//! device.
//!
//! `script` does the script of a file at a server before its first event, `load` the script of a load test
//! at a server of its own in memory, and `found_in` counts what a look finds; each text is written whole, or
//! a beginning of it, and then a write failed.
#![tactic(auto)]

mod check;
mod count;
mod count_words;
mod load_test;
mod output;
mod script_file;
mod steady;

pub use check::{found_in, print};
pub use count::Found;
pub use load_test::load;
pub use script_file::{script, text_of};
