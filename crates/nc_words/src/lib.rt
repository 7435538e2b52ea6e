//! The words of the program's command line, what a run comes to, its exit status, and the line that a
//! refused run writes to standard error. It stands on the crates whose ends and faults a run tells, and not
//! on nc_machine.
//!
//! `read_words` reads the words. `RunEnd::status` is the exit status of what a run came to, and `note_end`
//! writes its line, piece after piece, without memory; each piece is written whole, or a beginning of it, and
//! then a write failed.
#![tactic(auto)]

mod end;
mod line_words;
mod note;
mod words;
mod writing;

pub use end::{Printed, RunEnd, ScriptEnd};
pub use line_words::{line_end, space_word};
pub use note::note_end;
pub use words::{Command, InFolder, Stdio, Work, read_words};
pub use writing::{printed_by, write_text, write_three};
