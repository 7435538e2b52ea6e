//! The text of a module.
use nc_names::{Bytes, Text};

/// A file with the text of a module (RFC 7950 5.2).
#[derive(PartialEq, Eq, Drop)]
pub struct ModuleText {
    /// The name of the file.
    pub file: Text,
    /// What is in it.
    pub bytes: Bytes,
}
