//! A statement of a module text.
use nc_names::{Many, Text};

/// A statement with all that stands below it (RFC 7950 6.3).
#[derive(Drop, PartialEq, Eq)]
pub struct Statement {
    /// The keyword, with its prefix and colon where it has one.
    pub keyword: Text,
    /// The argument, its quotation marks, escapes and concatenations read (RFC 7950 6.1.3).
    pub argument: Option<Text>,
    /// The line on which the keyword stands, counted from 1 by line feeds. A line past 2^32 - 1
    /// stays there.
    pub line: u32,
    /// The statements between its braces, in their order.
    pub below: Many<Statement>,
}
