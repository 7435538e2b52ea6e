//! Faults of module texts.

/// Why modules give no schema.
#[derive(Clone, Copy, PartialEq, Eq)]
pub enum ModuleWhy {
    /// The text is not UTF-8 (RFC 7950 6).
    NotText,
    /// The text spells no statement (RFC 7950 6.1 to 6.3).
    BadWords,
    /// The statement is none of the standard, or may not stand there (RFC 7950 7, 14).
    UnknownStatement,
    /// The statement or its argument is of the standard, and the server does not have it.
    Unsupported,
    /// A statement lacks one that has to stand below it.
    Missing,
    /// It stands, or is defined, a second time where it may be there once.
    Twice,
    /// What it names is not defined (RFC 7950 5.5, 6.2.1).
    UnknownName,
    /// It is defined by itself, over others (RFC 7950 5.1, 7.3, 7.12, 7.18.2, 7.20.2, 9.9.2).
    Loop,
    /// The argument is none that the statement may have.
    BadArgument,
    /// It is past a limit of the server.
    TooMany,
    /// The expression of a `pattern` that can be read is larger than the server takes (RFC 7950 9.4.5).
    PatternRefused,
}

/// A rule that a module text breaks.
#[derive(Clone, Copy)]
pub struct Fault {
    /// The line on which the statement stands, counted from 1 by line feeds.
    pub line: u32,
    /// What the rule is about.
    pub why: ModuleWhy,
}
