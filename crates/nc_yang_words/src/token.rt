//! The tokens of a module text.
use nc_names::Text;

/// What a token is (RFC 7950 6.1.2).
#[derive(Drop)]
pub(crate) enum Kind {
    /// A keyword or an unquoted string, or the `+` between quoted strings.
    Word(Text),
    /// A quoted string, as it is read.
    Quoted(Text),
    /// `;`
    Semicolon,
    /// `{`
    Open,
    /// `}`
    Close,
    /// The end of the text.
    End,
    /// What is no whole token.
    Torn,
}

/// A token and where it begins.
#[derive(Drop)]
pub(crate) struct Token {
    /// The line on which it begins.
    pub line: u32,
    /// Whether white space or a comment stands between it and the token before it.
    pub apart: bool,
    pub kind: Kind,
}
