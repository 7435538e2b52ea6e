//! A connection, and its line.

/// The line of a connection, which any thread may hang up. Nothing is proved of what it does.
pub trait Hangup {
    /// Ends the connection: a read that waits for its input gives the end of input, and a write to it
    /// fails.
    fn hang_up(&self);
}

/// A connection: its input, its output, and the line that both use.
#[derive(Drop)]
pub struct Joined<I, O, H> {
    /// Where the bytes of the peer come from.
    pub input: I,
    /// Where the bytes for the peer go.
    pub output: O,
    /// What ends both.
    pub line: H,
}

/// A line of which nobody hears: hanging it up does nothing.
#[derive(Clone, Copy)]
pub struct Unheard;

impl Hangup for Unheard {
    fn hang_up(&self) {}
}
