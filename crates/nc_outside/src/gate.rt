//! Who is told when a connection is served.

/// Is told by a worker before and after it serves a connection, and by the timer's worker between two
/// readings of the clock. A call may take its time. Nothing is proved of what it does.
///
/// Connections are counted from 1, and the number stays at 2^64 - 1.
pub trait Gate {
    /// The connection of this number is about to be served.
    fn enter(&self, connection: u64);

    /// The connection of this number was served.
    fn leave(&self, connection: u64);

    /// The timer has made a reading.
    fn rest(&self);
}

/// A gate that is always open: each call returns at once.
#[derive(Clone, Copy)]
pub struct OpenGate;

impl Gate for OpenGate {
    fn enter(&self, _connection: u64) {}

    fn leave(&self, _connection: u64) {}

    fn rest(&self) {}
}
