//! Why the program ends with another status than 0.
use std::fmt::{self, Display, Formatter};
use std::io;

/// Why the program ends with another status than 0.
#[derive(Drop)]
pub enum Fault {
    /// The words are no line `ADDRESS USER [GROUP]...`, or name no peer.
    Words,
    /// Want of memory.
    Memory,
    /// Connecting failed.
    Connect(io::Error),
    /// The system refused a thread.
    NoThread,
    /// The connection or the output failed.
    Carry(io::Error),
}

impl Fault {
    /// The exit status: 2 for faulty words, else 1.
    pub fn status(&self) -> u8 {
        match self {
            Fault::Words => 2,
            _ => 1,
        }
    }
}

impl Display for Fault {
    fn fmt<W: fmt::Write>(&self, f: &mut Formatter<W>) -> fmt::Result {
        match self {
            Fault::Words => write!(f, "words"),
            Fault::Memory => write!(f, "memory"),
            Fault::NoThread => write!(f, "no thread"),
            Fault::Connect(error) => write!(f, "connect: {error}"),
            Fault::Carry(error) => write!(f, "{error}"),
        }
    }
}
