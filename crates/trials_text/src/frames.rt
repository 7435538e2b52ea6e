//! Rows of streams (nc_frames): the messages that a stream gives, each in quotation marks, and its fault. A
//! stream comes in two pieces, and has to give the same wherever it is cut.
use crate::shown::{show_bytes, show_quoted};
use nc_frames::{FrameFault, Frames, write_chunks, write_eom};
use nc_names::{Bytes, Memory};
use std::alloc::Global;
use std::fmt::Write;

/// How a stream is framed: with marks, in chunks, as a session, whose first message has a mark and whose
/// others are in chunks, or in chunks of which the first piece was looked at for a mark.
#[derive(Clone, Copy, PartialEq, Eq)]
pub(crate) enum Framing {
    Marks,
    Chunks,
    Session,
    Late,
}

/// What comes after a fault: a whole message in a chunk, of which nothing is to be read.
const MORE: &[u8] = b"\n#1\nx\n##\n";

/// Up to this length a stream is cut at every place; beyond, in its middle.
const SHORT: usize = 200;

/// A stream that is read, and what it gave.
#[derive(Drop)]
struct Reading {
    frames: Frames,
    has_hello: bool,
    fault: Option<FrameFault>,
    gave: String,
}

impl Reading {
    fn new(alloc: Global, framing: Framing) -> Reading {
        let mut frames = Frames::new(alloc);
        if framing == Framing::Chunks {
            frames.switch();
        }
        Reading {
            frames,
            has_hello: framing == Framing::Session,
            fault: None,
            gave: String::new(alloc),
        }
    }

    /// Puts a space between what was given and what comes.
    fn part(&mut self) -> Result<(), Memory> {
        if !self.gave.is_empty() {
            self.gave.push(' ')?;
        }
        Ok(())
    }

    /// Takes one message, and says whether there was one.
    fn takes(&mut self) -> Result<bool, Memory> {
        match self.frames.next() {
            Ok(Some(message)) => {
                self.part()?;
                show_quoted(&mut self.gave, message.as_slice())?;
                if self.has_hello {
                    self.frames.switch();
                    self.has_hello = false;
                }
                Ok(true)
            }
            Ok(None) => Ok(false),
            Err(FrameFault::Memory) => Err(Memory),
            Err(fault) => {
                self.fault = Some(fault);
                Ok(false)
            }
        }
    }

    /// Takes all messages that a further piece of the stream gives.
    fn feed(&mut self, piece: &[u8]) -> Result<(), Memory> {
        self.frames.feed(piece)?;
        for _ in 0..=piece.len() {
            if !self.takes()? {
                return Ok(());
            }
        }
        Ok(())
    }

    /// What the stream gave, with its fault, which stays when more comes.
    fn end(mut self) -> Result<String, Memory> {
        let Some(fault) = self.fault else {
            return Ok(self.gave);
        };
        self.part()?;
        write!(self.gave, "{fault}")?;
        self.feed(MORE)?;
        if self.fault != Some(fault) {
            self.gave.push_str(" and then another")?;
        }
        Ok(self.gave)
    }
}

/// What a stream gives that comes in two pieces.
fn read_in_two(
    alloc: Global,
    framing: Framing,
    first: &[u8],
    second: &[u8],
) -> Result<String, Memory> {
    let mut reading = Reading::new(alloc, framing);
    reading.feed(first)?;
    if framing == Framing::Late {
        reading.frames.switch();
    }
    reading.feed(second)?;
    reading.end()
}

/// What a stream gives, wherever it is cut.
pub(crate) fn read(alloc: Global, framing: Framing, stream: &[u8]) -> Result<String, Memory> {
    let len = stream.len();
    let (first, second) = stream.split_at(len / 2);
    let gave = read_in_two(alloc, framing, first, second)?;
    if len > SHORT {
        return Ok(gave);
    }
    for cut in 0..=len {
        let (first, second) = stream.split_at(cut);
        if read_in_two(alloc, framing, first, second)? != gave {
            return Ok(format!(in alloc; "another reading where it is cut at {cut}")?);
        }
    }
    Ok(gave)
}

/// What is written for a message, and what that gives when it is read.
pub(crate) fn written(alloc: Global, framing: Framing, message: &[u8]) -> Result<String, Memory> {
    let mut stream = Bytes::new(alloc);
    if framing == Framing::Marks {
        write_eom(message, &mut stream)?;
    } else if !message.is_empty() {
        write_chunks(message, &mut stream)?;
    }
    let mut out = String::new(alloc);
    show_bytes(&mut out, stream.as_slice())?;
    out.push_str(", read as ")?;
    out.push_str(read(alloc, framing, stream.as_slice())?.as_str())?;
    Ok(out)
}
