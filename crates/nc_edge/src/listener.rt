//! The connections of a socket.
ghost use Rattle.std.specs.Prelude.{◌≡◌, false, IfOk};

use crate::Stream;
use crate::binding::bind;
use crate::stream::Door;
use crate::streams::stand_ins;
use crate::waiting::{Waiting, Waits};
use nc_names::{Memory, Text};
use nc_outside::{Failed, Hangup, Joined, Listener, ReaderSource, WriterSink};
use std::alloc::{AllocError, Global};
use std::fs::File;
use std::io::{self, ErrorKind, Write};
use std::net::Shutdown;
use std::thread;
use std::time::Duration;

/// So many connections may be open on which no session has begun. Further ones are closed at once.
const MOST_WAITING: u64 = 128;

/// How long the listener waits where it finds no connection, in milliseconds.
const PAUSE: u64 = 100;

/// The line of a connection.
#[derive(Drop)]
pub struct StreamLine {
    stream: Stream,
}

impl Hangup for StreamLine {
    fn hang_up(&self) {
        let _ = self.stream.shutdown(Shutdown::Both);
    }
}

/// What is written to a connection. Its first write ends its waiting.
#[derive(Drop)]
pub struct StreamWriter {
    stream: Stream,
    waits: Option<Waits>,
}

impl Write for StreamWriter {
    fn write(&mut self, bytes: &[u8]) -> io::Result<usize> {
        self.waits = None;
        self.stream.write(bytes)
    }

    fn flush(&mut self) -> io::Result<()> {
        Ok(())
    }
}

/// A connection of a socket.
pub type Connection = Joined<ReaderSource<Stream>, WriterSink<StreamWriter>, StreamLine>;

fn out_of_memory(_: AllocError) -> io::Error {
    ErrorKind::OutOfMemory.into()
}

// A socket that listens, how many of its connections wait, and what stands in for standard streams.
#[derive(Drop)]
struct Bound {
    door: Door,
    waiting: Waiting,
    streams: Vec<File>,
}

impl Bound {
    // A connection of a stream, or `None` where so many wait that it is closed.
    fn take_in(&self, stream: Stream) -> io::Result<Option<Connection>> {
        if self.waiting.count() >= MOST_WAITING {
            return Ok(None);
        }
        let input = ReaderSource::new(stream.try_clone()?);
        let output = WriterSink::new(StreamWriter {
            stream: stream.try_clone()?,
            waits: Some(self.waiting.add().map_err(out_of_memory)?),
        });
        Ok(Some(Joined {
            input,
            output,
            line: StreamLine { stream },
        }))
    }

    // Waits for a connection.
    fn next(&self) -> io::Result<Connection> {
        for _ in 0..u64::MAX {
            if let Some(connection) = self.take_in(self.door.accept()?)? {
                return Ok(connection);
            }
        }
        Err(ErrorKind::Other.into())
    }
}

/// Gives the connections of a socket, without an end. It is bound at the first call: at `unix:PATH`, or at
/// `tcp:PORT` on 127.0.0.1. Where that fails, each call fails.
///
/// No connection has the descriptor of a standard stream: where one is closed, a file stands in for it.
///
/// A socket that a server has left at PATH is removed: a file is one where it is a socket, and connecting to
/// it is refused. Whoever may write to the file may connect; its mode is what the process's umask leaves, and
/// the folder protects it.
///
/// At most 128 connections are open to which nothing was written; more are closed as they come. Where a
/// connection cannot be accepted, the call fails after 100 ms.
#[derive(Drop)]
pub struct SocketListener {
    rt: HostRuntime,
    address: Text,
    bound: Option<Bound>,
    begun: bool,
    failed: u64,
}

impl SocketListener {
    /// The listener of an address, before its first call. Without an address each call fails.
    pub fn new(
        alloc: Global,
        rt: HostRuntime,
        address: Option<&str>,
    ) -> Result<SocketListener, Memory>
        ensures { IfOk result (λ it. it.failed ≡ 0) }
    {
        Ok(SocketListener {
            rt,
            address: Text::from_text(alloc, address.unwrap_or(""))?,
            bound: None,
            begun: false,
            failed: 0,
        })
    }

    fn try_bind(&self) -> io::Result<Bound> {
        let waiting = Waiting::new(self.rt.alloc()).map_err(out_of_memory)?;
        let streams = stand_ins(&self.rt);
        let door = bind(&self.rt, self.address.as_str())?;
        Ok(Bound {
            door,
            waiting,
            streams,
        })
    }

    // Binds the socket, where this is the first call.
    fn begin(&mut self)
        ensures { self.new.failed ≡ self.old.failed }
    {
        if self.begun {
            return;
        }
        self.begun = true;
        if let Ok(bound) = self.try_bind() {
            self.bound = Some(bound);
        }
    }

    // Waits for a connection. Where a socket is bound that gives none, it pauses.
    fn next(&self) -> Option<Connection> {
        let bound = self.bound.as_ref()?;
        match bound.next() {
            Ok(connection) => Some(connection),
            Err(_) => {
                thread::sleep(&self.rt, Duration::from_millis(PAUSE));
                None
            }
        }
    }
}

impl Listener for SocketListener {
    type In = ReaderSource<Stream>;

    type Out = WriterSink<StreamWriter>;

    type Line = StreamLine;

    ghost failed = { λ l. l.failed };

    ghost over = { λ _. false };

    fn accept(&mut self) -> Result<Option<Connection>, Failed> {
        self.begin();
        match self.next() {
            Some(connection) => {
                self.failed = 0;
                Ok(Some(connection))
            }
            None => {
                self.failed = self.failed.saturating_add(1);
                Err(Failed)
            }
        }
    }
}
