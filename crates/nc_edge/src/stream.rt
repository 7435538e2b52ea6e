//! Streams of sockets.
use crate::Address;
use std::io::{self, Read, Write};
use std::net::{Ipv4Addr, Shutdown, SocketAddr, TcpListener, TcpStream};
use std::os::unix::net::{UnixListener, UnixStream};

/// A stream of a Unix socket or of TCP.
#[derive(Drop)]
pub enum Stream {
    /// Of a Unix socket.
    Unix(UnixStream),
    /// Of TCP.
    Tcp(TcpStream),
}

// A port of this machine, which no other machine reaches.
fn here(port: u16) -> SocketAddr {
    SocketAddr::from((Ipv4Addr::LOCALHOST, port))
}

impl Stream {
    /// Connects to a server.
    pub fn connect(rt: &HostRuntime, address: &Address<'_>) -> io::Result<Stream> {
        match address {
            Address::Unix { path } => Ok(Stream::Unix(UnixStream::connect(rt, *path)?)),
            Address::Tcp { port } => of_tcp(TcpStream::connect(rt, here(*port))?),
        }
    }

    /// Another handle of the same stream.
    pub fn try_clone(&self) -> io::Result<Stream> {
        match self {
            Stream::Unix(stream) => Ok(Stream::Unix(stream.try_clone()?)),
            Stream::Tcp(stream) => Ok(Stream::Tcp(stream.try_clone()?)),
        }
    }

    /// Ends reading, writing or both, of every handle of the stream.
    pub fn shutdown(&self, how: Shutdown) -> io::Result<()> {
        match self {
            Stream::Unix(stream) => stream.shutdown(how),
            Stream::Tcp(stream) => stream.shutdown(how),
        }
    }
}

// A stream of TCP. Its pieces are sent at once where the system lets it.
fn of_tcp(stream: TcpStream) -> io::Result<Stream> {
    let _ = stream.set_nodelay(true);
    Ok(Stream::Tcp(stream))
}

impl Read for Stream {
    fn read(&mut self, into: &mut [u8]) -> io::Result<usize> {
        match self {
            Stream::Unix(stream) => stream.read(into),
            Stream::Tcp(stream) => stream.read(into),
        }
    }
}

impl Write for Stream {
    fn write(&mut self, bytes: &[u8]) -> io::Result<usize> {
        match self {
            Stream::Unix(stream) => stream.write(bytes),
            Stream::Tcp(stream) => stream.write(bytes),
        }
    }

    fn flush(&mut self) -> io::Result<()> {
        Ok(())
    }
}

/// A socket that listens.
#[derive(Drop)]
pub(crate) enum Door {
    Unix(UnixListener),
    Tcp(TcpListener),
}

impl Door {
    /// Listens on a port of this machine.
    pub(crate) fn on_port(rt: &HostRuntime, port: u16) -> io::Result<Door> {
        Ok(Door::Tcp(TcpListener::bind(rt, here(port))?))
    }

    /// Waits for a connection.
    pub(crate) fn accept(&self) -> io::Result<Stream> {
        match self {
            Door::Unix(listener) => {
                let (stream, _) = listener.accept()?;
                Ok(Stream::Unix(stream))
            }
            Door::Tcp(listener) => {
                let (stream, _) = listener.accept()?;
                of_tcp(stream)
            }
        }
    }
}
