//! Bytes are carried both ways.
use crate::fault::Fault;
use nc_edge::Stream;
use std::io::{self, ErrorKind, Read, Write};
use std::net::Shutdown;
use std::thread::{self, Threads};

// Sends all that comes to the server, and then ends the writing half of the connection. Once the server is
// gone, what still comes is not sent.
fn send<I: Read>(input: &mut I, server: &mut Stream) {
    let _ = io::copy(input, server);
    let _ = server.shutdown(Shutdown::Write);
}

// Hands on all that the server sends, until it closes the connection. Where it closes it before it has read
// all, the connection is reset, which is its end too.
fn receive<O: Write>(server: &mut Stream, output: &mut O) -> Result<(), Fault> {
    match io::copy(server, output) {
        Ok(_) => Ok(()),
        Err(error) if error.kind() == ErrorKind::ConnectionReset => Ok(()),
        Err(error) => Err(Fault::Carry(error)),
    }
}

/// Carries bytes both ways, until the server closes the connection. What still comes then is not read.
pub fn carry<R: Threads, I: Read + Send + Drop + 'static, O: Write>(
    rt: &R,
    mut server: Stream,
    mut input: I,
    output: &mut O,
) -> Result<(), Fault> {
    let mut other = server.try_clone().map_err(|error| Fault::Carry(error))?;
    if thread::spawn(rt, move || send(&mut input, &mut other)).is_err() {
        return Err(Fault::NoThread);
    }
    receive(&mut server, output)
}
