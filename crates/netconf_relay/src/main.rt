//! The program `netconf-relay`, which stands between sshd and the socket of a server (RFC 6242 3).
//!
//! `netconf-relay ADDRESS USER [GROUP]...` connects to ADDRESS, writes the line that names the user and the
//! groups, and then carries bytes both ways: what it reads to the server, and what the server sends to its
//! output. It ends when the server closes the connection. It stands on nc_names, nc_peer and nc_edge.
//!
//! That the line is one which the server reads as these names, and that words which no line names are
//! refused, is proved. What is carried is trusted.
#![tactic(auto)]

mod carrying;
mod fault;
mod line;
mod words;

use carrying::carry;
use fault::Fault;
use line::peer_line;
use nc_edge::Stream;
use std::env;
use std::io::{ErrorKind, Write};
use std::process::ExitCode;
use words::read_words;

// The words after the program's name. One that is not UTF-8 makes a faulty command line.
fn command_words(rt: &HostRuntime) -> Result<Vec<String>, Fault> {
    match env::args(rt) {
        Ok(all) => all.skip(1).collect(rt.alloc()).map_err(|_| Fault::Memory),
        Err(error) if error.kind() == ErrorKind::OutOfMemory => Err(Fault::Memory),
        Err(_) => Err(Fault::Words),
    }
}

// A connection on which the peer is named.
fn connect(rt: &HostRuntime) -> Result<Stream, Fault> {
    let all = command_words(rt)?;
    let Some(words) = read_words(all.as_slice()) else {
        return Err(Fault::Words);
    };
    let Some(line) = peer_line(rt.alloc(), words.names).map_err(|_| Fault::Memory)? else {
        return Err(Fault::Words);
    };
    let mut server = Stream::connect(rt, &words.address).map_err(|error| Fault::Connect(error))?;
    server
        .write_all(line.as_slice())
        .map_err(|error| Fault::Connect(error))?;
    Ok(server)
}

fn main(rt: HostRuntime) -> ExitCode {
    let carried = match connect(&rt) {
        Ok(server) => carry(&rt, server, rt.stdin(), &mut rt.stdout()),
        Err(fault) => Err(fault),
    };
    match carried {
        Ok(()) => ExitCode::SUCCESS,
        Err(fault) => {
            let _ = eprintln!(rt; "netconf-relay: {fault}");
            ExitCode::from(fault.status())
        }
    }
}
