//! The server `netconfd`: a NETCONF server (RFC 6241, 6242) for one session on standard input and standard
//! output, or for those of a socket, whose running configuration is kept in the folder of its device.
//!
//! All that it does is the call of `run` of `nc_program`, over the world that `main` hands in.
#![tactic(auto)]

mod adapters;

use adapters::SetupFiles;
use nc_edge::{FileDisk, PausingGate, SocketListener};
use nc_names::Memory;
use nc_outside::{MonotonicClock, ReaderSource, WriterSink};
use nc_patterns::RegexMaker;
use nc_program::{World, run, without_words};
use std::env;
use std::io::ErrorKind;
use std::process::ExitCode;

/// The words after the program's name. Where one is not UTF-8 there are none, which is a faulty command line
/// too.
fn command_words(rt: HostRuntime) -> Result<Vec<String>, Memory> {
    match env::args(&rt) {
        Ok(all) => all.skip(1).collect(rt.alloc()).map_err(|_| Memory),
        Err(error) if error.kind() == ErrorKind::OutOfMemory => Err(Memory),
        Err(_) => Ok(Vec::new(rt.alloc())),
    }
}

/// The folder of the device: the first word after the command that does not begin with a hyphen.
fn folder_of(words: &[String]) -> Option<&str> {
    for word in words.iter().skip(1) {
        if !word.as_str().starts_with('-') {
            return Some(word.as_str());
        }
    }
    None
}

/// The address of `serve DIR ADDRESS`. It is bound by the first call for a connection.
fn address_of(words: &[String]) -> Option<&str> {
    Some(words.get(2)?.as_str())
}

/// Ends a run that found no memory for its words, its disk or its listener.
fn without_memory(rt: HostRuntime) -> ExitCode {
    let mut notes = WriterSink::new(rt.stderr());
    ExitCode::from(without_words(&mut notes))
}

fn main(rt: HostRuntime) -> ExitCode {
    let Ok(words) = command_words(rt) else {
        return without_memory(rt);
    };
    let Ok(disk) = FileDisk::new(rt.alloc(), rt, folder_of(words.as_slice())) else {
        return without_memory(rt);
    };
    let Ok(listener) = SocketListener::new(rt.alloc(), rt, address_of(words.as_slice())) else {
        return without_memory(rt);
    };
    let world = World {
        files: SetupFiles::new(rt),
        disk,
        source: ReaderSource::new(rt.stdin()),
        sink: WriterSink::new(rt.stdout()),
        notes: WriterSink::new(rt.stderr()),
        clock: MonotonicClock::new(rt),
        listener,
        gate: PausingGate::new(rt),
        patterns: RegexMaker::new(rt.alloc()),
    };
    ExitCode::from(run(&rt, rt.alloc(), words.as_slice(), world).status)
}
