//! The listener against the operating system, at sockets in the working folder, which each test removes.
use nc_edge::{Address, Connection, SocketListener, Stream};
use nc_outside::{Hangup, Listener, Sink, Source};
use std::fs;
use std::io::{Read, Write};
use std::os::unix::net::UnixListener;
use std::process::Abort;
use std::thread::{Threads, join, yield_now};

// So often a test tries to connect at most.
const TRIES: u32 = 10_000_000;

fn listener(rt: HostRuntime, word: Option<&str>) -> Option<SocketListener> {
    SocketListener::new(rt.alloc(), rt, word).ok()
}

// Connects to a socket, as soon as it is there.
fn dial(rt: &HostRuntime, path: &str) -> Option<Stream> {
    for _ in 0..TRIES {
        if let Ok(stream) = Stream::connect(rt, &Address::Unix { path }) {
            return Some(stream);
        }
        yield_now();
    }
    None
}

fn accept(mut listener: SocketListener) -> Option<Connection> {
    listener.accept().ok().flatten()
}

// Both ends of a connection at a path.
fn connected<R: Threads + Abort + Sync>(
    rt: &R,
    host: &HostRuntime,
    listener: SocketListener,
    path: &str,
) -> (Connection, Stream) {
    let (ours, theirs) = join(rt, || accept(listener), || dial(host, path));
    let _ = fs::remove_file(host, path);
    (
        ours.expect(rt, "one comes"),
        theirs.expect(rt, "one is there"),
    )
}

#[test]
fn a_line_that_is_hung_up_ends_both(rt: HostRuntime) {
    let _ = fs::remove_file(&rt, "nc_edge_line");
    let listener = listener(rt, Some("unix:nc_edge_line")).expect(&rt, "memory");
    let (mut ours, mut theirs) = connected(&rt, &rt, listener, "nc_edge_line");
    let mut bytes = [0; 4];
    assert!(rt; theirs.write_all(b"abc").is_ok());
    assert!(rt; ours.input.read(&mut bytes) == Ok(3));
    assert!(rt; ours.output.write(b"de") == Ok(2));
    ours.line.hang_up();
    assert!(rt; ours.input.read(&mut bytes) == Ok(0));
    assert!(rt; ours.output.write(b"f").is_err());
    assert!(rt; matches!(theirs.read(&mut bytes), Ok(2)));
    assert!(rt; matches!(theirs.read(&mut bytes), Ok(0)));
}

#[test]
fn a_socket_that_was_left_is_bound_again(rt: HostRuntime) {
    let _ = fs::remove_file(&rt, "nc_edge_left");
    drop(UnixListener::bind(&rt, "nc_edge_left").expect(&rt, "a socket"));
    let listener = listener(rt, Some("unix:nc_edge_left")).expect(&rt, "memory");
    let (_ours, _theirs) = connected(&rt, &rt, listener, "nc_edge_left");
}

#[test]
fn what_cannot_be_bound_fails(rt: HostRuntime) {
    let _ = fs::remove_file(&rt, "nc_edge_served");
    let served = UnixListener::bind(&rt, "nc_edge_served").expect(&rt, "a socket");
    fs::write(&rt, "nc_edge_plain", b"kept").expect(&rt, "a file");
    let long = "unix:0123456789012345678901234567890123456789012345678901234567890123456789\
        01234567890123456789012345678901234567";
    for word in [
        None,
        Some("unix:"),
        Some("tcp:065"),
        Some("unix:nc_edge_served"),
        Some("unix:nc_edge_plain"),
        Some(long),
    ] {
        let mut listener = listener(rt, word).expect(&rt, "memory");
        assert!(rt; listener.accept().is_err());
        assert!(rt; listener.accept().is_err());
    }
    assert!(rt; fs::remove_file(&rt, "nc_edge_plain").is_ok());
    assert!(rt; fs::remove_file(&rt, "nc_edge_served").is_ok());
    drop(served);
}
