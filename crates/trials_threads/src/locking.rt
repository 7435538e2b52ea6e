//! Two sessions in two threads, which lock and unlock the running configuration.
//!
//! Each request is answered once, whatever the other thread does: a lock with ok, or with the error that it
//! is the other's; an unlock with ok exactly where the lock before it was.
use crate::sample::machine;
use nc_names::{Bytes, Many, Text};
use nc_outside::{MemClock, MemSink, MemSource};
use nc_protocol::Peer;
use nc_schema::Schema;
use nc_session::SessionEnd;
use nc_shared::Shared;
use nc_tree::MemKeeper;
use std::alloc::Global;
use std::process::Abort;
use std::sync::Wait;
use std::test::*;
use std::thread::Threads;
use trials_shared::{Client, Over, Together, serve_two};

const HELLO: &str =
    "<hello xmlns=\"urn:ietf:params:xml:ns:netconf:base:1.0\"><capabilities><capability>\
    urn:ietf:params:netconf:base:1.0</capability></capabilities></hello>]]>]]>";

const LOCK: &str = "<rpc xmlns=\"urn:ietf:params:xml:ns:netconf:base:1.0\" message-id=\"1\">\
    <lock><target><running/></target></lock></rpc>]]>]]>";

const UNLOCK: &str = "<rpc xmlns=\"urn:ietf:params:xml:ns:netconf:base:1.0\" message-id=\"2\">\
    <unlock><target><running/></target></unlock></rpc>]]>]]>";

const CLOSE: &str = "<rpc xmlns=\"urn:ietf:params:xml:ns:netconf:base:1.0\" message-id=\"3\">\
    <close-session/></rpc>]]>]]>";

fn push(rt: &impl Abort, bytes: &mut Vec<u8>, text: &str) {
    bytes
        .extend_from_slice(text.as_bytes())
        .expect(rt, "memory");
}

// The bytes of a client that locks and unlocks so often, and then closes its session.
fn asks(rt: &impl Abort, alloc: Global, rounds: u64) -> Vec<u8> {
    let mut bytes = Vec::new(alloc);
    push(rt, &mut bytes, HELLO);
    for _round in 0..rounds {
        push(rt, &mut bytes, LOCK);
        push(rt, &mut bytes, UNLOCK);
    }
    push(rt, &mut bytes, CLOSE);
    bytes
}

// A client to whom access control denies nothing.
fn client(rt: &impl Abort, alloc: Global, rounds: u64) -> Client<MemSource, MemSink> {
    Client {
        peer: Peer {
            user: Text::new(alloc),
            groups: Many::new(alloc),
            recovery: true,
        },
        source: MemSource::new(
            Bytes::from_vec(asks(rt, alloc, rounds)),
            512,
            Many::new(alloc),
        ),
        sink: MemSink::new(alloc, Many::new(alloc)),
    }
}

// Two sessions that lock and unlock so often each.
fn locked<R: Threads + Wait + Abort + Sync>(
    rt: &R,
    alloc: Global,
    rounds: u64,
) -> Together<MemKeeper, MemClock, MemSource, MemSink> {
    let machine = machine(alloc).expect(rt, "memory");
    let Ok((shared, pass)) = Shared::new(alloc, machine, MemClock::new(Many::new(alloc))) else {
        panic!(rt; "memory")
    };
    let schema = Schema::new(alloc);
    let near = client(rt, alloc, rounds);
    let far = client(rt, alloc, rounds);
    serve_two(rt, alloc, shared, pass, &schema, near, far)
}

// How often a text stands in bytes.
fn count_of(bytes: &[u8], text: &str) -> u64 {
    let mut count = 0u64;
    for at in 0..bytes.len() {
        if bytes[at..].starts_with(text.as_bytes()) {
            count = count.saturating_add(1);
        }
    }
    count
}

// Whether the session was closed, each of its requests answered, and each lock that it got given back.
fn is_answered(over: &Over<MemSource, MemSink>, rounds: u64) -> bool {
    let told = over.sink.taken();
    let done = count_of(told, "<ok/>");
    let denied = count_of(told, "<error-tag>lock-denied</error-tag>");
    matches!(over.end, SessionEnd::Closed)
        && count_of(told, "<rpc-reply ") == rounds.wrapping_mul(2).wrapping_add(1)
        && done % 2 == 1
        && (done / 2).wrapping_add(denied) == rounds
}

#[test]
fn two_threads_lock_and_unlock(rt: HostRuntime) {
    for rounds in [1u64, 100] {
        let it = locked(&rt, rt.alloc(), rounds);
        assert!(rt; is_answered(&it.first, rounds));
        assert!(rt; is_answered(&it.second, rounds));
        assert_eq!(rt; it.machine.count(), rounds.wrapping_mul(4).wrapping_add(4));
    }
}
