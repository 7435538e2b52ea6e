//! Connections in memory.
ghost use Rattle.std.specs.Prelude.{◌≡◌, false};

use crate::gates::{Holding, Until};
use crate::sample::machine;
use crate::streams::{Flag, Input, Told};
use nc_names::{Bytes, Many};
use nc_outside::{Joined, MemClock, MemListener, MemSource};
use nc_schema::Schema;
use nc_server::ServeEnd;
use nc_shared::serve_shared;
use std::alloc::Global;
use std::process::Abort;
use std::sync::atomic::{AtomicU64, Ordering};
use std::sync::{Mutex, Wait};
use std::test::*;
use std::thread::Threads;

// A client that closes its session. By a schema without modules, which has no defaults for access, it may do
// nothing else.
const ASKS: &str =
    "<hello xmlns=\"urn:ietf:params:xml:ns:netconf:base:1.0\"><capabilities><capability>\
    urn:ietf:params:netconf:base:1.0</capability></capabilities></hello>]]>]]>\
    <rpc xmlns=\"urn:ietf:params:xml:ns:netconf:base:1.0\" message-id=\"1\"><close-session/></rpc>]]>]]>";

// What it is answered after the hello.
const REPLIES: &str = "]]>]]>\
    <rpc-reply xmlns=\"urn:ietf:params:xml:ns:netconf:base:1.0\" message-id=\"1\"><ok/></rpc-reply>]]>]]>";

// What two connections share with their test.
#[derive(Drop)]
struct Stage {
    first: Mutex<Vec<u8>>,
    second: Mutex<Vec<u8>>,
    idle: AtomicU64,
    hung_up: AtomicU64,
    gate: Holding,
}

impl Stage {
    fn new(alloc: Global, until: Until) -> Stage {
        Stage {
            first: Mutex::new(Vec::new(alloc)),
            second: Mutex::new(Vec::new(alloc)),
            idle: AtomicU64::new(0),
            hung_up: AtomicU64::new(0),
            gate: Holding::new(until),
        }
    }
}

// A connection of a test, and a listener that gives such.
type Connection<'e, R> = Joined<Input<'e>, Told<'e, R>, Flag<'e>>;

type Door<'e, R> = MemListener<Input<'e>, Told<'e, R>, Flag<'e>>;

// What became of two connections.
#[derive(Drop)]
struct Shown {
    end: ServeEnd,
    first: Vec<u8>,
    second: Vec<u8>,
    hung_up: u64,
    gave_up: u64,
    entries: u64,
}

// The line of a peer, and the bytes after it.
fn source(rt: &impl Abort, alloc: Global, line: &str, rest: &str) -> MemSource {
    let mut bytes = Vec::from_slice(alloc, line.as_bytes()).expect(rt, "memory");
    bytes
        .extend_from_slice(rest.as_bytes())
        .expect(rt, "memory");
    MemSource::new(Bytes::from_vec(bytes), 7, Many::new(alloc))
}

fn first<'e, R>(rt: &'e R, stage: &'e Stage, bytes: MemSource) -> Connection<'e, R> {
    Joined {
        input: Input::new(bytes, &stage.idle, false),
        output: Told::new(rt, &stage.first),
        line: Flag {
            hung_up: &stage.idle,
        },
    }
}

// The second connection is silent after its bytes.
fn second<'e, R>(rt: &'e R, stage: &'e Stage, bytes: MemSource) -> Connection<'e, R> {
    Joined {
        input: Input::new(bytes, &stage.hung_up, true),
        output: Told::new(rt, &stage.second),
        line: Flag {
            hung_up: &stage.hung_up,
        },
    }
}

// Adds a connection to those that a listener gives.
fn add<'e, R>(rt: &impl Abort, door: &mut Door<'e, R>, joined: Connection<'e, R>)
    requires { (door.old.failed ≡ 0) × (door.old.over ≡ false) }
    ensures { (door.new.failed ≡ 0) × (door.new.over ≡ false) }
{
    if door.add(joined).is_err() {
        panic!(rt; "memory");
    }
}

// Serves what a listener gives: how it ended, and how many entries the history has.
fn serve_at<'e, R: Threads + Wait + Abort + Sync>(
    rt: &'e R,
    alloc: Global,
    stage: &'e Stage,
    mut door: Door<'e, R>,
) -> (ServeEnd, u64)
    requires { (door.failed ≡ 0) × (door.over ≡ false) }
{
    let schema = Schema::new(alloc);
    let clock = MemClock::new(Many::new(alloc));
    let machine = machine(alloc).expect(rt, "memory");
    match serve_shared(rt, alloc, machine, clock, &mut door, &schema, &stage.gate) {
        Ok(it) => (it.end, it.machine.count()),
        Err(_) => panic!(rt; "memory"),
    }
}

// What a stage shows after its connections ended.
fn shown_by(stage: Stage, end: ServeEnd, entries: u64) -> Shown {
    let Stage {
        first,
        second,
        idle: _,
        hung_up,
        gate,
    } = stage;
    Shown {
        end,
        first: first.into_inner(),
        second: second.into_inner(),
        hung_up: hung_up.load(Ordering::SeqCst),
        gave_up: gate.gave_up.load(Ordering::SeqCst),
        entries,
    }
}

// A connection of bob, which is held so long, beside another one with that line: whether that names a peer,
// and how many entries there are at least.
struct Case {
    until: Until,
    line: &'static str,
    is_peer: bool,
    least: u64,
}

// Two entries are of each session, and as many as there were rests of the worker that reads the clock.
const CASES: &[Case] = &[
    Case {
        until: Until::Left(1),
        line: "alice\n",
        is_peer: true,
        least: 4,
    },
    Case {
        until: Until::Rests(4),
        line: "alice\n",
        is_peer: true,
        least: 8,
    },
    Case {
        until: Until::Never,
        line: " x\n",
        is_peer: false,
        least: 2,
    },
];

fn served<R: Threads + Wait + Abort + Sync>(rt: &R, alloc: Global, case: &Case) -> Shown {
    let stage = Stage::new(alloc, case.until);
    let mut door = MemListener::new(alloc, Many::new(alloc));
    let bob = source(rt, alloc, "bob ops\n", ASKS);
    let other = source(rt, alloc, case.line, ASKS);
    add(rt, &mut door, first(rt, &stage, bob));
    add(rt, &mut door, second(rt, &stage, other));
    let (end, entries) = serve_at(rt, alloc, &stage, door);
    shown_by(stage, end, entries)
}

// How many failures in a row ended serving; 0 where no connection would come any more.
fn failures_of(end: &ServeEnd) -> u32 {
    match end {
        ServeEnd::NoMore => 0,
        ServeEnd::ListenFault { in_a_row } => *in_a_row,
    }
}

// Whether what was written is all that is answered, or nothing where no peer was read.
fn is_answered(written: &[u8], is_peer: bool) -> bool {
    if is_peer {
        written.ends_with(REPLIES.as_bytes())
    } else {
        written.is_empty()
    }
}

#[test]
fn connections_are_served_beside_one_another(rt: HostRuntime) {
    for case in CASES {
        let shown = served(&rt, rt.alloc(), case);
        assert_eq!(rt; failures_of(&shown.end), 0);
        assert_eq!(rt; shown.gave_up, 0);
        assert!(rt; is_answered(shown.first.as_slice(), true));
        assert!(rt; is_answered(shown.second.as_slice(), case.is_peer));
        assert!(rt; case.is_peer || shown.hung_up == 1);
        assert!(rt; shown.entries >= case.least);
    }
}

// A listener that fails at all calls up to one, but for the call that gives a silent connection; 0 is none.
// So many failures in a row end serving.
struct Failing {
    gives: u64,
    to: u64,
    failures: u32,
}

const FAILING: &[Failing] = &[
    Failing {
        gives: 1,
        to: 17,
        failures: 16,
    },
    Failing {
        gives: 0,
        to: 16,
        failures: 16,
    },
    Failing {
        gives: 0,
        to: 15,
        failures: 0,
    },
    Failing {
        gives: 16,
        to: 32,
        failures: 16,
    },
];

// The calls at which a listener fails.
fn failing_calls(rt: &impl Abort, alloc: Global, case: &Failing) -> Many<u64> {
    let mut calls = Many::new(alloc);
    for call in 1..=case.to {
        if call != case.gives {
            calls.push(call).expect(rt, "memory");
        }
    }
    calls
}

fn failed<R: Threads + Wait + Abort + Sync>(rt: &R, alloc: Global, case: &Failing) -> Shown {
    let stage = Stage::new(alloc, Until::Never);
    let mut door = MemListener::new(alloc, failing_calls(rt, alloc, case));
    if case.gives > 0 {
        let silent = source(rt, alloc, "alice\n", "");
        add(rt, &mut door, second(rt, &stage, silent));
    }
    let (end, entries) = serve_at(rt, alloc, &stage, door);
    shown_by(stage, end, entries)
}

#[test]
fn sixteen_failures_in_a_row_hang_up_all_lines(rt: HostRuntime) {
    for case in FAILING {
        let shown = failed(&rt, rt.alloc(), case);
        assert_eq!(rt; failures_of(&shown.end), case.failures);
        assert_eq!(rt; shown.hung_up, u64::from(case.gives > 0));
    }
}
