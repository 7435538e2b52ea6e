//! A machine of the sample schema over a keeper in memory, what is asked of it, and what it answers, as
//! texts. The tests show of the server what its program does not; they stand below this module and see what
//! is private in it.
//!
//! Values that are large to let go are on the heap, helpers only borrow the machine that they drive, and what
//! branches owns nothing: so each helper is proved in seconds.
mod asked_tests;
mod confirm_tests;
mod keeper_tests;
mod locks_tests;
mod named_tests;
mod partial_tests;
mod replies_tests;
mod seats_tests;
mod solo_tests;

ghost use Rattle.std.specs.Prelude.{◌≡◌, ◌≤◌, ◌<◌};
ghost use Rattle.nc_names.specs.Limits.{most_requests};
ghost use Rattle.nc_protocol.specs.Proper.{IsProper};
ghost use Rattle.nc_model.specs.ProperEvents.{IsProperEvent};
ghost use Rattle.nc_outside.specs.Clocks.{last_reading};
ghost use Rattle.trials_machine.specs.Sample.{sample};

use crate::laws::sample_is_proper;
use crate::sample::schema;
use nc_machine::Machine;
use nc_message::{Tree, Why};
use nc_message_read::{MessageFault, read_message};
use nc_model::{Entry, Event, Outcome};
use nc_names::{Boxed, Bytes, MOST_REQUESTS, Many, Text};
use nc_print::write_reply;
use nc_protocol::{Cause, Peer, Reply, Request, Verdict, decoded_is_proper};
use nc_requests::decode;
use nc_schema::Schema;
use nc_tree::{Config, MemKeeper};
use std::alloc::Global;
use std::fmt::Write;
use std::process::Abort;
use std::str;
use std::sync::Arc;

fn put(rt: &impl Abort, shown: &mut String, text: &str) {
    shown.push_str(text).expect(rt, "memory");
}

// Looks whether what is found for a case is what is wanted.
fn is_same(rt: &impl Abort, case: &str, found: &str, wanted: &str) {
    assert!(rt; found == wanted, "{case}: {found}");
}

// ---- a machine

fn shared_schema(rt: &impl Abort, alloc: Global) -> Arc<Schema, Global>
    ensures { result.value ≡ sample }
{
    let schema = schema(alloc).expect(rt, "memory");
    Arc::new(alloc, schema).expect(rt, "memory")
}

// A machine without configuration, whose keeper fails at these of its commits.
fn begin(rt: &impl Abort, alloc: Global, failing: Many<u64>) -> Machine<MemKeeper> {
    sample_is_proper();
    let keeper = MemKeeper::new(Config::empty(alloc), failing);
    let schema = shared_schema(rt, alloc);
    match Machine::begin(alloc, schema, Config::empty(alloc), keeper) {
        Ok(machine) => machine,
        Err(_) => panic!(rt; "memory"),
    }
}

// The latest reading of a clock, in milliseconds.
const LAST_READING: u64 = 1 << 62;

// One more event may be handed in, with that reading of the clock.
fn has_room(rt: &impl Abort, machine: &Machine<MemKeeper>, at: u64)
    ensures count { machine.now.count < most_requests }
    ensures at { at ≤ last_reading }
{
    assert!(rt; machine.count() < MOST_REQUESTS);
    assert!(rt; at <= LAST_READING);
}

fn boxed(rt: &impl Abort, alloc: Global, entry: Entry) -> Boxed<Entry> {
    Boxed::new(alloc, entry).expect(rt, "memory")
}

// The entry of an event, with that reading of the clock.
fn handled(
    rt: &impl Abort,
    alloc: Global,
    machine: &mut Machine<MemKeeper>,
    event: Event,
    at: u64,
) -> Boxed<Entry>
    requires { IsProperEvent event }
{
    has_room(rt, machine, at);
    let entry = machine.handle(event, at).expect(rt, "memory");
    boxed(rt, alloc, entry)
}

// ---- what is asked

const HEAD: &str = "<rpc message-id=\"1\" xmlns=\"urn:ietf:params:xml:ns:netconf:base:1.0\" \
    xmlns:p=\"urn:ietf:params:xml:ns:netconf:partial-lock:1.0\">";

// The `rpc` of an operation. `p` is the prefix of those of partial locks.
fn message(rt: &impl Abort, alloc: Global, operation: &str) -> String {
    let mut message = String::new(alloc);
    put(rt, &mut message, HEAD);
    put(rt, &mut message, operation);
    put(rt, &mut message, "</rpc>");
    message
}

fn read(rt: &impl Abort, alloc: Global, message: &[u8]) -> Result<Tree, Why> {
    match read_message(alloc, message) {
        Ok(tree) => Ok(tree),
        Err(MessageFault::Malformed { at: _, why }) => Err(why),
        Err(MessageFault::Memory) => panic!(rt; "memory"),
    }
}

fn decoded(rt: &impl Abort, alloc: Global, message: &[u8]) -> Request
    ensures { IsProper result }
{
    decoded_is_proper();
    decode(alloc, read(rt, alloc, message)).expect(rt, "memory")
}

// The request of an operation, on the heap: what lets it go there is proved once.
fn asked(rt: &impl Abort, alloc: Global, operation: &str) -> Boxed<Request> {
    let message = message(rt, alloc, operation);
    let request = decoded(rt, alloc, message.as_bytes());
    Boxed::new(alloc, request).expect(rt, "memory")
}

// A session's request of that operation, as an event.
fn request(rt: &impl Abort, alloc: Global, session: u32, operation: &str) -> Event
    ensures { IsProperEvent result }
{
    let message = message(rt, alloc, operation);
    let request = decoded(rt, alloc, message.as_bytes());
    Event::Request { session, request }
}

// The start of a recovery session, to which access control denies nothing, as an event.
fn start(rt: &impl Abort, alloc: Global) -> Event
    ensures { IsProperEvent result }
{
    let peer = Peer {
        user: Text::from_text(alloc, "ada").expect(rt, "memory"),
        groups: Many::new(alloc),
        recovery: true,
    };
    Event::Start { peer }
}

// ---- what is answered

fn put_reply(rt: &impl Abort, alloc: Global, shown: &mut String, reply: &Reply) {
    let mut out = Bytes::new(alloc);
    write_reply(alloc, reply, &mut out).expect(rt, "memory");
    put(
        rt,
        shown,
        str::from_utf8(out.as_slice()).unwrap_or("no text"),
    );
}

// What comes of an event: the reply to a request, and words for the rest.
fn put_outcome(rt: &impl Abort, alloc: Global, shown: &mut String, outcome: &Outcome) {
    match outcome {
        Outcome::Started { session } => write!(shown, "started {session}").expect(rt, "memory"),
        Outcome::Full { live, last } => write!(shown, "full {live} {last}").expect(rt, "memory"),
        Outcome::Answered { verdict: _, reply } => put_reply(rt, alloc, shown, reply),
        Outcome::NotLive => put(rt, shown, "not live"),
        Outcome::Ended => put(rt, shown, "ended"),
        Outcome::Noted => put(rt, shown, "noted"),
    }
}

// An entry: its number, its reading of the clock, and what comes of its event.
fn put_entry(rt: &impl Abort, alloc: Global, shown: &mut String, entry: &Entry) {
    write!(shown, "{} at {}: ", entry.number, entry.at).expect(rt, "memory");
    put_outcome(rt, alloc, shown, &entry.outcome);
}

fn entry_text(rt: &impl Abort, alloc: Global, entry: &Entry) -> String {
    let mut shown = String::new(alloc);
    put_entry(rt, alloc, &mut shown, entry);
    shown
}

// ---- what is told, in short

fn put_cause(rt: &impl Abort, shown: &mut String, cause: &Cause) {
    write!(shown, "{:?}", cause.kind).expect(rt, "memory");
    for name in cause.names.as_slice() {
        put(rt, shown, " ");
        put(rt, shown, name.as_str());
    }
}

// A verdict: its causes, or what it grants.
fn put_verdict(rt: &impl Abort, shown: &mut String, verdict: &Verdict) {
    match verdict {
        Verdict::Done => put(rt, shown, "ok"),
        Verdict::Selected { rows } => write!(shown, "rows {}", rows.len()).expect(rt, "memory"),
        Verdict::Locked { lock, nodes: _ } => write!(shown, "lock {lock}").expect(rt, "memory"),
        Verdict::Refused { causes } => {
            for cause in causes.as_slice() {
                put_cause(rt, shown, cause);
            }
        }
    }
}

fn put_told(rt: &impl Abort, alloc: Global, shown: &mut String, outcome: &Outcome) {
    match outcome {
        Outcome::Answered { verdict, reply: _ } => put_verdict(rt, shown, verdict),
        _ => put_outcome(rt, alloc, shown, outcome),
    }
}

fn told_text(rt: &impl Abort, alloc: Global, entry: &Entry) -> String {
    let mut shown = String::new(alloc);
    put_told(rt, alloc, &mut shown, &entry.outcome);
    shown
}

// ---- histories

// What happens to a machine: an event that is handed in, or one of its own calls.
#[derive(Clone, Copy)]
enum Happens {
    Starts,
    // That session asks for that, whole.
    Asks(u32, &'static str),
    IsGone(u32),
    IsRead,
    // The call that ends that session.
    Ends(u32),
    // The call that reads the clock.
    Ticks,
}

fn ended(
    rt: &impl Abort,
    alloc: Global,
    machine: &mut Machine<MemKeeper>,
    session: u32,
    at: u64,
) -> Boxed<Entry> {
    has_room(rt, machine, at);
    boxed(rt, alloc, machine.end(session, at))
}

fn ticked(
    rt: &impl Abort,
    alloc: Global,
    machine: &mut Machine<MemKeeper>,
    at: u64,
) -> Boxed<Entry> {
    has_room(rt, machine, at);
    boxed(rt, alloc, machine.tick(at))
}

// The entry that comes of it, with that reading of the clock.
fn entry(
    rt: &impl Abort,
    alloc: Global,
    machine: &mut Machine<MemKeeper>,
    happens: Happens,
    at: u64,
) -> Boxed<Entry> {
    match happens {
        Happens::Starts => handled(rt, alloc, machine, start(rt, alloc), at),
        Happens::Asks(session, whole) => {
            let event = request(rt, alloc, session, whole);
            handled(rt, alloc, machine, event, at)
        }
        Happens::IsGone(session) => handled(rt, alloc, machine, Event::End { session }, at),
        Happens::IsRead => handled(rt, alloc, machine, Event::Reading, at),
        Happens::Ends(session) => ended(rt, alloc, machine, session, at),
        Happens::Ticks => ticked(rt, alloc, machine, at),
    }
}

// Looks whether the entry of it is shown so.
fn is_entered(
    rt: &impl Abort,
    alloc: Global,
    machine: &mut Machine<MemKeeper>,
    happens: Happens,
    at: u64,
    wanted: &str,
) {
    let entry = entry(rt, alloc, machine, happens, at);
    let found = entry_text(rt, alloc, entry.get());
    is_same(rt, "entry", found.as_str(), wanted);
}

fn each_is_entered(
    rt: &impl Abort,
    alloc: Global,
    machine: &mut Machine<MemKeeper>,
    cases: &[(Happens, u64, &str)],
) {
    for (happens, at, wanted) in cases {
        is_entered(rt, alloc, machine, *happens, *at, wanted);
    }
}

// Looks whether what comes of it is told so, in short.
fn is_told(
    rt: &impl Abort,
    alloc: Global,
    machine: &mut Machine<MemKeeper>,
    happens: Happens,
    at: u64,
    wanted: &str,
) {
    let entry = entry(rt, alloc, machine, happens, at);
    let found = told_text(rt, alloc, entry.get());
    is_same(rt, "told", found.as_str(), wanted);
}

fn each_is_told(
    rt: &impl Abort,
    alloc: Global,
    machine: &mut Machine<MemKeeper>,
    cases: &[(Happens, u64, &str)],
) {
    for (happens, at, wanted) in cases {
        is_told(rt, alloc, machine, *happens, *at, wanted);
    }
}
