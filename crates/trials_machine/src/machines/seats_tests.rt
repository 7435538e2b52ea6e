//! Which sessions are live (RFC 6241 8.1), and the numbers and readings of entries.
use super::{Happens, begin, each_is_entered, handled, start};
use nc_machine::Machine;
use nc_names::Many;
use nc_tree::MemKeeper;
use std::alloc::Global;
use std::process::Abort;

// Starts so many sessions.
fn starts(rt: &impl Abort, alloc: Global, machine: &mut Machine<MemKeeper>, count: u32) {
    for _ in 0..count {
        handled(rt, alloc, machine, start(rt, alloc), 0);
    }
}

const FULL: &[(Happens, u64, &str)] = &[
    (Happens::Starts, 5, "64 at 5: full 64 64"),
    (Happens::Ends(3), 6, "65 at 6: ended"),
    (Happens::Ends(3), 6, "66 at 6: not live"),
    (Happens::Starts, 7, "67 at 7: started 65"),
    (Happens::Starts, 7, "68 at 7: full 64 65"),
];

#[test]
fn sixty_four_sessions_are_live_at_once(rt: HostRuntime) {
    let alloc = rt.alloc();
    let mut machine = begin(&rt, alloc, Many::new(alloc));
    starts(&rt, alloc, &mut machine, 64);
    each_is_entered(&rt, alloc, &mut machine, FULL);
    drop(machine);
}

const OVER: &[(Happens, u64, &str)] = &[
    (Happens::Asks(1, "<get/>"), 1, "0 at 1: not live"),
    (Happens::Starts, 2, "1 at 2: started 1"),
    (Happens::Starts, 2, "2 at 2: started 2"),
    (Happens::IsRead, 3, "3 at 3: noted"),
    (Happens::Ticks, 4, "4 at 4: noted"),
    (
        Happens::Asks(1, "<close-session/>"),
        5,
        "5 at 5: <rpc-reply xmlns=\"urn:ietf:params:xml:ns:netconf:base:1.0\" message-id=\"1\"><ok/>\
         </rpc-reply>",
    ),
    (Happens::Asks(1, "<get/>"), 6, "6 at 6: not live"),
    (Happens::IsGone(1), 6, "7 at 6: not live"),
    (Happens::Asks(3, "<get/>"), 6, "8 at 6: not live"),
    (
        Happens::Asks(2, "<get/>"),
        7,
        "9 at 7: <rpc-reply xmlns=\"urn:ietf:params:xml:ns:netconf:base:1.0\" message-id=\"1\"><data/>\
         </rpc-reply>",
    ),
    (Happens::IsGone(2), 8, "10 at 8: ended"),
    (Happens::Asks(2, "<get/>"), 9, "11 at 9: not live"),
];

#[test]
fn a_session_that_is_over_is_not_answered(rt: HostRuntime) {
    let alloc = rt.alloc();
    let mut machine = begin(&rt, alloc, Many::new(alloc));
    each_is_entered(&rt, alloc, &mut machine, OVER);
    drop(machine);
}
