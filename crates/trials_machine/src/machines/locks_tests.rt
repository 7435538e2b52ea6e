//! Locks of datastores among several sessions, and what the end of one releases (RFC 6241 7.5, 7.6, 7.8, 7.9,
//! 8.3.5).
use super::{Happens, begin, each_is_told};
use nc_names::Many;

// Where the candidate's lock is held, and goes with the session and its changes.
const HELD: &[(Happens, u64, &str)] = &[
    (Happens::Starts, 0, "started 1"),
    (Happens::Starts, 0, "started 2"),
    (
        Happens::Asks(1, "<lock><target><candidate/></target></lock>"),
        1,
        "ok",
    ),
    (
        Happens::Asks(2, "<lock><target><candidate/></target></lock>"),
        1,
        "LockHeld candidate 1",
    ),
    (
        Happens::Asks(
            2,
            "<edit-config><target><candidate/></target><config><host xmlns=\"urn:ex\">b</host></config>\
             </edit-config>",
        ),
        2,
        "InUseGlobal candidate 1",
    ),
    (
        Happens::Asks(
            2,
            "<copy-config><target><candidate/></target><source><running/></source></copy-config>",
        ),
        2,
        "InUseGlobal candidate 1",
    ),
    (
        Happens::Asks(2, "<discard-changes/>"),
        2,
        "InUseGlobal candidate 1",
    ),
    (Happens::Asks(2, "<commit/>"), 2, "InUseGlobal candidate 1"),
    (
        Happens::Asks(2, "<unlock><target><candidate/></target></unlock>"),
        2,
        "NotHeld candidate",
    ),
    (
        Happens::Asks(
            1,
            "<edit-config><target><candidate/></target><config><host xmlns=\"urn:ex\">a</host></config>\
             </edit-config>",
        ),
        3,
        "ok",
    ),
    (
        Happens::Asks(2, "<get-config><source><candidate/></source></get-config>"),
        3,
        "rows 1",
    ),
    (Happens::IsGone(1), 4, "ended"),
    (
        Happens::Asks(2, "<get-config><source><candidate/></source></get-config>"),
        5,
        "rows 0",
    ),
    (
        Happens::Asks(2, "<lock><target><candidate/></target></lock>"),
        6,
        "ok",
    ),
];

// What the program cannot show of kill-session: another session is killed, and its locks are free.
const KILLED: &[(Happens, u64, &str)] = &[
    (
        Happens::Asks(2, "<lock><target><running/></target></lock>"),
        7,
        "ok",
    ),
    (Happens::Starts, 8, "started 3"),
    (Happens::Asks(3, "<commit/>"), 8, "InUseGlobal running 2"),
    (
        Happens::Asks(
            2,
            "<edit-config><target><candidate/></target><config><host xmlns=\"urn:ex\">c</host></config>\
             </edit-config>",
        ),
        9,
        "ok",
    ),
    (
        Happens::Asks(3, "<kill-session><session-id>2</session-id></kill-session>"),
        9,
        "ok",
    ),
    (Happens::Asks(2, "<get/>"), 9, "not live"),
    (Happens::IsGone(2), 9, "not live"),
    (
        Happens::Asks(3, "<get-config><source><candidate/></source></get-config>"),
        10,
        "rows 0",
    ),
    (
        Happens::Asks(3, "<lock><target><running/></target></lock>"),
        10,
        "ok",
    ),
    (
        Happens::Asks(3, "<lock><target><candidate/></target></lock>"),
        10,
        "ok",
    ),
    (
        Happens::Asks(3, "<kill-session><session-id>2</session-id></kill-session>"),
        10,
        "NotLiveTarget",
    ),
    (Happens::Asks(3, "<close-session/>"), 11, "ok"),
    (Happens::Starts, 12, "started 4"),
    (
        Happens::Asks(4, "<lock><target><running/></target></lock>"),
        12,
        "ok",
    ),
];

#[test]
fn a_lock_is_in_the_way_of_others_until_its_session_is_over(rt: HostRuntime) {
    let alloc = rt.alloc();
    let mut machine = begin(&rt, alloc, Many::new(alloc));
    each_is_told(&rt, alloc, &mut machine, HELD);
    each_is_told(&rt, alloc, &mut machine, KILLED);
    drop(machine);
}
