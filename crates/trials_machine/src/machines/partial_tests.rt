//! Partial locks among several sessions: what they are in the way of, in which order, and when they go
//! (RFC 5717 2).
use super::{Happens, begin, each_is_told, is_told};
use nc_names::Many;
use std::fmt::Write;

// Running has a host and two ports, of which the second has a speed.
const BEGUN: &[(Happens, u64, &str)] = &[
    (Happens::Starts, 0, "started 1"),
    (Happens::Starts, 0, "started 2"),
    (
        Happens::Asks(
            1,
            "<edit-config><target><candidate/></target><config><host xmlns=\"urn:ex\">h</host>\
             <port xmlns=\"urn:ex\"><name>a</name></port>\
             <port xmlns=\"urn:ex\"><name>b</name><speed>1</speed></port></config></edit-config>",
        ),
        0,
        "ok",
    ),
    (Happens::Asks(1, "<commit/>"), 0, "ok"),
];

// What is locked is locked with all below it, for other sessions alone.
const LOCKED: &[(Happens, u64, &str)] = &[
    (
        Happens::Asks(
            1,
            "<p:partial-lock xmlns:e=\"urn:ex\"><p:select>/e:host</p:select></p:partial-lock>",
        ),
        1,
        "lock 1",
    ),
    (
        Happens::Asks(
            1,
            "<p:partial-lock xmlns:e=\"urn:ex\"><p:select>/e:port[e:name='a']</p:select></p:partial-lock>",
        ),
        1,
        "lock 2",
    ),
    (
        Happens::Asks(
            2,
            "<p:partial-lock xmlns:e=\"urn:ex\"><p:select>/e:port[e:name='a']/e:name</p:select>\
             </p:partial-lock>",
        ),
        1,
        "LockPartial 2 1",
    ),
    (
        Happens::Asks(
            2,
            "<p:partial-lock xmlns:e=\"urn:ex\"><p:select>/e:port[e:name='b']/e:speed</p:select>\
             </p:partial-lock>",
        ),
        1,
        "lock 3",
    ),
    // A node above one that is locked.
    (
        Happens::Asks(
            1,
            "<p:partial-lock xmlns:e=\"urn:ex\"><p:select>/e:port[e:name='b']</p:select></p:partial-lock>",
        ),
        1,
        "LockPartial 3 2",
    ),
    // Of several the one with the lowest lock-id is told, whatever the order of the selects.
    (
        Happens::Asks(
            2,
            "<p:partial-lock xmlns:e=\"urn:ex\"><p:select>/e:port[e:name='a']</p:select>\
             <p:select>/e:host</p:select></p:partial-lock>",
        ),
        1,
        "LockPartial 1 1",
    ),
    // No select matches: that is looked at before the locks of others.
    (
        Happens::Asks(
            2,
            "<p:partial-lock xmlns:e=\"urn:ex\"><p:select>/e:port[e:name='a']/e:speed</p:select>\
             </p:partial-lock>",
        ),
        1,
        "NoMatch",
    ),
    (
        Happens::Asks(2, "<lock><target><running/></target></lock>"),
        1,
        "LockPartial 1 1",
    ),
    (
        Happens::Asks(1, "<lock><target><running/></target></lock>"),
        1,
        "LockPartial 3 2",
    ),
    (
        Happens::Asks(
            2,
            "<p:partial-unlock><p:lock-id>1</p:lock-id></p:partial-unlock>",
        ),
        1,
        "BadParameter lock-id",
    ),
];

// A commit is refused where it changes, deletes or creates a locked node.
const IN_USE: &[(Happens, u64, &str)] = &[
    (
        Happens::Asks(
            2,
            "<edit-config><target><candidate/></target><config><host xmlns=\"urn:ex\">i</host></config>\
             </edit-config>",
        ),
        2,
        "ok",
    ),
    (Happens::Asks(2, "<commit/>"), 2, "InUsePartial 1 1"),
    (Happens::Asks(2, "<discard-changes/>"), 2, "ok"),
    (
        Happens::Asks(
            2,
            "<edit-config><target><candidate/></target><config><port xmlns=\"urn:ex\"><name>a</name>\
             <speed>9</speed></port></config></edit-config>",
        ),
        2,
        "ok",
    ),
    (Happens::Asks(2, "<commit/>"), 2, "InUsePartial 2 1"),
    (Happens::Asks(2, "<discard-changes/>"), 2, "ok"),
    // What is deleted is looked at before what is updated, though that has the lower lock-id and stands
    // first.
    (
        Happens::Asks(
            2,
            "<edit-config><target><candidate/></target><config><host xmlns=\"urn:ex\">i</host>\
             <port xmlns=\"urn:ex\" xmlns:b=\"urn:ietf:params:xml:ns:netconf:base:1.0\" b:operation=\"delete\">\
             <name>a</name></port></config></edit-config>",
        ),
        2,
        "ok",
    ),
    (Happens::Asks(2, "<commit/>"), 2, "InUsePartial 2 1"),
    (Happens::Asks(2, "<discard-changes/>"), 2, "ok"),
    // What a session has locked itself, and what nobody has, it may change.
    (
        Happens::Asks(
            2,
            "<edit-config><target><candidate/></target><config><tag xmlns=\"urn:ex\">t</tag>\
             <port xmlns=\"urn:ex\"><name>b</name><speed>2</speed></port></config></edit-config>",
        ),
        3,
        "ok",
    ),
    (Happens::Asks(2, "<commit/>"), 3, "ok"),
];

// A commit that is pending is not cancelled by another session where what changes back is locked.
const CANCELLED: &[(Happens, u64, &str)] = &[
    (
        Happens::Asks(
            1,
            "<edit-config><target><candidate/></target><config><host xmlns=\"urn:ex\">j</host></config>\
             </edit-config>",
        ),
        4,
        "ok",
    ),
    (
        Happens::Asks(1, "<commit><confirmed/><persist>x</persist></commit>"),
        4,
        "ok",
    ),
    (
        Happens::Asks(
            2,
            "<p:partial-lock xmlns:e=\"urn:ex\"><p:select>/e:tag[.='t']</p:select></p:partial-lock>",
        ),
        4,
        "LockPending 1",
    ),
    (
        Happens::Asks(
            2,
            "<cancel-commit><persist-id>x</persist-id></cancel-commit>",
        ),
        4,
        "InUsePartial 1 1",
    ),
    (
        Happens::Asks(
            1,
            "<p:partial-unlock><p:lock-id>1</p:lock-id></p:partial-unlock>",
        ),
        5,
        "ok",
    ),
    (
        Happens::Asks(
            2,
            "<cancel-commit><persist-id>x</persist-id></cancel-commit>",
        ),
        5,
        "ok",
    ),
];

// The locks of a session go with it: where it ends, and where it is killed.
const GONE: &[(Happens, u64, &str)] = &[
    (Happens::Starts, 6, "started 3"),
    (Happens::IsGone(1), 6, "ended"),
    (
        Happens::Asks(
            3,
            "<p:partial-lock xmlns:e=\"urn:ex\"><p:select>/e:port[e:name='a']/e:name</p:select>\
             </p:partial-lock>",
        ),
        6,
        "lock 4",
    ),
    (
        Happens::Asks(
            3,
            "<p:partial-lock xmlns:e=\"urn:ex\"><p:select>/e:port[e:name='b']</p:select></p:partial-lock>",
        ),
        6,
        "LockPartial 3 2",
    ),
    (
        Happens::Asks(3, "<kill-session><session-id>2</session-id></kill-session>"),
        7,
        "ok",
    ),
    (
        Happens::Asks(3, "<lock><target><running/></target></lock>"),
        7,
        "ok",
    ),
    (
        Happens::Asks(
            3,
            "<p:partial-lock xmlns:e=\"urn:ex\"><p:select>/e:port[e:name='b']</p:select></p:partial-lock>",
        ),
        7,
        "LockHeld running 3",
    ),
    (
        Happens::Asks(3, "<unlock><target><running/></target></unlock>"),
        7,
        "ok",
    ),
    (
        Happens::Asks(
            3,
            "<p:partial-lock xmlns:e=\"urn:ex\"><p:select>/e:port[e:name='b']</p:select></p:partial-lock>",
        ),
        7,
        "lock 5",
    ),
];

#[test]
fn a_partial_lock_is_in_the_way_of_other_sessions(rt: HostRuntime) {
    let alloc = rt.alloc();
    let mut machine = begin(&rt, alloc, Many::new(alloc));
    each_is_told(&rt, alloc, &mut machine, BEGUN);
    each_is_told(&rt, alloc, &mut machine, LOCKED);
    each_is_told(&rt, alloc, &mut machine, IN_USE);
    each_is_told(&rt, alloc, &mut machine, CANCELLED);
    each_is_told(&rt, alloc, &mut machine, GONE);
    drop(machine);
}

const MORE: Happens = Happens::Asks(
    2,
    "<p:partial-lock xmlns:e=\"urn:ex\"><p:select>/e:host</p:select></p:partial-lock>",
);

// As many partial locks as a session may have, and what each is told.
const MOST: u32 = 64;

#[test]
fn a_session_has_at_most_64_partial_locks(rt: HostRuntime) {
    let alloc = rt.alloc();
    let mut machine = begin(&rt, alloc, Many::new(alloc));
    each_is_told(&rt, alloc, &mut machine, BEGUN);
    for lock in 1..=MOST {
        let mut wanted = String::new(alloc);
        write!(wanted, "lock {lock}").expect(&rt, "memory");
        is_told(&rt, alloc, &mut machine, MORE, 1, wanted.as_str());
    }
    is_told(&rt, alloc, &mut machine, MORE, 1, "Limit partial-locks");
    let freed = Happens::Asks(
        2,
        "<p:partial-unlock><p:lock-id>7</p:lock-id></p:partial-unlock>",
    );
    is_told(&rt, alloc, &mut machine, freed, 2, "ok");
    is_told(&rt, alloc, &mut machine, MORE, 2, "lock 65");
    drop(machine);
}
