//! Commits that wait to be confirmed, among several sessions and as time goes by (RFC 6241 8.4).
use super::{Happens, begin, each_is_told};
use nc_names::Many;

// The time is over at the deadline and not before it: one second after the commit.
const LATE: &[(Happens, u64, &str)] = &[
    (Happens::Starts, 0, "started 1"),
    (Happens::Starts, 0, "started 2"),
    (
        Happens::Asks(
            1,
            "<edit-config><target><candidate/></target><config><host xmlns=\"urn:ex\">a</host></config></edit-config>",
        ),
        10,
        "ok",
    ),
    (
        Happens::Asks(
            1,
            "<commit><confirmed/><confirm-timeout>1</confirm-timeout></commit>",
        ),
        10,
        "ok",
    ),
    (Happens::Asks(2, "<commit/>"), 20, "InUsePending 1"),
    (
        Happens::Asks(2, "<lock><target><running/></target></lock>"),
        20,
        "LockPending 1",
    ),
    (Happens::Asks(2, "<cancel-commit/>"), 20, "InUsePending 1"),
    (
        Happens::Asks(2, "<commit><persist-id>t</persist-id></commit>"),
        20,
        "BadToken",
    ),
    (Happens::Asks(2, "<get/>"), 1009, "rows 1"),
    (Happens::IsRead, 1010, "noted"),
    (Happens::Asks(2, "<get/>"), 1010, "rows 0"),
    (Happens::Asks(1, "<cancel-commit/>"), 1011, "NoPending"),
    (
        Happens::Asks(2, "<lock><target><running/></target></lock>"),
        1011,
        "ok",
    ),
    (
        Happens::Asks(2, "<unlock><target><running/></target></unlock>"),
        1011,
        "ok",
    ),
];

// A follow-up has a new deadline and the first base; the clock is read by requests too.
const FOLLOWED: &[(Happens, u64, &str)] = &[
    (
        Happens::Asks(
            1,
            "<edit-config><target><candidate/></target><config><host xmlns=\"urn:ex\">a</host></config></edit-config>",
        ),
        2000,
        "ok",
    ),
    (
        Happens::Asks(
            1,
            "<commit><confirmed/><confirm-timeout>1</confirm-timeout></commit>",
        ),
        2000,
        "ok",
    ),
    (
        Happens::Asks(
            1,
            "<edit-config><target><candidate/></target><config><host xmlns=\"urn:ex\">b</host></config></edit-config>",
        ),
        2500,
        "ok",
    ),
    (
        Happens::Asks(
            1,
            "<commit><confirmed/><confirm-timeout>2</confirm-timeout></commit>",
        ),
        2500,
        "ok",
    ),
    (Happens::Asks(2, "<get/>"), 4499, "rows 1"),
    (Happens::Asks(2, "<get/>"), 4500, "rows 0"),
];

// The end of its session reverts a pending commit, unless it persists: then any session has to give its text.
const ENDED: &[(Happens, u64, &str)] = &[
    (
        Happens::Asks(
            1,
            "<edit-config><target><candidate/></target><config><host xmlns=\"urn:ex\">a</host></config></edit-config>",
        ),
        5000,
        "ok",
    ),
    (
        Happens::Asks(1, "<commit><confirmed/></commit>"),
        5000,
        "ok",
    ),
    (
        Happens::Asks(2, "<kill-session><session-id>1</session-id></kill-session>"),
        5001,
        "ok",
    ),
    (Happens::Asks(2, "<get/>"), 5002, "rows 0"),
    (Happens::Starts, 5003, "started 3"),
    (
        Happens::Asks(
            3,
            "<edit-config><target><candidate/></target><config><host xmlns=\"urn:ex\">a</host></config></edit-config>",
        ),
        5004,
        "ok",
    ),
    (
        Happens::Asks(3, "<commit><confirmed/><persist>t</persist></commit>"),
        5004,
        "ok",
    ),
    (Happens::IsGone(3), 5005, "ended"),
    (Happens::Asks(2, "<get/>"), 5006, "rows 1"),
    (Happens::Asks(2, "<commit/>"), 5006, "InUsePending 0"),
    (
        Happens::Asks(2, "<commit><persist-id>u</persist-id></commit>"),
        5006,
        "BadToken",
    ),
    (
        Happens::Asks(2, "<commit><persist-id>t</persist-id></commit>"),
        5006,
        "ok",
    ),
    (Happens::Asks(2, "<get/>"), 700000, "rows 1"),
    (
        Happens::Asks(
            2,
            "<commit><confirmed/><confirm-timeout>1</confirm-timeout></commit>",
        ),
        700000,
        "ok",
    ),
    (Happens::Asks(2, "<get/>"), 701000, "rows 1"),
    (Happens::Asks(2, "<cancel-commit/>"), 701000, "NoPending"),
];

#[test]
fn a_commit_waits_to_be_confirmed_until_its_time_or_its_session_is_over(rt: HostRuntime) {
    let alloc = rt.alloc();
    let mut machine = begin(&rt, alloc, Many::new(alloc));
    each_is_told(&rt, alloc, &mut machine, LATE);
    each_is_told(&rt, alloc, &mut machine, FOLLOWED);
    each_is_told(&rt, alloc, &mut machine, ENDED);
    drop(machine);
}
