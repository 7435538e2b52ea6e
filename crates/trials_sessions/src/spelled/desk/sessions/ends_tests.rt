//! How sessions end, whether their End is entered, and what they write.
use super::{Case, Faults, NONE, Trouble, each_comes_to, each_comes_to_in_pieces};
use nc_message::Why;
use nc_names::PIECE_LIMIT;
use nc_session::{HelloFault, SessionEnd};

// Sessions of both framings; input that ends, also within a message; hellos, each with what it lacks; faults
// of the framing, where a client's hello of base:1.1 takes 155 bytes with its mark; and messages that are no
// request, which end a session of base:1.0 and are answered in one of base:1.1.
const SESSIONS: &[Case] = &[
    (
        NONE,
        "^+$;(1}_);(2}<close-session/>);(3}_);",
        "%[;[;",
        SessionEnd::Closed,
        0,
    ),
    (
        NONE,
        "^*$;~126|(1}_)!~90|(2}<close-session/>)!",
        "%~76|[!~76|[!",
        SessionEnd::Closed,
        0,
    ),
    (
        NONE,
        "^+*$;~4|<rpc~88| @ message-id=\"1\"><discard-changes/>)!~90|(2}<close-session/>)!",
        "%~76|[!~76|[!",
        SessionEnd::Closed,
        0,
    ),
    (
        NONE,
        "^<capability> urn:ietf:params:netconf:base:1.1|</capability>+$;~90|(1}<close-session/>)!",
        "%~76|[!",
        SessionEnd::Closed,
        0,
    ),
    (
        NONE,
        "^+$;<rpc @ a=\"7\"><get/></rpc>;(1}<discard-changes/>);",
        "%[;[;",
        SessionEnd::InputEnded,
        1,
    ),
    (
        NONE,
        "^*$;~5|<rpc>!~90|(1}<close-session/>)!",
        "%~76|[!~76|[!",
        SessionEnd::Closed,
        0,
    ),
    (
        NONE,
        "^*$;~4|<a/>!~90|(1}<close-session/>)!",
        "%~76|[!~76|[!",
        SessionEnd::Closed,
        0,
    ),
    (NONE, "", "%", SessionEnd::InputEnded, 1),
    (NONE, "^+", "%", SessionEnd::InputEnded, 1),
    (NONE, "^+$]]>]]", "%", SessionEnd::InputEnded, 1),
    (NONE, "^+$;", "%", SessionEnd::InputEnded, 1),
    (NONE, "^+$;(1}_);(2}_)]]>", "%[;", SessionEnd::InputEnded, 1),
    (NONE, "^*$;|", "%", SessionEnd::InputEnded, 1),
    (
        NONE,
        "^*$;~90|(1}<close-session/>)~",
        "%",
        SessionEnd::InputEnded,
        1,
    ),
    (
        NONE,
        "<ping;",
        "%",
        SessionEnd::BadHello {
            why: HelloFault::NotRead,
        },
        1,
    ),
    (
        NONE,
        ";",
        "%",
        SessionEnd::BadHello {
            why: HelloFault::NotRead,
        },
        1,
    ),
    (
        NONE,
        "(1}_);",
        "%",
        SessionEnd::BadHello {
            why: HelloFault::NotHello,
        },
        1,
    ),
    (
        NONE,
        "<hello/>;",
        "%",
        SessionEnd::BadHello {
            why: HelloFault::NotHello,
        },
        1,
    ),
    (
        NONE,
        "<hello @/>;",
        "%",
        SessionEnd::BadHello {
            why: HelloFault::NotHello,
        },
        1,
    ),
    (
        NONE,
        "^<capability><a/></capability>$;",
        "%",
        SessionEnd::BadHello {
            why: HelloFault::NotHello,
        },
        1,
    ),
    (
        NONE,
        "<hello @><capabilities>+</capabilities><capabilities>+$;",
        "%",
        SessionEnd::BadHello {
            why: HelloFault::NotHello,
        },
        1,
    ),
    (
        NONE,
        "<hello @><capabilities>+</capabilities><session-id>1</session-id></hello>;",
        "%",
        SessionEnd::BadHello {
            why: HelloFault::HasSessionId,
        },
        1,
    ),
    (
        NONE,
        "<hello @><session-id>1</session-id><capabilities>$;",
        "%",
        SessionEnd::BadHello {
            why: HelloFault::HasSessionId,
        },
        1,
    ),
    (
        NONE,
        "^$;",
        "%",
        SessionEnd::BadHello {
            why: HelloFault::NoBase,
        },
        1,
    ),
    (
        NONE,
        "^<capability>urn:ietf:params:netconf:base:1.2</capability>$;",
        "%",
        SessionEnd::BadHello {
            why: HelloFault::NoBase,
        },
        1,
    ),
    (
        NONE,
        "^*$;~4294967295|",
        "%",
        SessionEnd::TooBig { at: 167 },
        1,
    ),
    (
        NONE,
        "^*$;~4194305|",
        "%",
        SessionEnd::TooBig { at: 164 },
        1,
    ),
    (
        NONE,
        "^*$;~4294967296",
        "%",
        SessionEnd::BadFrame { at: 166 },
        1,
    ),
    (NONE, "^*$;~01", "%", SessionEnd::BadFrame { at: 157 }, 1),
    (NONE, "^*$;~0", "%", SessionEnd::BadFrame { at: 157 }, 1),
    (NONE, "^*$;~#", "%", SessionEnd::BadFrame { at: 157 }, 1),
    (NONE, "^*$;x", "%", SessionEnd::BadFrame { at: 155 }, 1),
    (NONE, "^*$;(1}_);", "%", SessionEnd::BadFrame { at: 155 }, 1),
    (
        NONE,
        "^*$;~92|(1}<discard-changes/>)!~1|<x",
        "%~76|[!",
        SessionEnd::BadFrame { at: 261 },
        1,
    ),
    (
        NONE,
        "^+$;<rpc>;",
        "%",
        SessionEnd::Malformed {
            at: 5,
            why: Why::NotWellFormed,
        },
        1,
    ),
    (
        NONE,
        "^+$;<rpc><a></rpc>;(1}_);",
        "%",
        SessionEnd::Malformed {
            at: 8,
            why: Why::NotWellFormed,
        },
        1,
    ),
    (
        NONE,
        "^+$;<&DOCTYPE a><a/>;",
        "%",
        SessionEnd::Malformed {
            at: 0,
            why: Why::Doctype,
        },
        1,
    ),
    (
        NONE,
        "^+$;<a><p:b/></a>;",
        "%",
        SessionEnd::Malformed {
            at: 3,
            why: Why::UnboundPrefix,
        },
        1,
    ),
    (
        NONE,
        "^+$;<hello @/>;",
        "%",
        SessionEnd::Malformed {
            at: 0,
            why: Why::NotWellFormed,
        },
        1,
    ),
    (
        NONE,
        "^+$;<rpc message-id=\"1\"><get/></rpc>;",
        "%",
        SessionEnd::Malformed {
            at: 0,
            why: Why::NotWellFormed,
        },
        1,
    ),
];

#[test]
fn sessions_end_alike_however_their_bytes_come(rt: HostRuntime) {
    each_comes_to_in_pieces(&rt, rt.alloc(), SESSIONS);
}

// A desk that is full, whose numbers are spent, that finds no memory, or whose session is killed.
const TROUBLES: &[Case] = &[
    (
        Faults {
            trouble: Trouble::Full,
            ..NONE
        },
        "^+$;(1}_);(2}_);",
        "",
        SessionEnd::Full { live: 64, last: 70 },
        0,
    ),
    (
        Faults {
            trouble: Trouble::Spent { call: 1 },
            ..NONE
        },
        "^+$;(1}_);(2}_);",
        "",
        SessionEnd::Spent { ticket: 9 },
        0,
    ),
    (
        Faults {
            trouble: Trouble::Spent { call: 2 },
            ..NONE
        },
        "^+$;(1}_);(2}_);",
        "%",
        SessionEnd::Spent { ticket: 9 },
        0,
    ),
    (
        Faults {
            trouble: Trouble::Spent { call: 4 },
            ..NONE
        },
        "^+$;(1}_);(2}_);",
        "%[;[;",
        SessionEnd::InputEnded,
        0,
    ),
    (
        Faults {
            trouble: Trouble::Memory { call: 1 },
            ..NONE
        },
        "^+$;(1}_);(2}_);",
        "",
        SessionEnd::Memory,
        0,
    ),
    (
        Faults {
            trouble: Trouble::Memory { call: 2 },
            ..NONE
        },
        "^+$;(1}_);(2}_);",
        "%",
        SessionEnd::Memory,
        1,
    ),
    (
        Faults {
            trouble: Trouble::Dead { call: 2 },
            ..NONE
        },
        "^+$;(1}_);(2}_);",
        "%",
        SessionEnd::Killed,
        0,
    ),
    (
        Faults {
            trouble: Trouble::Dead { call: 3 },
            ..NONE
        },
        "^+$;(1}_);(2}_);",
        "%[;",
        SessionEnd::Killed,
        0,
    ),
    (
        Faults {
            trouble: Trouble::Dead { call: 4 },
            ..NONE
        },
        "^+$;(1}_);(2}_);",
        "%[;[;",
        SessionEnd::Killed,
        1,
    ),
];

#[test]
fn the_desk_ends_a_session(rt: HostRuntime) {
    each_comes_to_in_pieces(&rt, rt.alloc(), TROUBLES);
}

// A read or a write that fails. What is read comes in one piece, so the second read finds the end; the hello
// and each reply are one write.
const FAILURES: &[Case] = &[
    (
        Faults {
            bad_read: 1,
            ..NONE
        },
        "^+$;(1}_);",
        "%",
        SessionEnd::ReadFault,
        1,
    ),
    (
        Faults {
            bad_read: 2,
            ..NONE
        },
        "^+$;(1}_);",
        "%[;",
        SessionEnd::ReadFault,
        1,
    ),
    (
        Faults {
            bad_write: 1,
            ..NONE
        },
        "^*$;~126|(1}_)!~90|(2}<close-session/>)!",
        "",
        SessionEnd::WriteFault,
        1,
    ),
    (
        Faults {
            bad_write: 2,
            ..NONE
        },
        "^*$;~126|(1}_)!~90|(2}<close-session/>)!",
        "%",
        SessionEnd::WriteFault,
        1,
    ),
    (
        Faults {
            bad_write: 3,
            ..NONE
        },
        "^*$;~126|(1}_)!~90|(2}<close-session/>)!",
        "%~76|[!",
        SessionEnd::WriteFault,
        0,
    ),
];

#[test]
fn a_failed_call_ends_the_session(rt: HostRuntime) {
    each_comes_to(&rt, rt.alloc(), PIECE_LIMIT, FAILURES);
}
