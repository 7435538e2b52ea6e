//! A confirmed commit that waits to be confirmed, one call after another (RFC 6241 8.4).
use super::text;
use nc_names::Text;
use nc_pending::{Pending, PendingFault, deadline_after};
use nc_tree::Config;
use std::alloc::Global;
use std::process::Abort;

// The text, unless it is empty.
fn given(rt: &impl Abort, alloc: Global, chars: &str) -> Option<Text> {
    if chars.is_empty() {
        return None;
    }
    Some(text(rt, alloc, chars))
}

fn begun(rt: &impl Abort, alloc: Global, token: &str) -> Pending {
    Pending::begin(Config::empty(alloc), 5000, given(rt, alloc, token), 1)
}

// The text of `persist`; a session and its `persist-id`; what it is told, 0 where it is admitted, 9 for a
// text that is not right, and else the session that is named.
const ADMITTED: &[(&str, u32, &str, u32)] = &[
    ("", 1, "", 0),
    ("", 2, "", 1),
    ("", 1, "x", 9),
    ("", 2, "x", 9),
    ("x", 1, "x", 0),
    ("x", 2, "x", 0),
    ("x", 1, "", 1),
    ("x", 2, "", 1),
    ("x", 1, "y", 9),
];

fn told(answer: Result<(), PendingFault>) -> u32 {
    match answer {
        Ok(()) => 0,
        Err(PendingFault::BadToken) => 9,
        Err(PendingFault::InUse { session }) => session,
    }
}

#[test]
fn its_text_or_its_session_is_admitted(rt: HostRuntime) {
    let alloc = rt.alloc();
    for (token, session, id, wanted) in ADMITTED {
        let pending = begun(&rt, alloc, token);
        let found = told(pending.admits(*session, given(&rt, alloc, id).as_ref()));
        assert!(rt; found == *wanted, "{token} {session} {id}: {found}");
    }
}

#[test]
fn a_follow_up_keeps_its_text(rt: HostRuntime) {
    let alloc = rt.alloc();
    let mut pending = begun(&rt, alloc, "x");
    assert!(rt; !pending.expired(4999));
    assert!(rt; pending.expired(5000));
    pending.follow(deadline_after(4000, 600), None, 2);
    assert!(rt; !pending.expired(603999));
    assert!(rt; pending.expired(604000));
    assert!(rt; pending.session() == 2);
    assert!(rt; told(pending.admits(1, Some(&text(&rt, alloc, "x")))) == 0);
    pending.follow(9000, Some(text(&rt, alloc, "y")), 3);
    assert!(rt; told(pending.admits(3, Some(&text(&rt, alloc, "x")))) == 9);
    assert!(rt; pending.base().len() == 0);
    assert!(rt; pending.into_base().len() == 0);
}

#[test]
fn the_end_of_its_session_reverts_it(rt: HostRuntime) {
    let alloc = rt.alloc();
    let mut pending = begun(&rt, alloc, "");
    assert!(rt; !pending.ended_by(2));
    assert!(rt; pending.ended_by(1));
    let mut persists = begun(&rt, alloc, "x");
    assert!(rt; !persists.ended_by(1));
    assert!(rt; told(persists.admits(1, None)) == 0);
    assert!(rt; told(persists.admits(1, Some(&text(&rt, alloc, "x")))) == 0);
}
