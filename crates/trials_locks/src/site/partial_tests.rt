//! Partial locks, one call after another (RFC 5717 2.1, 2.4).
use super::{nodes, path};
use nc_partial::{Covered, PartialFault, PartialLocks};
use std::alloc::Global;
use std::process::Abort;

// As a number: a lock-id, 100 times it and the session where a lock is in the way, 0 for another answer.
fn told(answer: &Result<u32, PartialFault>) -> u32 {
    match answer {
        Ok(id) => *id,
        Err(PartialFault::Taken(covered)) => number(Some(*covered)),
        Err(_) => 0,
    }
}

// 100 times the lock-id and the session, or 0.
fn number(covered: Option<Covered>) -> u32 {
    match covered {
        Some(covered) => covered
            .lock
            .saturating_mul(100)
            .saturating_add(covered.session),
        None => 0,
    }
}

// What each session asks for one after another, and what it is told.
const GRANTS: &[(u32, &str, u32)] = &[
    (1, "3:eth0 5/6", 1),
    (2, "3:eth0/4", 101),
    (2, "5", 101),
    (2, "3:eth1 3:eth2/4", 2),
    (1, "3:eth0/4 3:eth0", 3),
    (1, "3:eth2 3:eth1", 202),
    (3, "3:eth2/4 3:eth0/4", 101),
    (3, "3:eth2 8", 202),
    (3, "3:eth2/5 5", 101),
    (3, "3:eth2/5 5/7", 4),
];

fn granted(rt: &impl Abort, alloc: Global) -> PartialLocks {
    let mut locks = PartialLocks::new(alloc);
    for (session, words, wanted) in GRANTS {
        let asked = nodes(rt, alloc, words);
        let before = told(&locks.next_id(*session, &asked));
        let now = told(&locks.grant(*session, asked));
        assert!(rt; before == *wanted, "{session} {words}: {before}");
        assert!(rt; now == *wanted, "{session} {words}: {now}");
    }
    locks
}

// A path, a session, and the lock of another one that locks the node: 100 times the lock-id and the session.
const COVERED: &[(&str, u32, u32)] = &[
    ("3:eth0", 2, 101),
    ("3:eth0/4", 2, 101),
    ("3:eth0/4", 1, 0),
    ("3", 2, 0),
    ("3:eth1/4/9", 1, 202),
    ("3:eth2", 1, 0),
    ("3:eth2/4", 1, 202),
    ("3:eth2/4", 2, 0),
    ("3:eth2/5", 2, 403),
    ("5/6/1", 3, 101),
    ("5/8", 3, 0),
    ("9", 3, 0),
];

fn covers(rt: &impl Abort, alloc: Global, locks: &PartialLocks, cases: &[(&str, u32, u32)]) {
    for (words, session, wanted) in cases {
        let found = number(locks.covering(&path(rt, alloc, words), *session));
        assert!(rt; found == *wanted, "{words} {session}: {found}");
    }
}

// The same, once session 1 has released its first lock.
const RELEASED: &[(&str, u32, u32)] = &[("3:eth0", 2, 301), ("5/6", 2, 0), ("3:eth0/4", 3, 301)];

// The same, once session 1 has ended, too.
const ENDED: &[(&str, u32, u32)] = &[("3:eth0", 2, 0), ("3:eth1", 3, 202)];

#[test]
fn another_session_is_kept_out(rt: HostRuntime) {
    let alloc = rt.alloc();
    let mut locks = granted(&rt, alloc);
    covers(&rt, alloc, &locks, COVERED);
    assert!(rt; number(locks.lowest(1)) == 202);
    assert!(rt; !locks.release(1, 2));
    assert!(rt; !locks.release(9, 1));
    assert!(rt; locks.release(1, 1));
    covers(&rt, alloc, &locks, RELEASED);
    locks.end(1);
    covers(&rt, alloc, &locks, ENDED);
    assert!(rt; number(locks.lowest(2)) == 403);
    assert!(rt; told(&locks.grant(2, nodes(&rt, alloc, "3:eth0"))) == 5);
}

#[test]
fn a_session_has_not_more_than_64(rt: HostRuntime) {
    let alloc = rt.alloc();
    let mut locks = PartialLocks::new(alloc);
    for number in 1..65 {
        let id = told(&locks.grant(7, nodes(&rt, alloc, "3 4")));
        assert!(rt; id == number, "{id}");
    }
    let more = locks.grant(7, nodes(&rt, alloc, "3 4"));
    assert!(rt; more == Err(PartialFault::TooMany { held: 64 }));
    assert!(rt; told(&locks.grant(8, nodes(&rt, alloc, "5"))) == 65);
    assert!(rt; locks.release(3, 7));
    assert!(rt; told(&locks.grant(7, nodes(&rt, alloc, "3 4"))) == 66);
}
