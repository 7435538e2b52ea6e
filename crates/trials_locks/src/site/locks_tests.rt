//! The locks of whole datastores, one call after another (RFC 6241 7.5, 7.6).
use nc_locks::Locks;
use nc_protocol::Datastore;

#[derive(Clone, Copy)]
enum Call {
    Grant,
    Release,
}

// What a session asks for, and whether it gets it.
const CALLS: &[(Call, Datastore, u32, bool)] = &[
    (Call::Release, Datastore::Running, 1, false),
    (Call::Grant, Datastore::Running, 1, true),
    (Call::Grant, Datastore::Running, 1, false),
    (Call::Grant, Datastore::Running, 2, false),
    (Call::Grant, Datastore::Candidate, 2, true),
    (Call::Release, Datastore::Running, 2, false),
    (Call::Release, Datastore::Running, 1, true),
    (Call::Grant, Datastore::Running, 2, true),
];

fn called(locks: &mut Locks, call: Call, which: Datastore, session: u32) -> bool {
    match call {
        Call::Grant => locks.grant(which, session),
        Call::Release => locks.release(which, session),
    }
}

#[test]
fn one_session_holds_a_lock(rt: HostRuntime) {
    let mut locks = Locks::new();
    for (call, which, session, wanted) in CALLS {
        let done = called(&mut locks, *call, *which, *session);
        assert!(rt; done == *wanted, "{session}");
    }
    assert!(rt; locks.holder(Datastore::Candidate) == Some(2));
    locks.end(1);
    assert!(rt; locks.holder(Datastore::Running) == Some(2));
    locks.end(2);
    assert!(rt; locks.holder(Datastore::Running) == None);
    assert!(rt; locks.holder(Datastore::Candidate) == None);
}
