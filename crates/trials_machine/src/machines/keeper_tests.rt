//! A keeper that fails (RFC 6241 8.3.4.1): nothing is committed, and it may be asked for again.
use super::{Happens, begin, each_is_entered};
use nc_machine::Machine;
use nc_names::Many;
use nc_tree::{Keeper, MemKeeper};
use std::alloc::Global;
use std::process::Abort;

const RUNNING: Happens = Happens::Asks(1, "<get-config><source><running/></source></get-config>");

const CANDIDATE: Happens = Happens::Asks(
    1,
    "<get-config><source><candidate/></source></get-config>",
);

const FAILED: &[(Happens, u64, &str)] = &[
    (Happens::Starts, 0, "0 at 0: started 1"),
    (
        Happens::Asks(
            1,
            "<edit-config><target><candidate/></target><config><host xmlns=\"urn:ex\">a</host></config>\
             </edit-config>",
        ),
        1,
        "1 at 1: <rpc-reply xmlns=\"urn:ietf:params:xml:ns:netconf:base:1.0\" message-id=\"1\"><ok/>\
         </rpc-reply>",
    ),
    (
        Happens::Asks(1, "<commit/>"),
        2,
        "2 at 2: <rpc-reply xmlns=\"urn:ietf:params:xml:ns:netconf:base:1.0\" message-id=\"1\"><rpc-error>\
         <error-type>application</error-type><error-tag>operation-failed</error-tag>\
         <error-severity>error</error-severity><error-info><cause xmlns=\"urn:netconfd:cause:1\">\
         <kind>disk-fault</kind></cause></error-info></rpc-error></rpc-reply>",
    ),
    (
        RUNNING,
        3,
        "3 at 3: <rpc-reply xmlns=\"urn:ietf:params:xml:ns:netconf:base:1.0\" message-id=\"1\"><data/>\
         </rpc-reply>",
    ),
    (
        CANDIDATE,
        4,
        "4 at 4: <rpc-reply xmlns=\"urn:ietf:params:xml:ns:netconf:base:1.0\" message-id=\"1\"><data>\
         <host xmlns=\"urn:ex\">a</host></data></rpc-reply>",
    ),
];

const AGAIN: &[(Happens, u64, &str)] = &[
    (
        Happens::Asks(1, "<commit/>"),
        5,
        "5 at 5: <rpc-reply xmlns=\"urn:ietf:params:xml:ns:netconf:base:1.0\" message-id=\"1\"><ok/>\
         </rpc-reply>",
    ),
    (
        RUNNING,
        6,
        "6 at 6: <rpc-reply xmlns=\"urn:ietf:params:xml:ns:netconf:base:1.0\" message-id=\"1\"><data>\
         <host xmlns=\"urn:ex\">a</host></data></rpc-reply>",
    ),
];

// Looks whether so often a configuration was not kept, and how many rows running has.
fn has_counts(rt: &impl Abort, machine: &Machine<MemKeeper>, faults: u64, rows: u64) {
    assert!(rt; machine.faults() == faults);
    assert!(rt; machine.rows() == rows);
}

fn only(rt: &impl Abort, alloc: Global, number: u64) -> Many<u64> {
    let mut numbers = Many::new(alloc);
    numbers.push(number).expect(rt, "memory");
    numbers
}

// How often the keeper of a machine failed.
fn keeper_faults(machine: Machine<MemKeeper>) -> u64 {
    machine.finish().faults()
}

#[test]
fn a_commit_that_is_not_kept_may_be_asked_for_again(rt: HostRuntime) {
    let alloc = rt.alloc();
    let mut machine = begin(&rt, alloc, only(&rt, alloc, 1));
    each_is_entered(&rt, alloc, &mut machine, FAILED);
    has_counts(&rt, &machine, 1, 0);
    each_is_entered(&rt, alloc, &mut machine, AGAIN);
    has_counts(&rt, &machine, 1, 1);
    let faults = keeper_faults(machine);
    assert!(rt; faults == 1);
}
