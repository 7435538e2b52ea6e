//! A desk of one thread: each call is a reading of the clock and an entry.
use super::{begin, boxed, entry_text, is_same, start};
use nc_machine::Solo;
use nc_model::{Desk, Entry};
use nc_names::Many;
use nc_outside::{Clock, MemClock};
use nc_tree::MemKeeper;
use std::alloc::Global;
use std::process::Abort;

fn solo(rt: &impl Abort, alloc: Global) -> Solo<MemKeeper, MemClock> {
    Solo {
        machine: begin(rt, alloc, Many::new(alloc)),
        clock: MemClock::new(Many::new(alloc)),
        from: 0,
    }
}

// Looks whether an entry is shown so.
fn is_shown(rt: &impl Abort, alloc: Global, entry: &Entry, wanted: &str) {
    let found = entry_text(rt, alloc, entry);
    is_same(rt, "entry", found.as_str(), wanted);
}

fn starts(rt: &impl Abort, alloc: Global, desk: &mut Solo<MemKeeper, MemClock>) {
    let event = start(rt, alloc);
    let entry = boxed(rt, alloc, desk.submit(event).expect(rt, "an entry"));
    is_shown(rt, alloc, entry.get(), "0 at 0: started 1");
}

fn ticks(rt: &impl Abort, alloc: Global, desk: &mut Solo<MemKeeper, MemClock>) {
    let entry = boxed(rt, alloc, desk.tick().expect(rt, "an entry"));
    is_shown(rt, alloc, entry.get(), "1 at 0: noted");
}

fn ends(rt: &impl Abort, alloc: Global, desk: &mut Solo<MemKeeper, MemClock>) {
    let entry = boxed(rt, alloc, desk.end(1).expect(rt, "an entry"));
    is_shown(rt, alloc, entry.get(), "2 at 0: ended");
}

fn has_answered(rt: &impl Abort, clock: &MemClock, times: u64) {
    assert!(rt; clock.answers() == times);
}

#[test]
fn a_call_is_a_reading_and_an_entry(rt: HostRuntime) {
    let alloc = rt.alloc();
    let mut desk = solo(&rt, alloc);
    starts(&rt, alloc, &mut desk);
    ticks(&rt, alloc, &mut desk);
    ends(&rt, alloc, &mut desk);
    has_answered(&rt, &desk.clock, 3);
    drop(desk);
}
