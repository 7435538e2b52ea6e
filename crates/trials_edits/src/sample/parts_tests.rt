//! Parts of a configuration that are taken and put without copies of their rows; what stands below a node;
//! rows that are the same, and the room that they take.
use super::{config, has, path, schema};
use nc_names::{Copies, Many, Place};
use nc_tree::{Config, Listed};
use std::alloc::Global;
use std::process::Abort;

#[test]
fn a_part_is_put_back(rt: HostRuntime) {
    let alloc = rt.alloc();
    let schema = schema(&rt, alloc);
    let mut config = config(&rt, alloc, schema.get(), "7:a 7:b 7:c");
    let entry = path(&rt, alloc, "7:b");
    let part = config.part(&entry).expect(&rt, "memory");
    has(&rt, alloc, &part, "7:b 7:b/8=b");
    config
        .set_part(schema.get(), &entry, &Place::First, &part)
        .expect(&rt, "memory");
    has(&rt, alloc, &config, "7:b 7:b/8=b 7:a 7:a/8=a 7:c 7:c/8=c");
}

// How many rows stand at and below a path, and in a list of all; and how many entries the list of a number
// has.
fn counts(rt: &impl Abort, alloc: Global, config: &Config, at: &str, number: u32) -> [u64; 3] {
    let below = config.count_at(&path(rt, alloc, at));
    let listed = Listed::of(alloc, config).expect(rt, "memory");
    let above = Many::new(alloc);
    let entries = config
        .entries(above.as_slice(), number)
        .expect(rt, "memory");
    [below, listed.len(), entries.len() as u64]
}

const COUNTS: &[(&str, u32, [u64; 3])] = &[
    ("3:ntp,tcp", 3, [4, 8, 2]),
    ("3:web,tcp", 7, [0, 8, 0]),
    ("9:p", 9, [1, 8, 1]),
];

// A path and the number of a data node, and whether a row goes on from the path by one.
const NODES: &[(&str, u32, bool)] = &[
    ("3:ntp,tcp", 6, true),
    ("3:dns,udp", 6, false),
    ("3:web,tcp", 4, false),
];

#[test]
fn what_stands_below_a_node(rt: HostRuntime) {
    let alloc = rt.alloc();
    let schema = schema(&rt, alloc);
    let lines = "3:ntp,tcp 3:ntp,tcp/6=53 3:dns,udp 9:p=p";
    let config = config(&rt, alloc, schema.get(), lines);
    for (at, number, wanted) in COUNTS {
        let found = counts(&rt, alloc, &config, at, *number);
        assert!(rt; found == *wanted, "{at}");
    }
    for (at, number, wanted) in NODES {
        let above = path(&rt, alloc, at);
        assert!(rt;
            config.has_node(above.steps.as_slice(), *number) == *wanted,
            "{at} {number}"
        );
    }
}

// The rows of a configuration, and whether `7:a 7:b` has the same ones.
const SAME: &[(&str, bool)] = &[
    ("7:a 7:b", true),
    ("7:b 7:a", false),
    ("7:a 7:c", false),
    ("7:a", false),
    ("7:a 7:b 7:c", false),
];

#[test]
fn rows_are_compared_and_measured(rt: HostRuntime) {
    let alloc = rt.alloc();
    let schema = schema(&rt, alloc);
    let one = config(&rt, alloc, schema.get(), "7:a 7:b");
    for (lines, wanted) in SAME {
        let other = config(&rt, alloc, schema.get(), lines);
        assert!(rt; one.is_same(&other) == *wanted, "{lines}");
    }
    let copy = one.copy().expect(&rt, "memory");
    assert!(rt; one.is_same(&copy));
    assert!(rt; one.is_within(39));
    assert!(rt; !one.is_within(38));
}
