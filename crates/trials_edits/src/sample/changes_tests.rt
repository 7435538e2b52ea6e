//! How two configurations differ, worked from RFC 7950 7.7.7 to 7.9 by hand.
use super::{config, path, row, schema};
use nc_changes::{changes, is_updated};
use nc_names::{Many, Path};
use nc_schema::Schema;
use std::alloc::Global;
use std::process::Abort;

// Paths, written with a space between two.
fn paths(rt: &impl Abort, alloc: Global, words: &str) -> Many<Path> {
    let mut paths = Many::new(alloc);
    for word in words.split(' ') {
        if !word.is_empty() {
            paths.push(path(rt, alloc, word)).expect(rt, "memory");
        }
    }
    paths
}

// Looks whether these are the paths at which two configurations differ: created, updated and deleted.
fn differ(
    rt: &impl Abort,
    alloc: Global,
    schema: &Schema,
    old: &str,
    new: &str,
    wanted: &[&str; 3],
) {
    let before = config(rt, alloc, schema, old);
    let after = config(rt, alloc, schema, new);
    let found = changes(alloc, schema, &before, &after).expect(rt, "memory");
    let [created, updated, deleted] = wanted;
    assert!(rt; found.created == paths(rt, alloc, created), "{old} {new}");
    assert!(rt; found.updated == paths(rt, alloc, updated), "{old} {new}");
    assert!(rt; found.deleted == paths(rt, alloc, deleted), "{old} {new}");
}

const CHANGES: &[(&str, &str, [&str; 3])] = &[
    ("0/1=gate", "0/1=gate", ["", "", ""]),
    ("0/1=gate", "0/1=hall", ["", "0/1", ""]),
    (
        "",
        "3:dns,tcp",
        ["3:dns,tcp 3:dns,tcp/4 3:dns,tcp/5", "", ""],
    ),
    ("7:a 7:b 7:c", "7:c 7:a 7:b", ["", "7:c 7:a", ""]),
    ("7:a 7:b", "7:b", ["", "", "7:a 7:a/8"]),
    ("7:a 7:b", "7:x 7:a 7:b", ["7:x 7:x/8", "", ""]),
    ("10=on", "11=192.0.2.7", ["11", "", "10"]),
    ("", "", ["", "", ""]),
    // What is first in both and what is last in both stays.
    (
        "0/1=gate 3:dns,tcp 3:dns,tcp/6=53 10=on",
        "0/1=gate 3:dns,tcp 3:dns,tcp/6=54 10=on",
        ["", "3:dns,tcp/6", ""],
    ),
    (
        "0/1=gate 3:a,b 3:c,d 10=on",
        "0/1=gate 3:b,b 3:c,d 10=on",
        ["3:b,b 3:b,b/4 3:b,b/5", "", "3:a,b 3:a,b/4 3:a,b/5"],
    ),
    ("7:b 7:a 10=on", "7:b 7:a 10=off", ["", "10", ""]),
    ("7:c 7:b 7:a", "7:c 7:x 7:b 7:a", ["7:x 7:x/8", "", ""]),
    // An entry that is last in both has moved where another one stands before it.
    (
        "7:a 7:b 7:c 10=on",
        "7:b 7:a 7:c 10=on",
        ["", "7:b 7:a 7:c", ""],
    ),
];

#[test]
fn configurations_differ(rt: HostRuntime) {
    let schema = schema(&rt, rt.alloc());
    for (old, new, wanted) in CHANGES {
        differ(&rt, rt.alloc(), schema.get(), old, new, wanted);
    }
}

// Two configurations, and whether the entry `7:b` of the new one is updated.
const UPDATED: &[(&str, &str, bool)] = &[
    ("7:a 7:b", "7:b 7:a", true),
    ("7:a 7:b", "7:a 7:b", false),
    ("7:a 7:b", "7:a 7:b 7:c", false),
    ("9:q=q", "", false),
];

#[test]
fn entries_are_updated(rt: HostRuntime) {
    let alloc = rt.alloc();
    let schema = schema(&rt, alloc);
    for (old, new, wanted) in UPDATED {
        let before = config(&rt, alloc, schema.get(), old);
        let after = config(&rt, alloc, schema.get(), new);
        let entry = row(&rt, alloc, "7:b");
        let found = is_updated(schema.get(), &before, &after, &entry).expect(&rt, "memory");
        assert!(rt; found == *wanted, "{old} {new}");
    }
}
