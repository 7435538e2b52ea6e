//! Rows of a configuration as they are replaced, removed, counted and compared; values at paths that have
//! none; which data nodes stand in which; a keeper that fails.
use super::{config, has, path, rows, schema};
use nc_defaults::{Children, in_use};
use nc_names::{Copies, Many, Place};
use nc_schema::Schema;
use nc_tree::{Config, Doubt, Keeper, Kept, Listed, MemKeeper, rows_of_node};
use std::alloc::Global;
use std::process::Abort;

// Looks whether so many rows are removed.
fn removes(rt: &impl Abort, alloc: Global, config: &mut Config, at: &str, wanted: u64) {
    let found = config.remove(&path(rt, alloc, at)).expect(rt, "memory");
    assert!(rt; found == wanted, "{at}: {found}");
}

#[test]
fn a_block_takes_the_place_of_another(rt: HostRuntime) {
    let alloc = rt.alloc();
    let schema = schema(&rt, alloc);
    let mut config = config(&rt, alloc, schema.get(), "7:a 7:b 7:c");
    let entry = path(&rt, alloc, "7:c");
    let block = rows(&rt, alloc, "7:c 7:c/8=c");
    config
        .set_block(schema.get(), &entry, &Place::First, block)
        .expect(&rt, "memory");
    has(&rt, alloc, &config, "7:c 7:c/8=c 7:a 7:a/8=a 7:b 7:b/8=b");
    removes(&rt, alloc, &mut config, "7:a", 2);
    removes(&rt, alloc, &mut config, "7:a", 0);
    let copy = config.copy().expect(&rt, "memory");
    removes(&rt, alloc, &mut config, "7:c", 2);
    has(&rt, alloc, &config, "7:b 7:b/8=b");
    has(&rt, alloc, &copy, "7:c 7:c/8=c 7:b 7:b/8=b");
    assert!(rt; copy.get(&path(&rt, alloc, "7:a/8")).is_none());
    assert!(rt; copy.get(&path(&rt, alloc, "7:b/8")).is_some());
}

// How many rows there are in all, at and below a path, and of the entry that it leads to by itself; and how
// many entries stand beside it.
fn counts(
    rt: &impl Abort,
    alloc: Global,
    schema: &Schema,
    config: &Config,
    at: &str,
) -> [usize; 4] {
    let at = path(rt, alloc, at);
    let all = config.rows(alloc).expect(rt, "memory").len();
    let below = config.block(&at).expect(rt, "memory").len();
    let alone = rows_of_node(alloc, schema, &at, &None).expect(rt, "memory");
    let beside = config.entries_beside(&at).expect(rt, "memory");
    [all, below, alone.len(), beside.len()]
}

const COUNTS: &[(&str, [usize; 4])] = &[
    ("3:ntp,tcp", [8, 4, 3, 2]),
    ("3:web,tcp", [8, 0, 3, 2]),
    ("9:p", [8, 1, 1, 1]),
];

#[test]
fn rows_are_counted(rt: HostRuntime) {
    let alloc = rt.alloc();
    let schema = schema(&rt, alloc);
    let lines = "3:ntp,tcp 3:ntp,tcp/6=53 3:dns,udp 9:p=p";
    let config = config(&rt, alloc, schema.get(), lines);
    for (at, wanted) in COUNTS {
        let found = counts(&rt, alloc, schema.get(), &config, at);
        assert!(rt; found == *wanted, "{at}");
    }
    assert!(rt; config.len() == 8);
    assert!(rt; config.into_rows().expect(&rt, "memory").len() == 8);
}

const ORDERS: &[(&str, &str, bool)] = &[
    ("0/1", "0/2", true),
    ("0/2", "0/1", false),
    ("3:ntp,tcp", "3:dns,tcp", false),
    ("3:dns,tcp/5", "3:dns,tcp/6", true),
    ("7:b", "7:a", true),
    ("7:b/8", "7:a", true),
    ("7:a", "7:b/8", false),
    ("7:a", "7:z", true),
    ("7:a", "9:p", true),
];

#[test]
fn paths_stand_in_document_order(rt: HostRuntime) {
    let alloc = rt.alloc();
    let schema = schema(&rt, alloc);
    let config = config(&rt, alloc, schema.get(), "7:b 7:a");
    for (one, other, wanted) in ORDERS {
        let first = path(&rt, alloc, one);
        let second = path(&rt, alloc, other);
        let found = config
            .is_before(schema.get(), &first, &second)
            .expect(&rt, "memory");
        assert!(rt; found == *wanted, "{one} {other}");
    }
}

// Paths and the values in use there, with an empty text for none: a key has one in an entry alone, and a list
// none.
const VALUES: &[(&str, &str)] = &[
    ("3:ntp,tcp/5", "tcp"),
    ("3:dns,tcp/5", ""),
    ("3:ntp,tcp", ""),
];

#[test]
fn values_are_those_of_their_paths(rt: HostRuntime) {
    let alloc = rt.alloc();
    let schema = schema(&rt, alloc);
    let config = config(&rt, alloc, schema.get(), "3:ntp,tcp");
    let listed = Listed::of(alloc, &config).expect(&rt, "memory");
    for (asked, wanted) in VALUES {
        let at = path(&rt, alloc, asked);
        let found = match in_use(schema.get(), &listed, &at) {
            Some(value) => value.as_str(),
            None => "",
        };
        assert!(rt; found == *wanted, "{asked}");
    }
}

// The number of a data node, or 99 for the top, and the numbers of those that stand in it.
const CHILDREN: &[(u32, &[u32])] = &[
    (99, &[0, 3, 7, 9, 10, 11]),
    (0, &[1, 2]),
    (1, &[]),
    (3, &[4, 5, 6]),
    (7, &[8]),
    (9, &[]),
    (12, &[]),
];

#[test]
fn data_nodes_that_stand_in_one(rt: HostRuntime) {
    let alloc = rt.alloc();
    let schema = schema(&rt, alloc);
    let children = Children::of(alloc, schema.get()).expect(&rt, "memory");
    for (number, wanted) in CHILDREN {
        let parent = if *number == 99 { None } else { Some(*number) };
        assert!(rt; children.in_parent(parent) == *wanted, "{number}");
    }
}

#[test]
fn a_keeper_fails_at_the_listed_calls(rt: HostRuntime) {
    let alloc = rt.alloc();
    let schema = schema(&rt, alloc);
    let old = config(&rt, alloc, schema.get(), "0/1=gate");
    let new = config(&rt, alloc, schema.get(), "0/1=hall");
    let mut failing = Many::new(alloc);
    failing.push(1).expect(&rt, "memory");
    let mut keeper = MemKeeper::new(old.copy().expect(&rt, "memory"), failing);
    let ready = keeper.prepare(&old, &new).expect(&rt, "memory");
    assert!(rt;
        keeper.keep(ready)
            == Kept::Failed {
                doubt: Doubt::Nothing
            }
    );
    assert!(rt; keeper.faults() == 1);
    let ready = keeper.prepare(&old, &new).expect(&rt, "memory");
    assert!(rt; keeper.keep(ready) == Kept::Kept);
    assert!(rt; keeper.faults() == 1);
}
