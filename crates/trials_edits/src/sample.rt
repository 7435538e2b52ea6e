//! A schema with a node of each kind, and rows and paths of it as short texts. The tests stand below this
//! module and see what is private in it.
//!
//! `0` container system { `1` leaf host-name; `2` leaf domain; }, `3` list service, keys `4` name and `5`
//! protocol, with `6` leaf port, `7` list rule, ordered by the user, key `8` id, `9` leaf-list search, `10`
//! leaf dhcp, `11` leaf address.
mod changes_tests;
mod parts_tests;
mod tree_tests;

use nc_names::{Boxed, Many, Path, Place, QName, Row, Step, Text};
use nc_schema::{Deny, Kind, Node, Schema};
use nc_tree::Config;
use std::alloc::Global;
use std::process::Abort;

// The number of the node above each node, or 99 where there is none, its kind and its keys.
const NODES: &[(u32, Kind, &[u32])] = &[
    (99, Kind::Container { presence: false }, &[]),
    (0, Kind::Leaf, &[]),
    (0, Kind::Leaf, &[]),
    (99, Kind::List, &[4, 5]),
    (3, Kind::Leaf, &[]),
    (3, Kind::Leaf, &[]),
    (3, Kind::Leaf, &[]),
    (99, Kind::List, &[8]),
    (7, Kind::Leaf, &[]),
    (99, Kind::LeafList, &[]),
    (99, Kind::Leaf, &[]),
    (99, Kind::Leaf, &[]),
];

fn text(rt: &impl Abort, alloc: Global, chars: &str) -> Text {
    Text::from_text(alloc, chars).expect(rt, "memory")
}

fn node(rt: &impl Abort, alloc: Global, above: u32, kind: Kind, numbers: &[u32]) -> Node {
    let mut keys = Many::new(alloc);
    for number in numbers {
        keys.push(*number).expect(rt, "memory");
    }
    Node {
        name: QName {
            space: text(rt, alloc, "urn:example:net"),
            name: text(rt, alloc, "n"),
        },
        module: 0,
        parent: if above == 99 { None } else { Some(above) },
        kind,
        kind_of_value: 0,
        keys,
        uniques: Many::new(alloc),
        mandatory: false,
        defaults: Many::new(alloc),
        least: 0,
        most: None,
        by_user: numbers.len() == 1,
        cases: Many::new(alloc),
        deny: Deny::Nothing,
    }
}

// The schema, on the heap: what lets it go there is proved once.
fn schema(rt: &impl Abort, alloc: Global) -> Boxed<Schema> {
    let mut schema = Schema::new(alloc);
    for (above, kind, keys) in NODES {
        let node = node(rt, alloc, *above, *kind, keys);
        let count = schema.nodes();
        assert!(rt; count < 1000);
        if let Some(parent) = node.parent {
            assert!(rt; parent < count);
        }
        schema.add_node(node).expect(rt, "memory");
    }
    Boxed::new(alloc, schema).expect(rt, "memory")
}

// A step from `3:dns,tcp`, a number and keys, or from a number alone.
fn step(rt: &impl Abort, alloc: Global, part: &str) -> Step {
    let (number, words) = part.split_once(':').unwrap_or((part, ""));
    let mut keys = Many::new(alloc);
    for word in words.split(',') {
        if !word.is_empty() {
            keys.push(text(rt, alloc, word)).expect(rt, "memory");
        }
    }
    Step {
        node: number.parse::<u32>().unwrap_or(0),
        keys,
    }
}

// A path from `3:dns,tcp/6`.
fn path(rt: &impl Abort, alloc: Global, steps: &str) -> Path {
    let mut path = Path {
        steps: Many::new(alloc),
    };
    for part in steps.split('/') {
        path.steps.push(step(rt, alloc, part)).expect(rt, "memory");
    }
    path
}

// A row from `3:dns,tcp/6=53`, or without a value.
fn row(rt: &impl Abort, alloc: Global, line: &str) -> Row {
    let (steps, value) = line.split_once('=').unwrap_or((line, ""));
    Row {
        path: path(rt, alloc, steps),
        value: if value.is_empty() {
            None
        } else {
            Some(text(rt, alloc, value))
        },
    }
}

// Rows, written with a space between two.
fn rows(rt: &impl Abort, alloc: Global, lines: &str) -> Many<Row> {
    let mut rows = Many::new(alloc);
    for line in lines.split(' ') {
        if !line.is_empty() {
            rows.push(row(rt, alloc, line)).expect(rt, "memory");
        }
    }
    rows
}

// A configuration of rows that are put one after another; an entry that is put has its keys.
fn config(rt: &impl Abort, alloc: Global, schema: &Schema, lines: &str) -> Config {
    let mut config = Config::empty(alloc);
    for line in lines.split(' ') {
        if !line.is_empty() {
            config
                .put(schema, row(rt, alloc, line), &Place::Kept)
                .expect(rt, "memory");
        }
    }
    config
}

// Looks whether a configuration has these rows.
fn has(rt: &impl Abort, alloc: Global, config: &Config, wanted: &str) {
    let found = config
        .block(&Path {
            steps: Many::new(alloc),
        })
        .expect(rt, "memory");
    assert!(rt; found == rows(rt, alloc, wanted), "{wanted}");
}
