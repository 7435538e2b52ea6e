//! The schema of the rows: the data nodes of ietf-netconf-acm, and those of modules about which rules are.
use nc_names::{Many, Memory, Module, QName, Text};
use nc_schema::{Case, Choice, Deny, Kind, Node, Schema};
use std::alloc::Global;

/// Where a data node stands that is at the top.
const TOP: u32 = 99;

/// What has no default.
const NONE: &str = "";

const CONTAINER: Kind = Kind::Container { presence: false };

/// The modules by their numbers, each with its namespace.
const MODULES: &[(&str, &str)] = &[
    (
        "ietf-netconf-acm",
        "urn:ietf:params:xml:ns:yang:ietf-netconf-acm",
    ),
    (
        "ietf-netconf-monitoring",
        "urn:ietf:params:xml:ns:yang:ietf-netconf-monitoring",
    ),
    ("acme-netconf", "http://example.com/ns/netconf"),
    ("acme-itf", "http://example.com/ns/itf"),
    ("ex", "urn:ex"),
];

/// A data node of a table: the number of its module, its name, the number of what it stands in, its kind,
/// how many of the nodes after it are its keys, its default, and the number of its case of the choice
/// `rule-type`, or 9.
type Entry = (u32, &'static str, u32, Kind, u32, &'static str, u32);

/// The data nodes by their numbers.
const NODES: &[Entry] = &[
    (0, "nacm", TOP, CONTAINER, 0, NONE, 9),
    (0, "enable-nacm", 0, Kind::Leaf, 0, "true", 9),
    (0, "read-default", 0, Kind::Leaf, 0, "permit", 9),
    (0, "write-default", 0, Kind::Leaf, 0, "deny", 9),
    (0, "exec-default", 0, Kind::Leaf, 0, "permit", 9),
    (0, "enable-external-groups", 0, Kind::Leaf, 0, "true", 9),
    (0, "groups", 0, CONTAINER, 0, NONE, 9),
    (0, "group", 6, Kind::List, 1, NONE, 9),
    (0, "name", 7, Kind::Leaf, 0, NONE, 9),
    (0, "user-name", 7, Kind::LeafList, 0, NONE, 9),
    (0, "rule-list", 0, Kind::List, 1, NONE, 9),
    (0, "name", 10, Kind::Leaf, 0, NONE, 9),
    (0, "group", 10, Kind::LeafList, 0, NONE, 9),
    (0, "rule", 10, Kind::List, 1, NONE, 9),
    (0, "name", 13, Kind::Leaf, 0, NONE, 9),
    (0, "module-name", 13, Kind::Leaf, 0, "*", 9),
    (0, "rpc-name", 13, Kind::Leaf, 0, NONE, 0),
    (0, "notification-name", 13, Kind::Leaf, 0, NONE, 1),
    (0, "path", 13, Kind::Leaf, 0, NONE, 2),
    (0, "access-operations", 13, Kind::Leaf, 0, "*", 9),
    (0, "action", 13, Kind::Leaf, 0, NONE, 9),
    (0, "comment", 13, Kind::Leaf, 0, NONE, 9),
    (1, "netconf-state", TOP, CONTAINER, 0, NONE, 9),
    (1, "statistics", 22, CONTAINER, 0, NONE, 9),
    (1, "in-sessions", 23, Kind::Leaf, 0, NONE, 9),
    (2, "acme-netconf", TOP, CONTAINER, 0, NONE, 9),
    (2, "config-parameters", 25, CONTAINER, 0, NONE, 9),
    (2, "timeout", 26, Kind::Leaf, 0, NONE, 9),
    (3, "interfaces", TOP, CONTAINER, 0, NONE, 9),
    (3, "interface", 28, Kind::List, 1, NONE, 9),
    (3, "name", 29, Kind::Leaf, 0, NONE, 9),
    (3, "mtu", 29, Kind::Leaf, 0, NONE, 9),
    (4, "top", TOP, CONTAINER, 0, NONE, 9),
    (4, "host", 32, Kind::Leaf, 0, NONE, 9),
    (4, "port", 32, Kind::List, 1, NONE, 9),
    (4, "name", 34, Kind::Leaf, 0, NONE, 9),
    (4, "tag", 34, Kind::Leaf, 0, NONE, 9),
    (4, "keys", 32, CONTAINER, 0, NONE, 9),
    (4, "private", 37, Kind::Leaf, 0, NONE, 9),
    (4, "clock", 32, CONTAINER, 0, NONE, 9),
    (4, "zone", 39, Kind::Leaf, 0, NONE, 9),
    (4, "route", 32, Kind::List, 3, NONE, 9),
    (4, "table", 41, Kind::Leaf, 0, NONE, 9),
    (4, "to", 41, Kind::Leaf, 0, NONE, 9),
    (4, "via", 41, Kind::Leaf, 0, NONE, 9),
    (4, "cost", 41, Kind::Leaf, 0, NONE, 9),
    (4, "search", 32, Kind::LeafList, 0, NONE, 9),
];

/// The nodes at which access control denies all accesses without a rule.
const DENIES_ALL: &[u32] = &[0, 37];

/// Those at which it denies writing.
const DENIES_WRITING: &[u32] = &[39];

fn put_module(alloc: Global, schema: &mut Schema, name: &str, space: &str) -> Result<(), Memory> {
    let module = Module {
        name: Text::from_text(alloc, name)?,
        space: Text::from_text(alloc, space)?,
        revision: Text::new(alloc),
        features: Many::new(alloc),
    };
    if schema.modules().len() < 100 {
        schema.add_module(module)?;
    }
    Ok(())
}

/// Puts the choice `rule-type` of a rule.
fn put_choice(alloc: Global, schema: &mut Schema) -> Result<(), Memory> {
    let choice = Choice {
        parent: Some(13),
        mandatory: false,
        default_case: None,
        within: Many::new(alloc),
    };
    if schema.choices().len() < 100 {
        schema.add_choice(choice)?;
    }
    Ok(())
}

fn keys_after(alloc: Global, number: u32, count: u32) -> Result<Many<u32>, Memory> {
    let mut keys = Many::new(alloc);
    for at in 0..count {
        keys.push(number.wrapping_add(at).wrapping_add(1))?;
    }
    Ok(keys)
}

fn defaults_of(alloc: Global, default: &str) -> Result<Many<Text>, Memory> {
    let mut defaults = Many::new(alloc);
    if !default.is_empty() {
        defaults.push(Text::from_text(alloc, default)?)?;
    }
    Ok(defaults)
}

fn cases_of(alloc: Global, case: u32) -> Result<Many<Case>, Memory> {
    let mut cases = Many::new(alloc);
    if case < 9 {
        cases.push(Case { choice: 0, case })?;
    }
    Ok(cases)
}

fn denial_of(number: u32) -> Deny {
    if DENIES_ALL.contains(&number) {
        return Deny::All;
    }
    if DENIES_WRITING.contains(&number) {
        return Deny::Write;
    }
    Deny::Nothing
}

fn name_of(alloc: Global, module: u32, name: &str) -> Result<QName, Memory> {
    let space = match MODULES.get(module as usize) {
        Some((_, space)) => *space,
        None => "",
    };
    Ok(QName {
        space: Text::from_text(alloc, space)?,
        name: Text::from_text(alloc, name)?,
    })
}

/// The data node of an entry of the table, whose number is `number`.
fn node_of(alloc: Global, entry: &Entry, number: u32) -> Result<Node, Memory> {
    Ok(Node {
        name: name_of(alloc, entry.0, entry.1)?,
        module: entry.0,
        parent: if entry.2 == TOP { None } else { Some(entry.2) },
        kind: entry.3,
        kind_of_value: 0,
        keys: keys_after(alloc, number, entry.4)?,
        uniques: Many::new(alloc),
        mandatory: false,
        defaults: defaults_of(alloc, entry.5)?,
        least: 0,
        most: None,
        by_user: number == 10 || number == 13,
        cases: cases_of(alloc, entry.6)?,
        deny: denial_of(number),
    })
}

/// Puts a data node, whose parent is there.
fn put_node(schema: &mut Schema, node: Node) -> Result<(), Memory> {
    let count = schema.nodes();
    if let Some(above) = node.parent
        && above >= count
    {
        return Ok(());
    }
    if count < 100 {
        schema.add_node(node)?;
    }
    Ok(())
}

/// Puts all of it.
pub(crate) fn put_all(alloc: Global, schema: &mut Schema) -> Result<(), Memory> {
    for (name, space) in MODULES {
        put_module(alloc, schema, name, space)?;
    }
    put_choice(alloc, schema)?;
    for entry in NODES {
        let node = node_of(alloc, entry, schema.nodes())?;
        put_node(schema, node)?;
    }
    Ok(())
}
