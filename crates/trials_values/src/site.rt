//! The schemas and the bindings of the rows.
ghost use Rattle.std.specs.Prelude.{ℕ, IfOk, length};
ghost use Rattle.nc_schema.specs.Tables.{NamesPatterns};

use nc_names::{Bound, Many, Memory, Module, QName, Text};
use nc_patterns::{RegexMaker, read};
use nc_schema::{Between, Deny, Kind, Node, Schema, ValueType};
use std::alloc::Global;

/// Where a data node stands that is at the top.
const TOP: u32 = 99;

const CONTAINER: Kind = Kind::Container { presence: false };

/// A data node of a table: its namespace and name, the number of what it stands in, its kind, and the
/// number of its type. A list has the node after it as its key.
type Entry = (&'static str, &'static str, u32, Kind, u32);

/// The data nodes from 0 on of the module `ex`, types as `types` puts them.
const PORTS: &[Entry] = &[
    ("urn:ex", "top", TOP, CONTAINER, 0),
    ("urn:ex", "host", 0, Kind::Leaf, 0),
    ("urn:ex", "port", 0, Kind::List, 0),
    ("urn:ex", "name", 2, Kind::Leaf, 0),
    ("urn:ex", "tag", 2, Kind::Leaf, 0),
    ("urn:ex", "up", 0, Kind::Leaf, 0),
    ("urn:ex", "tags", 0, Kind::LeafList, 0),
    ("urn:ex", "leaf", TOP, Kind::Leaf, 1),
    ("urn:ex", "leaf", TOP, Kind::Leaf, 2),
    ("urn:ex", "leaf", TOP, Kind::Leaf, 4),
    ("urn:ex", "leaf", TOP, Kind::Leaf, 5),
];

/// The data nodes from 0 on of the modules `ex` and `ot`; `hidden` is in a namespace of no module.
const TWO: &[Entry] = &[
    ("urn:ex", "a", TOP, CONTAINER, 0),
    ("urn:ex", "up", 0, Kind::Leaf, 0),
    ("urn:ex", "e", 0, Kind::Leaf, 0),
    ("urn:ex", "empty", 0, CONTAINER, 0),
    ("urn:ex", "list", 0, Kind::List, 0),
    ("urn:ex", "key", 4, Kind::Leaf, 0),
    ("urn:ex", "keys", 4, Kind::LeafList, 0),
    ("urn:ot", "far", 0, Kind::Leaf, 0),
    ("urn:no", "hidden", 0, CONTAINER, 0),
    ("urn:ex", "leaf", 8, Kind::Leaf, 0),
    ("urn:ot", "b", TOP, CONTAINER, 0),
    ("urn:ot", "c", 10, Kind::Leaf, 0),
    ("urn:ex", "void", TOP, CONTAINER, 0),
    ("urn:ex", "inner", 12, CONTAINER, 0),
];

/// The bindings of all rows. Of the two of `d` the first counts, whose namespace is that of no module.
const BINDINGS: &[(&str, &str)] = &[
    ("e", "urn:ex"),
    ("", "urn:ex"),
    ("o", "urn:ot"),
    ("x", "urn:no"),
    ("d", "urn:no"),
    ("d", "urn:ex"),
];

const MODULES_OF_ONE: &[(&str, &str)] = &[("ex", "urn:ex")];

const MODULES_OF_TWO: &[(&str, &str)] = &[("ex", "urn:ex"), ("ot", "urn:ot")];

/// What the rows are asked of.
#[derive(Drop)]
pub(crate) struct Site {
    pub ports: Schema,
    pub two: Schema,
    pub bounds: Many<Bound>,
}

fn put_module(alloc: Global, schema: &mut Schema, name: &str, space: &str) -> Result<(), Memory> {
    let module = Module {
        name: Text::from_text(alloc, name)?,
        space: Text::from_text(alloc, space)?,
        revision: Text::new(alloc),
        features: Many::new(alloc),
    };
    if schema.modules().len() < 100 {
        schema.add_module(module)?;
    }
    Ok(())
}

fn put_type(schema: &mut Schema, value_type: ValueType) -> Result<(), Memory>
    requires { NamesPatterns (length schema.old.patterns) value_type }
{
    if schema.types().len() < 100 {
        schema.add_type(value_type)?;
    }
    Ok(())
}

/// A string of one of some lengths up to 5, which begins with no star where `starless` is set.
fn chars(alloc: Global, least: i128, starless: bool) -> Result<ValueType, Memory>
    ensures { IfOk result (λ it. (count : ℕ) → NamesPatterns count it) }
{
    let mut lengths = Many::new(alloc);
    lengths.push(Between { least, most: 5 })?;
    Ok(ValueType::Chars {
        lengths,
        starless,
        patterns: Many::new(alloc),
    })
}

/// Adds a pattern, and a string of up to 5 characters that it admits.
fn put_pattern(alloc: Global, schema: &mut Schema, pattern: &str) -> Result<(), Memory> {
    let Ok(()) = read(alloc, pattern) else {
        return Err(Memory);
    };
    let Ok(number) = schema.add_pattern(&mut RegexMaker::new(alloc), pattern) else {
        return Err(Memory);
    };
    let mut lengths = Many::new(alloc);
    lengths.push(Between { least: 0, most: 5 })?;
    let mut patterns = Many::new(alloc);
    patterns.push(number)?;
    put_type(
        schema,
        ValueType::Chars {
            lengths,
            starless: false,
            patterns,
        },
    )
}

/// A union of the types 2 and 3: of itself and of a boolean.
fn union_of_itself(alloc: Global) -> Result<ValueType, Memory>
    ensures { IfOk result (λ it. (count : ℕ) → NamesPatterns count it) }
{
    let mut members = Many::new(alloc);
    members.push(2)?;
    members.push(3)?;
    Ok(ValueType::Union { members })
}

/// Types 0 to 5: a string of up to 5 characters, a node-instance identifier, a union of itself and of a
/// boolean, that boolean, the name of a group, and a string with a pattern.
fn put_types(alloc: Global, schema: &mut Schema) -> Result<(), Memory> {
    put_type(schema, chars(alloc, 0, false)?)?;
    put_type(schema, ValueType::NodeInstance)?;
    put_type(schema, union_of_itself(alloc)?)?;
    put_type(schema, ValueType::Boolean)?;
    put_type(schema, chars(alloc, 1, true)?)?;
    put_pattern(alloc, schema, "[a-c]+\\d?")
}

/// The data node of an entry of a table, whose number is `number`.
fn node_of(alloc: Global, entry: &Entry, number: u32) -> Result<Node, Memory> {
    let mut keys = Many::new(alloc);
    if entry.3 == Kind::List {
        keys.push(number.wrapping_add(1))?;
    }
    Ok(Node {
        name: QName {
            space: Text::from_text(alloc, entry.0)?,
            name: Text::from_text(alloc, entry.1)?,
        },
        module: 0,
        parent: if entry.2 == TOP { None } else { Some(entry.2) },
        kind: entry.3,
        kind_of_value: entry.4,
        keys,
        uniques: Many::new(alloc),
        mandatory: false,
        defaults: Many::new(alloc),
        least: 0,
        most: None,
        by_user: false,
        cases: Many::new(alloc),
        deny: Deny::Nothing,
    })
}

/// Puts a data node, whose parent is there.
fn put_node(schema: &mut Schema, node: Node) -> Result<(), Memory> {
    let count = schema.nodes();
    if let Some(above) = node.parent
        && above >= count
    {
        return Ok(());
    }
    if count < 100 {
        schema.add_node(node)?;
    }
    Ok(())
}

fn put_nodes(alloc: Global, schema: &mut Schema, entries: &[Entry]) -> Result<(), Memory> {
    for entry in entries {
        let node = node_of(alloc, entry, schema.nodes())?;
        put_node(schema, node)?;
    }
    Ok(())
}

fn put_bindings(alloc: Global, bounds: &mut Many<Bound>) -> Result<(), Memory> {
    for (prefix, space) in BINDINGS {
        bounds.push(Bound {
            prefix: Text::from_text(alloc, prefix)?,
            space: Text::from_text(alloc, space)?,
        })?;
    }
    Ok(())
}

/// Puts modules, the types and the data nodes of a table.
fn put_all(
    alloc: Global,
    schema: &mut Schema,
    modules: &[(&str, &str)],
    entries: &[Entry],
) -> Result<(), Memory> {
    for (name, space) in modules {
        put_module(alloc, schema, name, space)?;
    }
    put_types(alloc, schema)?;
    put_nodes(alloc, schema, entries)
}

impl Site {
    /// A site of nothing.
    pub(crate) fn new(alloc: Global) -> Site {
        Site {
            ports: Schema::new(alloc),
            two: Schema::new(alloc),
            bounds: Many::new(alloc),
        }
    }

    /// Puts all of it.
    pub(crate) fn put(&mut self, alloc: Global) -> Result<(), Memory> {
        put_all(alloc, &mut self.ports, MODULES_OF_ONE, PORTS)?;
        put_all(alloc, &mut self.two, MODULES_OF_TWO, TWO)?;
        put_bindings(alloc, &mut self.bounds)
    }
}
