//! The schema of the tests.
ghost use Rattle.std.specs.Prelude.{◌≡◌, IfOk, OnOk};
ghost use Rattle.trials_machine.specs.Sample as meant;

use nc_names::{Many, Memory, Module, QName, Text};
use nc_schema::{Between, Deny, Kind, Node, Schema, ValueType};
use std::alloc::Global;

fn node(
    alloc: Global,
    name: &str,
    parent: Option<u32>,
    kind: Kind,
    keys: Many<u32>,
    most: Option<u64>,
) -> Result<Node, Memory>
    ensures { IfOk result (λ it. it ≡ meant.node name.now parent kind keys most) }
{
    Ok(Node {
        name: QName {
            space: Text::from_text(alloc, "urn:ex")?,
            name: Text::from_text(alloc, name)?,
        },
        module: 0,
        parent,
        kind,
        kind_of_value: 0,
        keys,
        uniques: Many::new(alloc),
        mandatory: false,
        defaults: Many::new(alloc),
        least: 0,
        most,
        by_user: false,
        cases: Many::new(alloc),
        deny: Deny::Nothing,
    })
}

#[tactic(auto, unfolding(crate::specs::Sample::host))]
fn host(alloc: Global) -> Result<Node, Memory>
    ensures { IfOk result (λ it. it ≡ meant.host) }
{
    node(alloc, "host", None, Kind::Leaf, Many::new(alloc), None)
}

#[tactic(auto, unfolding(crate::specs::Sample::tag))]
fn tag(alloc: Global) -> Result<Node, Memory>
    ensures { IfOk result (λ it. it ≡ meant.tag) }
{
    node(
        alloc,
        "tag",
        None,
        Kind::LeafList,
        Many::new(alloc),
        Some(2),
    )
}

#[tactic(auto, unfolding(crate::specs::Sample::port))]
fn port(alloc: Global) -> Result<Node, Memory>
    ensures { IfOk result (λ it. it ≡ meant.port) }
{
    let mut keys = Many::new(alloc);
    keys.push(3)?;
    node(alloc, "port", None, Kind::List, keys, None)
}

#[tactic(auto, unfolding(crate::specs::Sample::name))]
fn name(alloc: Global) -> Result<Node, Memory>
    ensures { IfOk result (λ it. it ≡ meant.name) }
{
    node(alloc, "name", Some(2), Kind::Leaf, Many::new(alloc), None)
}

#[tactic(auto, unfolding(crate::specs::Sample::speed))]
fn speed(alloc: Global) -> Result<Node, Memory>
    ensures { IfOk result (λ it. it ≡ meant.speed) }
{
    node(alloc, "speed", Some(2), Kind::Leaf, Many::new(alloc), None)
}

fn chars(alloc: Global) -> Result<ValueType, Memory>
    ensures { IfOk result (λ it. it ≡ meant.chars) }
{
    let mut lengths = Many::new(alloc);
    lengths.push(Between {
        least: 0,
        most: 18446744073709551615,
    })?;
    Ok(ValueType::Chars {
        lengths,
        starless: false,
        patterns: Many::new(alloc),
    })
}

fn module(alloc: Global) -> Result<Module, Memory>
    ensures { IfOk result (λ it. it ≡ meant.ex) }
{
    Ok(Module {
        name: Text::from_text(alloc, "ex")?,
        space: Text::from_text(alloc, "urn:ex")?,
        revision: Text::new(alloc),
        features: Many::new(alloc),
    })
}

// The module and its type alone. The schema is the caller's, so nothing is let go where memory is wanted.
fn put_module(alloc: Global, schema: &mut Schema) -> Result<(), Memory>
    requires { schema.old ≡ meant.empty }
    ensures { OnOk result (schema.new ≡ meant.begun) }
{
    schema.add_module(module(alloc)?)?;
    schema.add_type(chars(alloc)?)?;
    Ok(())
}

// The nodes at the top.
#[tactic(auto, unfolding(crate::specs::Sample::host, crate::specs::Sample::tag, crate::specs::Sample::port))]
fn put_top(alloc: Global, schema: &mut Schema) -> Result<(), Memory>
    requires { schema.old ≡ meant.begun }
    ensures { OnOk result (schema.new ≡ meant.topped) }
{
    schema.add_node(host(alloc)?)?;
    schema.add_node(tag(alloc)?)?;
    schema.add_node(port(alloc)?)?;
    Ok(())
}

// The nodes of the list.
#[tactic(auto, unfolding(crate::specs::Sample::sample, crate::specs::Sample::name, crate::specs::Sample::speed))]
fn put_below(alloc: Global, schema: &mut Schema) -> Result<(), Memory>
    requires { schema.old ≡ meant.topped }
    ensures { OnOk result (schema.new ≡ meant.sample) }
{
    schema.add_node(name(alloc)?)?;
    schema.add_node(speed(alloc)?)?;
    Ok(())
}

fn fill(alloc: Global, schema: &mut Schema) -> Result<(), Memory>
    requires { schema.old ≡ meant.empty }
    ensures { OnOk result (schema.new ≡ meant.sample) }
{
    put_module(alloc, schema)?;
    put_top(alloc, schema)?;
    put_below(alloc, schema)
}

/// The whole schema.
pub fn schema(alloc: Global) -> Result<Schema, Memory>
    ensures { IfOk result (λ it. it ≡ meant.sample) }
{
    let mut schema = Schema::new(alloc);
    fill(alloc, &mut schema)?;
    Ok(schema)
}
