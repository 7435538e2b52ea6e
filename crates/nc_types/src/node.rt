//! The canonical text at a data node.
ghost use Rattle.std.specs.Prelude.{◌≡◌, ◌==◌, ◌||◌, false, [], Some, None, IfOk, IfErr, length};
ghost use Rattle.std.specs.List.{list_any};
ghost use Rattle.nc_schema.specs.InstancePaths as paths;
ghost use Rattle.nc_schema.specs.Values as values;
ghost use Rattle.nc_types.specs.inner.Faults.{OnNotInType};

use crate::fault::TypeFault;
use crate::gives::{Gives, Nothing};
use crate::reading::Reading;
use crate::value::type_of;
use nc_names::{Binds, Text};
use nc_schema::{Kind, Schema};
use std::alloc::Global;

// Whether the text lacks one kind of quotation mark.
fn is_quotable(text: &[u8]) -> bool
    ensures { result ≡ values.is_quotable text.now }
{
    !(text.contains(&b'\'') && text.contains(&b'"'))
}

// Whether the node is among its own keys, as a leaf-list is.
fn is_own_key(schema: &Schema, number: u32) -> bool
    ensures { result ≡ list_any (λ key. key == number) (paths.key_nodes schema.now number) }
{
    let Some(node) = schema.node(number) else {
        return false;
    };
    match node.kind {
        Kind::LeafList => true,
        Kind::List => node.keys.as_slice().contains(&number),
        Kind::Container { .. } | Kind::Leaf => false,
    }
}

// Whether the node is a key of the list in which it stands.
fn is_key_above(schema: &Schema, number: u32) -> bool
    ensures { result ≡ values.is_key_above schema.now number }
{
    let Some(node) = schema.node(number) else {
        return false;
    };
    let Some(above) = node.parent else {
        return false;
    };
    match schema.node(above) {
        Some(over) => over.keys.as_slice().contains(&number),
        None => false,
    }
}

/// The canonical text at a data node, where `keys` gives those of the keys within it.
pub(crate) fn node_text<K: Gives, B: Binds>(
    keys: &K,
    alloc: Global,
    schema: &Schema,
    bounds: &B,
    number: u32,
    text: &str,
) -> Result<Text, TypeFault>
    ensures ok { IfOk result (λ it. values.node_text schema.now (K.gives schema.now) (B.bound bounds.now)
        number text.now ≡ Some it) }
    ensures refused { IfErr result (λ fault. OnNotInType fault (values.node_text schema.now (K.gives
        schema.now) (B.bound bounds.now) number text.now ≡ None)) }
{
    let Some(found) = type_of(schema, number) else {
        return Err(TypeFault::NotInType);
    };
    let reading = Reading {
        keys,
        alloc,
        schema,
        bounds,
        by_names: false,
    };
    let value = reading.type_text(schema.types().len(), &[], found, text)?;
    let stands = is_key_above(schema, number) || is_own_key(schema, number);
    if !stands || is_quotable(value.as_str().as_bytes()) {
        Ok(value)
    } else {
        Err(TypeFault::NotInType)
    }
}

/// Gives the canonical text at a data node, with those of its keys by another.
#[derive(Drop)]
struct Within<K> {
    keys: K,
}

impl<K: Gives> Gives for Within<K> {
    ghost use Rattle.nc_schema.specs.Values.{node_text};

    ghost gives = { λ tables bounds number text. node_text tables (K.gives tables) bounds number text };

    fn give<B: Binds>(
        &self,
        alloc: Global,
        schema: &Schema,
        bounds: &B,
        number: u32,
        text: &str,
    ) -> Result<Text, TypeFault> {
        node_text(&self.keys, alloc, schema, bounds, number, text)
    }
}

/// The canonical text of the value that a text has at the data node of that number (RFC 7950 9.1). `bounds`
/// are the prefixes in force where the text stands; of two of one prefix the first counts.
#[tactic(auto, unfolding(nc_schema::specs::Values::canonical))]
pub fn canonical<B: Binds>(
    alloc: Global,
    schema: &Schema,
    node: u32,
    text: &str,
    bounds: &B,
) -> Result<Text, TypeFault>
    ensures ok { IfOk result (λ it. values.canonical schema.now node text.now (B.bound bounds.now) ≡ Some
        it) }
    ensures refused { IfErr result (λ fault. OnNotInType fault (values.canonical schema.now node text.now
        (B.bound bounds.now) ≡ None)) }
{
    let gives = Within {
        keys: Within {
            keys: Within { keys: Nothing },
        },
    };
    gives.give(alloc, schema, bounds, node, text)
}
