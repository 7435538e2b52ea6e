//! Leafs that statements of a list name.
ghost use Rattle.std.specs.Prelude.{◌≡◌, ◌&&◌, not, ◌++◌, ◌∷◌, [], IfOk, option_and_then, option_map};
ghost use Rattle.nc_schema.specs.Kinds.{holds_nodes, is_list};
ghost use Rattle.nc_yang_data.specs.inner.Cases.{case_test};
ghost use Rattle.nc_yang_data.specs.Leafs as leafs;

use crate::cases::Cases;
use crate::naming::Naming;
use crate::words::{next_name, next_part};
use nc_names::{Copies, Many, Memory, QName, Text};
use nc_schema::{Kind, Node, Schema};
use nc_yang_scopes::{Scopes, split_reference};
use std::alloc::Global;

/// The name that a word of a statement in a text says of a node of the module that uses it.
pub(crate) fn local_name<'a>(scopes: &Scopes<'a>, text: usize, word: &'a str) -> Option<&'a str>
    ensures { option_map (λ local. local.now) result ≡ leafs.local_name scopes.now.texts text word.now }
{
    match split_reference(word) {
        Some((prefix, local)) => {
            if scopes.text_of_prefix(text, prefix) == Some(text) {
                Some(local)
            } else {
                None
            }
        }
        None => Some(word),
    }
}

// The namespace of a node.
fn space_at(alloc: Global, schema: &Schema, number: u32) -> Result<Text, Memory>
    ensures { IfOk result (λ it. it ≡ leafs.space_at schema.now number) }
{
    match schema.node(number) {
        Some(node) => node.name.space.copy(),
        None => Ok(Text::new(alloc)),
    }
}

/// The node of a name directly in a node.
pub(crate) fn child_named(
    alloc: Global,
    schema: &Schema,
    number: u32,
    local: &str,
) -> Result<Option<u32>, Memory>
    ensures { IfOk result (λ it. it ≡ leafs.child_named schema.now number local.now) }
{
    let space = space_at(alloc, schema, number)?;
    let name = Text::from_text(alloc, local)?;
    Ok(schema.child(Some(number), &QName { space, name }))
}

// The node that a word names directly in a node.
fn child_at<'a>(
    alloc: Global,
    scopes: &Scopes<'a>,
    schema: &Schema,
    text: usize,
    number: u32,
    word: &'a str,
) -> Result<Option<u32>, Memory>
    ensures { IfOk result (λ it. it ≡ leafs.child_at scopes.now.texts schema.now text number word.now) }
{
    match local_name(scopes, text, word) {
        Some(local) => child_named(alloc, schema, number, local),
        None => Ok(None),
    }
}

// Whether a node may be a key of the list in which it stands.
fn may_be_key(node: &Node) -> bool
    ensures { result ≡ leafs.may_be_key node.now }
{
    node.kind == Kind::Leaf && node.cases.is_empty()
}

// The number, where the node may be a key.
fn key_if(schema: &Schema, number: u32) -> Option<u32>
    ensures { result ≡ leafs.if_node leafs.may_be_key schema.now number }
{
    match schema.node(number) {
        Some(node) => { if may_be_key(node) { Some(number) } else { None } }
        None => None,
    }
}

// The number, where the node is a leaf.
fn leaf_if(schema: &Schema, number: u32) -> Option<u32>
    ensures { result ≡ leafs.if_node leafs.is_unique_leaf schema.now number }
{
    match schema.node(number) {
        Some(node) => {
            if node.kind == Kind::Leaf {
                Some(number)
            } else {
                None
            }
        }
        None => None,
    }
}

// Whether the kind is that of a container.
fn is_container(kind: Kind) -> bool
    ensures { result ≡ (holds_nodes kind && not (is_list kind)) }
{
    match kind {
        Kind::Container { .. } => true,
        _ => false,
    }
}

// The number, where the node is a container.
fn container_if(schema: &Schema, number: u32) -> Option<u32>
    ensures { result ≡ leafs.if_node leafs.is_container schema.now number }
{
    match schema.node(number) {
        Some(node) => {
            if is_container(node.kind) {
                Some(number)
            } else {
                None
            }
        }
        None => None,
    }
}

// The key that a word names.
fn key_at<'a>(
    alloc: Global,
    scopes: &Scopes<'a>,
    schema: &Schema,
    text: usize,
    number: u32,
    word: &'a str,
) -> Result<Option<u32>, Memory>
    ensures { IfOk result (λ it. it ≡ leafs.key_at scopes.now.texts schema.now text number word.now) }
{
    match child_at(alloc, scopes, schema, text, number, word)? {
        Some(key) => Ok(key_if(schema, key)),
        None => Ok(None),
    }
}

/// Where names of a path have led.
#[derive(Drop)]
pub(crate) struct Way {
    /// The number of the data node.
    pub node: u32,
    /// The names after that of the data node: of choices and of cases, if they lead to a node in it.
    pub before: Many<Text>,
}

// The number, where the names before lead through the cases of the node.
fn behind_if(schema: &Schema, cases: &Cases, before: &Many<Text>, number: u32) -> Option<u32>
    ensures { result
        ≡ leafs.if_node (λ node. leafs.are_named (case_test cases.now) node.cases before.now)
        schema.now number }
{
    match schema.node(number) {
        Some(node) => {
            if cases.are_named(node.cases.as_slice(), before) {
                Some(number)
            } else {
                None
            }
        }
        None => None,
    }
}

// The node of a name in the one to which names have led.
fn node_behind(
    alloc: Global,
    schema: &Schema,
    cases: &Cases,
    way: &Way,
    local: &str,
) -> Result<Option<u32>, Memory>
    ensures { IfOk result (λ it. it ≡ leafs.node_behind schema.now (case_test cases.now) way.now local.now) }
{
    match child_named(alloc, schema, way.node, local)? {
        Some(child) => Ok(behind_if(schema, cases, &way.before, child)),
        None => Ok(None),
    }
}

// Where a further name leads.
fn onward(
    alloc: Global,
    schema: &Schema,
    cases: &Cases,
    way: Way,
    local: &str,
) -> Result<Option<Way>, Memory>
    ensures { IfOk result (λ it. it ≡ leafs.onward schema.now (case_test cases.now) way local.now) }
{
    let Some(child) = node_behind(alloc, schema, cases, &way, local)? else {
        let mut way = way;
        way.before.push(Text::from_text(alloc, local)?)?;
        return Ok(Some(way));
    };
    let Some(node) = container_if(schema, child) else {
        return Ok(None);
    };
    Ok(Some(Way {
        node,
        before: Many::new(alloc),
    }))
}

// The leaf of a name, which is the last.
fn leaf_behind(
    alloc: Global,
    schema: &Schema,
    cases: &Cases,
    way: &Way,
    local: &str,
) -> Result<Option<u32>, Memory>
    ensures { IfOk result (λ it. it ≡ option_and_then (leafs.if_node leafs.is_unique_leaf schema.now)
        (leafs.node_behind schema.now (case_test cases.now) way.now local.now)) }
{
    match node_behind(alloc, schema, cases, way, local)? {
        Some(child) => Ok(leaf_if(schema, child)),
        None => Ok(None),
    }
}

// The leaf to which the names between slashes lead.
fn unique_at<'a>(
    alloc: Global,
    scopes: &Scopes<'a>,
    schema: &Schema,
    cases: &Cases,
    text: usize,
    number: u32,
    word: &'a str,
) -> Result<Option<u32>, Memory>
    ensures { IfOk result (λ it. it
        ≡ leafs.unique_at scopes.now.texts schema.now (case_test cases.now) text number word.now) }
{
    let mut way = Way {
        node: number,
        before: Many::new(alloc),
    };
    let mut left = Some(word);
    while let Some(rest) = left {
        let (part, more) = next_name(rest);
        let Some(local) = local_name(scopes, text, part) else {
            return Ok(None);
        };
        if more.is_none() {
            return leaf_behind(alloc, schema, cases, &way, local);
        }
        let Some(later) = onward(alloc, schema, cases, way, local)? else {
            return Ok(None);
        };
        way = later;
        left = more;
    }
    Ok(None)
}

// The leaf that a word of such a statement names.
fn leaf_at<'a>(
    alloc: Global,
    naming: Naming,
    scopes: &Scopes<'a>,
    schema: &Schema,
    cases: &Cases,
    text: usize,
    number: u32,
    word: &'a str,
) -> Result<Option<u32>, Memory>
    ensures { IfOk result
        (λ it. it ≡ leafs.leaf_at naming scopes.now.texts schema.now (case_test cases.now) text
        number word.now) }
{
    match naming {
        Naming::Keys => key_at(alloc, scopes, schema, text, number, word),
        Naming::Uniques => unique_at(alloc, scopes, schema, cases, text, number, word),
    }
}

// The leaf that a part between white space names, put after others; `None` where it names none. Nothing names
// nothing.
fn with_leaf<'a>(
    alloc: Global,
    naming: Naming,
    scopes: &Scopes<'a>,
    schema: &Schema,
    cases: &Cases,
    text: usize,
    number: u32,
    found: Many<u32>,
    part: &'a str,
) -> Result<Option<Many<u32>>, Memory>
    ensures { IfOk result (λ it. it ≡ option_map (λ more. found ++ more)
        (leafs.all_there
        (leafs.leafs_in naming scopes.now.texts schema.now (case_test cases.now) text number
        (part.now ∷ [])))) }
{
    if part.is_empty() {
        return Ok(Some(found));
    }
    let Some(leaf) = leaf_at(alloc, naming, scopes, schema, cases, text, number, part)? else {
        return Ok(None);
    };
    let mut found = found;
    found.push(leaf)?;
    Ok(Some(found))
}

/// The leafs that the words of a statement in a text name in the list of a number, in their order; `None`
/// where a word names none.
pub(crate) fn leafs_by<'a>(
    alloc: Global,
    naming: Naming,
    scopes: &Scopes<'a>,
    schema: &Schema,
    cases: &Cases,
    text: usize,
    number: u32,
    words: &'a str,
) -> Result<Option<Many<u32>>, Memory>
    ensures { IfOk result
        (λ it. it ≡ leafs.leafs_by naming scopes.now.texts schema.now (case_test cases.now) text
        number words.now) }
{
    let mut found = Many::new(alloc);
    let mut left = Some(words);
    while let Some(rest) = left {
        let (part, more) = next_part(rest);
        match with_leaf(
            alloc, naming, scopes, schema, cases, text, number, found, part,
        )? {
            Some(leafs) => found = leafs,
            None => return Ok(None),
        }
        left = more;
    }
    Ok(Some(found))
}
