//! The rules of a user about data nodes, by their module and pattern.
ghost use Rattle.std.specs.Prelude.{◌≡◌, ◌++◌, ◌∷◌, [], Bool, List, IfOk, OnOk, IsTrue, length, map, unwrap_or};
ghost use Rattle.std.specs.List.Sorted.{IsStrictlySortedBy};
ghost use Rattle.std.specs.List.{position_from};
ghost use Rattle.std.specs.Map.{keys_of};
ghost use Rattle.nc_model.specs.declared.policy.Rule.{Rule};
ghost use Rattle.nc_nacm.specs.inner.Keys.{is_at_with, key_cmp, sought};
ghost use Rattle.nc_nacm.specs.inner.Found.{IsIndex, earlier, matches_under, under};
ghost use Rattle.nc_nacm.specs.inner.Tables as tables;
ghost use Rattle.nc_nacm.specs.inner.Places as inner;

use crate::key::{Key, compare, key_of, pattern_in, shape_of};
use nc_model::server_words::star;
use nc_model::{AccessOperations, Rule};
use nc_names::{Many, Memory, Right, Step};
use std::alloc::Global;
use std::collections::{BTreeMap, BTreeSet};

/// The first place, in a list of rules, of one that has each right.
#[derive(Clone, Copy)]
pub(crate) struct Places {
    pub(crate) read: Option<usize>,
    pub(crate) create: Option<usize>,
    pub(crate) update: Option<usize>,
    pub(crate) delete: Option<usize>,
    pub(crate) exec: Option<usize>,
}

fn no_places() -> Places
    ensures { result ≡ inner.no_places }
{
    Places {
        read: None,
        create: None,
        update: None,
        delete: None,
        exec: None,
    }
}

/// The first place of one with that right.
pub(crate) fn place_with(places: Places, right: Right) -> Option<usize>
    ensures { result ≡ inner.place_with right places }
{
    match right {
        Right::Read => places.read,
        Right::Create => places.create,
        Right::Update => places.update,
        Right::Delete => places.delete,
        Right::Exec => places.exec,
    }
}

fn or_place(place: Option<usize>, has: bool, at: usize) -> Option<usize>
    ensures { result ≡ inner.or_place place has at }
{
    match place {
        Some(place) => Some(place),
        None => { if has { Some(at) } else { None } }
    }
}

/// With one rule more, which comes after the others.
fn with_place(places: Places, operations: AccessOperations, at: usize) -> Places
    ensures { result ≡ inner.with_place places operations at }
{
    Places {
        read: or_place(places.read, operations.read, at),
        create: or_place(places.create, operations.create, at),
        update: or_place(places.update, operations.update, at),
        delete: or_place(places.delete, operations.delete, at),
        exec: or_place(places.exec, operations.exec, at),
    }
}

/// The places at a key, or none.
fn places_at(table: &BTreeMap<Key, Places>, key: &Key) -> Places
    ensures { result ≡ unwrap_or (tables.in_table table.now key.now) inner.no_places }
{
    match table.get(key) {
        Some(places) => *places,
        None => no_places(),
    }
}

fn put(
    table: BTreeMap<Key, Places>,
    key: Key,
    operations: AccessOperations,
    at: usize,
) -> Result<BTreeMap<Key, Places>, Memory>
    ensures { IfOk result (λ it. tables.Puts table it key operations at) }
{
    let mut table = table;
    let places = with_place(places_at(&table, &key), operations, at);
    table.insert(key, places)?;
    Ok(table)
}

/// With one rule more, which comes after the others.
fn with_rule(
    alloc: Global,
    table: BTreeMap<Key, Places>,
    rule: &Rule,
    at: usize,
) -> Result<BTreeMap<Key, Places>, Memory>
    ensures { IfOk result (λ it. (rules : List Rule) → at ≡ length rules
        → tables.HasPlaces (tables.in_table table) rules
        → tables.HasPlaces (tables.in_table it) (rules ++ rule.now ∷ [])) }
{
    let Some(pattern) = pattern_in(&rule.kind) else {
        return Ok(table);
    };
    let key = key_of(alloc, rule, pattern)?;
    put(table, key, rule.operations, at)
}

fn table_of(alloc: Global, rules: &[&Rule]) -> Result<BTreeMap<Key, Places>, Memory>
    ensures { IfOk result (λ it. tables.HasPlaces (tables.in_table it) (map (λ rule. rule.now) rules.now)) }
{
    let mut table = BTreeMap::new(alloc);
    for (at, rule) in rules.iter().enumerate() {
        table = with_rule(alloc, table, *rule, at)?;
    }
    Ok(table)
}

/// What a table has, in the order of its keys.
fn entries_of(alloc: Global, table: BTreeMap<Key, Places>) -> Result<Vec<(Key, Places)>, Memory>
    ensures entries { IfOk result (λ it. it.items ≡ table.entries) }
    ensures sorted { IfOk result (λ it. IsStrictlySortedBy key_cmp (keys_of it.items)) }
{
    let mut entries = Vec::new(alloc);
    for entry in table {
        entries.push(entry)?;
    }
    Ok(entries)
}

fn put_shape(
    shapes: BTreeSet<Many<Many<bool>>>,
    shape: Many<Many<bool>>,
) -> Result<BTreeSet<Many<Many<bool>>>, Memory>
    ensures { IfOk result (λ it. tables.AddsShape shapes it shape) }
{
    let mut shapes = shapes;
    shapes.insert(shape)?;
    Ok(shapes)
}

// With the shape of one rule more.
fn with_shape(
    alloc: Global,
    shapes: BTreeSet<Many<Many<bool>>>,
    rule: &Rule,
) -> Result<BTreeSet<Many<Many<bool>>>, Memory>
    ensures { IfOk result (λ it. (rules : List Rule) → tables.HasShapes shapes.keys rules
        → tables.HasShapes it.keys (rules ++ rule.now ∷ [])) }
{
    let Some(pattern) = pattern_in(&rule.kind) else {
        return Ok(shapes);
    };
    let shape = shape_of(alloc, pattern)?;
    put_shape(shapes, shape)
}

fn all_shapes(alloc: Global, rules: &[&Rule]) -> Result<BTreeSet<Many<Many<bool>>>, Memory>
    ensures { IfOk result (λ it. tables.HasShapes it.keys (map (λ rule. rule.now) rules.now)) }
{
    let mut shapes = BTreeSet::new(alloc);
    for rule in rules {
        shapes = with_shape(alloc, shapes, *rule)?;
    }
    Ok(shapes)
}

// The members of a set, in their order.
fn members(
    alloc: Global,
    shapes: BTreeSet<Many<Many<bool>>>,
) -> Result<Many<Many<Many<bool>>>, Memory>
    ensures { IfOk result (λ it. it ≡ shapes.keys) }
{
    let mut members = Many::new(alloc);
    for shape in shapes {
        members.push(shape)?;
    }
    Ok(members)
}

/// The shapes of the patterns of some rules, each once.
pub(crate) fn shapes_of(alloc: Global, rules: &[&Rule]) -> Result<Many<Many<Many<bool>>>, Memory>
    ensures { IfOk result (λ it. tables.HasShapes it (map (λ rule. rule.now) rules.now)) }
{
    let known = all_shapes(alloc, rules)?;
    members(alloc, known)
}

/// Where, in a list of rules, the first is that is at a key and has a right.
#[derive(Drop)]
pub(crate) struct Index {
    entries: Vec<(Key, Places)>,
    shapes: Many<Many<Many<bool>>>,
}

/// The index of some rules, whose shapes are these.
pub(crate) fn index_of(
    alloc: Global,
    rules: &[&Rule],
    shapes: Many<Many<Many<bool>>>,
) -> Result<Index, Memory>
    requires { tables.HasShapes shapes (map (λ rule. rule.now) rules.now) }
    ensures { IfOk result (λ it. IsIndex (map (λ rule. rule.now) rules.now) it) }
{
    let entries = entries_of(alloc, table_of(alloc, rules)?)?;
    Ok(Index { entries, shapes })
}

/// What is at the key that is sought for a path.
fn found(
    entries: &[(Key, Places)],
    name: &str,
    shape: &[Many<bool>],
    steps: &[Step],
) -> Option<Places>
    requires { IsStrictlySortedBy key_cmp (keys_of entries.now) }
    ensures { result ≡ tables.in_entries entries.now (sought name.now shape.now steps.now) }
{
    match entries.binary_search_by(|entry| compare(&entry.0, name, shape, steps)) {
        Ok(at) => Some(entries[at].1),
        Err(_) => None,
    }
}

/// The place of the first rule at the key that is sought, of those that have the right.
fn place_at(
    rules: &[&Rule],
    index: &Index,
    name: &str,
    shape: &[Many<bool>],
    steps: &[Step],
    right: Right,
) -> Option<usize>
    requires { IsIndex (map (λ rule. rule.now) rules.now) index.now }
    ensures { result ≡ position_from (is_at_with (sought name.now shape.now steps.now) right) 0
        (map (λ rule. rule.now) rules.now) }
{
    place_with(found(index.entries.as_slice(), name, shape, steps)?, right)
}

fn earlier(place: Option<usize>, other: Option<usize>) -> Option<usize>
    ensures { result ≡ earlier place other }
{
    match (place, other) {
        (None, other) => other,
        (Some(place), None) => Some(place),
        (Some(place), Some(other)) => Some(place.min(other)),
    }
}

/// The place of the first rule that matches, of those whose patterns have a shape.
fn place_under(
    rules: &[&Rule],
    index: &Index,
    name: &str,
    shape: &[Many<bool>],
    steps: &[Step],
    right: Right,
) -> Option<usize>
    requires { IsIndex (map (λ rule. rule.now) rules.now) index.now }
    ensures { result ≡ position_from (under name.now steps.now right shape.now) 0
        (map (λ rule. rule.now) rules.now) }
{
    earlier(
        place_at(rules, index, star(), shape, steps, right),
        place_at(rules, index, name, shape, steps, right),
    )
}

/// The place of the first rule that is about the node to which the steps lead, of the module of that name,
/// and about the right: each shape is looked up.
pub(crate) fn first_by_shapes(
    rules: &[&Rule],
    index: &Index,
    name: &str,
    steps: &[Step],
    right: Right,
) -> Option<usize>
    requires { IsIndex (map (λ rule. rule.now) rules.now) index.now }
    ensures { result ≡ position_from (matches_under name.now steps.now right) 0
        (map (λ rule. rule.now) rules.now) }
{
    let mut first = None;
    for shape in index.shapes.as_slice() {
        let place = place_under(rules, index, name, shape.as_slice(), steps, right);
        first = earlier(first, place);
    }
    first
}
