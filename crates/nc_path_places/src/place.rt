//! The place at which a text stops to be the beginning of a path: it is looked for after a refusal alone.
ghost use Rattle.std.specs.Prelude.{◌≡◌, ◌<◌, ◌≤◌, ◌-◌, ℕ, List, None, Some, false, true, length, IfOk, IfErr};
ghost use Rattle.std.specs.List.{list_any};
ghost use Rattle.std.specs.Option.{option_map};
ghost use Rattle.nc_names.specs.Ends as ends;
ghost use Rattle.nc_path_places.specs.inner.Candidates as candidates;
ghost use Rattle.nc_path_places.specs.inner.Counted.{HasUsable, OnHere, ReadsNumber, reading_of};
ghost use Rattle.nc_path_places.specs.inner.Going as going;
ghost use Rattle.nc_path_places.specs.inner.Halting.{Leads, Halts};
ghost use Rattle.nc_path_places.specs.inner.Places as places;
ghost use Rattle.nc_paths.specs.Written.{name_of};
ghost use Rattle.nc_schema.specs.InstancePaths as paths;
ghost use Rattle.nc_schema.specs.PathWords as words;

use crate::candidates::{Names, any_giveable, can_end, ends_at, farthest, names_of, without};
use crate::halt::Halt;
use nc_names::{Binds, Memory, after_white};
use nc_paths::{
    Name, Stop, after_byte, begins_with, is_of_key, key_nodes, own_name, qualified, read_key,
    read_name, read_quoted,
};
use nc_schema::{Schema, WrittenName};
use std::alloc::Global;

// The child that a written name names.
fn child_named(
    names: &Names<'_>,
    above: Option<u32>,
    written: &WrittenName,
) -> Result<Option<u32>, Memory>
    ensures { IfOk result (λ it. it ≡ going.child_named (reading_of names.now) above written.now) }
{
    match qualified(names.schema, &names.every, written) {
        Ok(name) => Ok(names.schema.child(above, &name)),
        Err(Stop::Refused) => Ok(None),
        Err(Stop::Memory) => Err(Memory),
    }
}

// The child whose name stands first and at which a path can end, and the text after the name.
fn child_first<'a>(
    alloc: Global,
    names: &Names<'_>,
    above: Option<u32>,
    text: &'a str,
) -> Result<Option<(u32, &'a str)>, Memory>
    requires { HasUsable names.now }
    ensures { IfOk result (λ it. ReadsNumber it (candidates.child_first (reading_of names.now) above
        text.now)) }
{
    let Some((name, rest)) = read_name(text) else {
        return Ok(None);
    };
    let written = own_name(alloc, name)?;
    let Some(number) = child_named(names, above, &written)? else {
        return Ok(None);
    };
    if can_end(alloc, names, above, number)? {
        Ok(Some((number, rest)))
    } else {
        Ok(None)
    }
}

// The key of a predicate with memory of its own.
fn own_key(alloc: Global, key: Option<Name<'_>>) -> Result<Option<WrittenName>, Memory>
    ensures { IfOk result (λ it. it ≡ option_map name_of key.entry) }
{
    match key {
        Some(name) => Ok(Some(own_name(alloc, name)?)),
        None => Ok(None),
    }
}

// The first of the keys that a predicate is of.
fn key_named(
    names: &Names<'_>,
    number: u32,
    left: &[u32],
    written: &Option<WrittenName>,
) -> Option<u32>
    ensures { result ≡ going.key_named (reading_of names.now) number left.now written.now }
{
    for key in left {
        if is_of_key(names.schema, &names.every, number, *key, written) {
            return Some(*key);
        }
    }
    None
}

// The key of a predicate whose name stands first, and the text after the name.
fn key_first<'a>(
    alloc: Global,
    names: &Names<'_>,
    number: u32,
    left: &[u32],
    text: &'a str,
) -> Result<Option<(u32, &'a str)>, Memory>
    ensures { IfOk result (λ it. ReadsNumber it (candidates.key_first (reading_of names.now) number left.now
        text.now)) }
{
    let Some((key, rest)) = read_key(text) else {
        return Ok(None);
    };
    let written = own_key(alloc, key)?;
    match key_named(names, number, left, &written) {
        Some(found) => Ok(Some((found, rest))),
        None => Ok(None),
    }
}

// A step without its predicates: its data node, and the text after its name.
fn step_name<'a>(
    alloc: Global,
    names: &Names<'_>,
    above: Option<u32>,
    text: &'a str,
) -> Result<(u32, &'a str), Halt>
    requires { HasUsable names.now }
    ensures ok { IfOk result (λ found. places.IsStepName (reading_of names.now) above text.now found.0
        found.1.now) }
    ensures here { IfErr result (λ halt. OnHere halt (Halts (going.Steps (reading_of names.now) above)
        text.now)) }
{
    let Some(rest) = after_byte(text, b'/') else {
        return Err(Halt::Here(text.len()));
    };
    if let Some(found) = child_first(alloc, names, above, rest)? {
        return Ok(found);
    }
    let among = ends_at(alloc, names, above)?;
    if among.is_empty() {
        return Err(Halt::Here(text.len()));
    }
    let far = farthest(names, rest.as_bytes(), among.as_slice());
    Err(Halt::Here(rest.len().saturating_sub(far)))
}

// The name of one of the keys after the bracket of a predicate: the key, and the text after the name.
fn key_name<'a>(
    alloc: Global,
    names: &Names<'_>,
    number: u32,
    left: &[u32],
    text: &'a str,
) -> Result<(u32, &'a str), Halt>
    requires usable { HasUsable names.now }
    requires given { candidates.can_be_given (reading_of names.now) number left.now ≡ true }
    requires some { list_any (candidates.is_giveable (reading_of names.now) number) left.now ≡ true }
    ensures ok { IfOk result (λ found. Leads (going.KeyNames (reading_of names.now) number left.now)
        (places.KeyThen (reading_of names.now) number left.now found.0) text.now found.1.now) }
    ensures here { IfErr result (λ halt. OnHere halt (Halts (going.KeyNames (reading_of names.now)
        number left.now) text.now)) }
{
    let inside = after_white(text);
    if let Some(found) = key_first(alloc, names, number, left, inside)? {
        return Ok(found);
    }
    let others = without(alloc, left, number)?;
    let far = farthest(names, inside.as_bytes(), others.as_slice());
    Err(Halt::Here(inside.len().saturating_sub(far)))
}

// The text after white space and a sign.
fn after_sign(text: &str, wanted: u8) -> Result<&str, Halt>
    requires { wanted < 128 }
    ensures ok { IfOk result (λ rest. words.sign wanted (ends.after_white text.now) ≡ Some rest.now) }
    ensures here { IfErr result (λ halt. OnHere halt (λ left. (words.sign wanted (ends.after_white
        text.now) ≡ None) × (left ≡ length (ends.after_white text.now)))) }
{
    let inside = after_white(text);
    match after_byte(inside, wanted) {
        Some(rest) => Ok(rest),
        None => Err(Halt::Here(inside.len())),
    }
}

// Whether a quotation mark stands first.
fn is_marked(text: &str) -> bool
    ensures { result ≡ candidates.is_marked text.now }
{
    match text.as_bytes().first() {
        Some(first) => *first == b'\'' || *first == b'"',
        None => false,
    }
}

// The text after white space and a value.
fn after_value(text: &str) -> Result<&str, Halt>
    ensures ok { IfOk result (λ rest. (value : List ℕ) × (words.quoted_string (ends.after_white text.now) ≡
        Some (value, rest.now))) }
    ensures here { IfErr result (λ halt. OnHere halt (λ left. (words.quoted_string (ends.after_white
        text.now) ≡ None) × (left ≡ candidates.value_left (ends.after_white text.now)))) }
{
    let inside = after_white(text);
    match read_quoted(inside) {
        Some((_, rest)) => Ok(rest),
        None => {
            if is_marked(inside) {
                Err(Halt::Here(0))
            } else {
                Err(Halt::Here(inside.len()))
            }
        }
    }
}

// A predicate of one of the keys after its bracket: the key, and the text after the predicate.
fn predicate<'a>(
    alloc: Global,
    names: &Names<'_>,
    number: u32,
    left: &[u32],
    text: &'a str,
) -> Result<(u32, &'a str), Halt>
    requires usable { HasUsable names.now }
    requires given { candidates.can_be_given (reading_of names.now) number left.now ≡ true }
    requires some { list_any (candidates.is_giveable (reading_of names.now) number) left.now ≡ true }
    ensures ok { IfOk result (λ found. Leads (going.KeyNames (reading_of names.now) number left.now)
        (going.Keys (reading_of names.now) number (going.without found.0 left.now)) text.now found.1.now) }
    ensures here { IfErr result (λ halt. OnHere halt (Halts (going.KeyNames (reading_of names.now)
        number left.now) text.now)) }
{
    let (key, rest) = key_name(alloc, names, number, left, text)?;
    let rest = after_sign(rest, b'=')?;
    let rest = after_value(rest)?;
    let rest = after_sign(rest, b']')?;
    Ok((key, rest))
}

// Whether a path can end where these keys are left.
fn may_end(names: &Names<'_>, left: &[u32]) -> bool
    ensures { result ≡ places.may_end (reading_of names.now) left.now }
{
    if names.all { left.is_empty() } else { true }
}

// The text after the predicates of an entry of the node.
fn after_predicates<'a>(
    alloc: Global,
    names: &Names<'_>,
    number: u32,
    text: &'a str,
) -> Result<&'a str, Halt>
    requires usable { HasUsable names.now }
    requires given { candidates.can_be_given (reading_of names.now) number (paths.key_nodes
        names.now.schema.now number) ≡ true }
    ensures ok { IfOk result (λ rest. Leads (going.Keys (reading_of names.now) number (paths.key_nodes
        names.now.schema.now number)) (going.Steps (reading_of names.now) (Some number)) text.now rest.now) }
    ensures here { IfErr result (λ halt. OnHere halt (Halts (going.Keys (reading_of names.now) number
        (paths.key_nodes names.now.schema.now number)) text.now)) }
{
    let mut left = key_nodes(alloc, names.schema, number)?;
    let mut rest = text;
    while let Some(inside) = after_byte(rest, b'[') {
        if !any_giveable(names, number, left.as_slice()) {
            return Err(Halt::Here(rest.len()));
        }
        let (key, after) = predicate(alloc, names, number, left.as_slice(), inside)?;
        left = without(alloc, left.as_slice(), key)?;
        rest = after;
    }
    if may_end(names, left.as_slice()) {
        Ok(rest)
    } else {
        Err(Halt::Here(rest.len()))
    }
}

// A step: its data node, and the text after its predicates.
fn after_step<'a>(
    alloc: Global,
    names: &Names<'_>,
    above: Option<u32>,
    text: &'a str,
) -> Result<(u32, &'a str), Halt>
    requires { HasUsable names.now }
    ensures ok { IfOk result (λ found. places.IsStep (reading_of names.now) above text.now found.0
        found.1.now) }
    ensures here { IfErr result (λ halt. OnHere halt (Halts (going.Steps (reading_of names.now) above)
        text.now)) }
{
    let (number, behind) = step_name(alloc, names, above, text)?;
    let rest = after_predicates(alloc, names, number, behind)?;
    Ok((number, rest))
}

// All steps of a text.
fn all_steps(alloc: Global, names: &Names<'_>, text: &str) -> Result<(), Halt>
    requires { HasUsable names.now }
    ensures ok { IfOk result (λ done. Halts (going.Steps (reading_of names.now) None) text.now 0) }
    ensures here { IfErr result (λ halt. OnHere halt (Halts (going.Steps (reading_of names.now) None)
        text.now)) }
{
    let mut above = None;
    let mut rest = text;
    while !rest.is_empty() {
        let (number, after) = after_step(alloc, names, above, rest)?;
        above = Some(number);
        rest = after;
    }
    Ok(())
}

// Where a text stops that is read by these names.
fn place_by(alloc: Global, names: &Names<'_>, text: &str) -> Result<usize, Memory>
    requires { HasUsable names.now }
    ensures { IfOk result (λ at. places.IsPlace (reading_of names.now) text.now at) }
{
    match all_steps(alloc, names, text) {
        Ok(()) => Ok(text.len()),
        Err(Halt::Here(left)) => Ok(text.len().saturating_sub(left)),
        Err(Halt::Memory) => Err(Memory),
    }
}

/// The place at which a text stops to be the beginning of steps to a node; where `all` is set no key may be
/// left out.
pub(crate) fn place<B: Binds>(
    alloc: Global,
    schema: &Schema,
    text: &str,
    bounds: &B,
    all: bool,
) -> Result<usize, Memory>
    ensures { IfOk result (λ at. places.IsPlace (record {
      tables = schema.now;
      bounds = B.bound bounds.now;
      all = all;
    }) text.now at) }
{
    let names = names_of(alloc, schema, bounds, all)?;
    place_by(alloc, &names, text)
}

// The place in a node-instance identifier: `/` alone is one.
fn after_root(text: &str, at: usize) -> usize
    ensures { result ≡ candidates.after_root text.now at }
{
    if at == 0 {
        if begins_with(text, b'/') {
            return 1;
        }
    }
    at
}

/// The place at which a text stops to be the beginning of a node-instance identifier.
pub(crate) fn pattern_place<B: Binds>(
    alloc: Global,
    schema: &Schema,
    text: &str,
    bounds: &B,
) -> Result<usize, Memory>
    ensures { IfOk result (λ at. (plain : ℕ) × places.IsPlace (record {
      tables = schema.now;
      bounds = B.bound bounds.now;
      all = false;
    }) text.now plain × (at ≡ candidates.after_root text.now plain)) }
{
    let at = place(alloc, schema, text, bounds, false)?;
    Ok(after_root(text, at))
}
