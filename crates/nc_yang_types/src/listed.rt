//! The names that a type lists (RFC 7950 9.6, 9.7).
ghost use Rattle.std.specs.Prelude.{◌≡◌, ◌++◌, [], map, None, IfOk, OnOk};
ghost use Rattle.nc_yang_statements.specs.Rules as rules;
ghost use Rattle.nc_yang_statements.specs.Statements as statements;
ghost use Rattle.nc_yang_types.specs.Members as members;
ghost use Rattle.nc_yang_types.specs.declared.member.Listed.TheVariants.{Flags};

use crate::conditions::Conditions;
use crate::member::{Listed, higher, is_member, number_at};
use crate::names::renamed;
use crate::numbers::misnumbered;
use nc_names::{Copies, Many, Memory, Text};
use nc_yang_statements::Fault;
use nc_yang_words::Statement;
use std::alloc::Global;
use std::collections::BTreeMap;

/// The first fault of the names and of their numbers.
#[tactic(auto, using(crate::proofs::Firsts::first_some, crate::proofs::Firsts::first_none))]
pub(crate) fn ill_listed(
    alloc: Global,
    listed: Listed,
    below: &[Statement],
) -> Result<Option<Fault>, Memory>
    ensures { IfOk result (λ it. it ≡ rules.first (members.ill_listed listed below.now)) }
{
    if let Some(fault) = renamed(alloc, listed, below)? {
        return Ok(Some(fault));
    }
    misnumbered(alloc, listed, below)
}

// The name that a statement gives.
fn name_of(alloc: Global, statement: &Statement) -> Result<Text, Memory>
    ensures { IfOk result (λ it. it ≡ statements.name statement.now) }
{
    match &statement.argument {
        Some(text) => text.copy(),
        None => Ok(Text::new(alloc)),
    }
}

// Puts the name of an enumeration at the end, where it is one that is there.
fn push_name<'a, C: Conditions<'a>>(
    alloc: Global,
    conditions: &C,
    names: &mut Many<Text>,
    statement: &'a Statement,
) -> Result<(), Memory>
    ensures { OnOk result (names.new
        ≡ names.old ++ members.enum_name (C.stands conditions.now) statement.now) }
{
    if is_member(Listed::Enums, statement) && conditions.holds(statement) {
        names.push(name_of(alloc, statement)?)
    } else {
        Ok(())
    }
}

/// The names of an enumeration, in the order of the text.
pub(crate) fn enum_names<'a, C: Conditions<'a>>(
    alloc: Global,
    conditions: &C,
    below: &'a [Statement],
) -> Result<Many<Text>, Memory>
    ensures { IfOk result (λ it. it ≡ members.enum_names (C.stands conditions.now) below.now) }
{
    let mut names = Many::new(alloc);
    for statement in below {
        push_name(alloc, conditions, &mut names, statement)?;
    }
    Ok(names)
}

// The bits with one more at its place, where it is there and has a position.
fn with_bit<'a, C: Conditions<'a>>(
    alloc: Global,
    conditions: &C,
    bits: BTreeMap<i128, Text>,
    statement: &'a Statement,
    position: Option<i128>,
) -> Result<BTreeMap<i128, Text>, Memory>
    ensures { IfOk result (λ it. it.entries
        ≡ members.with_bit (C.stands conditions.now) bits.entries (statement.now, position)) }
{
    let Some(position) = position else {
        return Ok(bits);
    };
    if !conditions.holds(statement) {
        return Ok(bits);
    }
    let mut bits = bits;
    bits.insert(position, name_of(alloc, statement)?)?;
    Ok(bits)
}

// The bits by their positions.
fn bits_of<'a, C: Conditions<'a>>(
    alloc: Global,
    conditions: &C,
    below: &'a [Statement],
) -> Result<BTreeMap<i128, Text>, Memory>
    ensures { IfOk result (λ it. it.entries
        ≡ members.with_bits (C.stands conditions.now) [] (members.numbered Flags None below.now)) }
{
    let mut high = None;
    let mut bits = BTreeMap::new(alloc);
    for statement in below {
        if !is_member(Listed::Flags, statement) {
            continue;
        }
        let position = number_at(Listed::Flags, high, statement);
        bits = with_bit(alloc, conditions, bits, statement, position)?;
        high = higher(high, position);
    }
    Ok(bits)
}

// The names in the order of their positions.
fn names_in_order(alloc: Global, bits: BTreeMap<i128, Text>) -> Result<Many<Text>, Memory>
    ensures { IfOk result (λ it. it ≡ map (λ entry. entry.1) bits.entries) }
{
    let mut names = Many::new(alloc);
    let mut left = bits;
    while let Some((_, name)) = left.pop_first() {
        names.push(name)?;
    }
    Ok(names)
}

/// The names of bits, in the order of their positions.
pub(crate) fn bit_names<'a, C: Conditions<'a>>(
    alloc: Global,
    conditions: &C,
    below: &'a [Statement],
) -> Result<Many<Text>, Memory>
    ensures { IfOk result (λ it. it ≡ members.bit_names (C.stands conditions.now) below.now) }
{
    let bits = bits_of(alloc, conditions, below)?;
    names_in_order(alloc, bits)
}
