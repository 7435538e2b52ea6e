//! Numbers of names that are none, or stand twice (RFC 7950 9.6.4.2, 9.7.4.2).
ghost use Rattle.std.specs.Prelude.{◌≡◌, ◌++◌, ◌∷◌, [], List, ℤ, None, Some, true, IfOk};
ghost use Rattle.nc_yang_statements.specs.Rules as rules;
ghost use Rattle.nc_yang_statements.specs.Statements as statements;
ghost use Rattle.nc_yang_types.specs.Members as members;
ghost use Rattle.nc_yang_types.specs.inner.Known.{HasNumbers};

use crate::member::{Listed, higher, is_member, number_at, number_part};
use crate::part::fault;
use nc_names::Memory;
use nc_yang_statements::{Fault, ModuleWhy};
use nc_yang_words::Statement;
use std::alloc::Global;
use std::collections::BTreeSet;

// The fault of a number.
fn number_fault(listed: Listed, statement: &Statement, why: ModuleWhy) -> Fault
    ensures { Some result ≡ rules.first (members.at_number listed statement.now true why) }
{
    match number_part(listed, statement) {
        Some(given) => fault(given, why),
        None => fault(statement, why),
    }
}

// Whether there is no number, or it is known.
fn is_unfit(known: &BTreeSet<i128>, number: Option<i128>) -> bool
    ensures { (before : List ℤ) → HasNumbers known.now before → result ≡ members.is_unfit before number }
{
    match number {
        Some(number) => known.contains(&number),
        None => true,
    }
}

// Why it does not suit then.
fn why_unfit(listed: Listed, statement: &Statement, number: Option<i128>) -> ModuleWhy
    ensures { result ≡ members.why_unfit
        (statements.part (members.number_word listed) (statements.below statement.now)) number }
{
    if number.is_some() {
        return ModuleWhy::Twice;
    }
    match number_part(listed, statement) {
        Some(_) => ModuleWhy::BadArgument,
        None => ModuleWhy::Missing,
    }
}

// The numbers with one more.
fn with_one(known: BTreeSet<i128>, number: i128) -> Result<BTreeSet<i128>, Memory>
    ensures { IfOk result (λ it. (before : List ℤ) → HasNumbers known before →
        HasNumbers it (before ++ number ∷ [])) }
{
    let mut known = known;
    known.insert(number)?;
    Ok(known)
}

// The numbers with one more, where there is one.
fn with_number(known: BTreeSet<i128>, number: Option<i128>) -> Result<BTreeSet<i128>, Memory>
    ensures { IfOk result (λ it. (before : List ℤ) → HasNumbers known before →
        HasNumbers it (members.with_number before number)) }
{
    match number {
        Some(number) => with_one(known, number),
        None => Ok(known),
    }
}

/// The first name without a number, or with that of one before.
pub(crate) fn misnumbered(
    alloc: Global,
    listed: Listed,
    below: &[Statement],
) -> Result<Option<Fault>, Memory>
    ensures { IfOk result (λ it. it
        ≡ rules.first (members.misnumbered listed [] (members.numbered listed None below.now))) }
{
    let mut high = None;
    let mut known = BTreeSet::new(alloc);
    for statement in below {
        if !is_member(listed, statement) {
            continue;
        }
        let number = number_at(listed, high, statement);
        if is_unfit(&known, number) {
            let why = why_unfit(listed, statement, number);
            return Ok(Some(number_fault(listed, statement, why)));
        }
        known = with_number(known, number)?;
        high = higher(high, number);
    }
    Ok(None)
}
