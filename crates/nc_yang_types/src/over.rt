//! Plans of types over others.
ghost use Rattle.std.specs.Prelude.{◌≡◌, ◌++◌, [], true, false, Some, IfOk, IfErr, OnOk, unwrap_or};
ghost use Rattle.nc_yang_statements.specs.Rules as rules;
ghost use Rattle.nc_yang_types.specs.Entries as entries;
ghost use Rattle.nc_yang_statements.specs.Stops.{OnBroken};
ghost use Rattle.nc_yang_types.specs.declared.planned.Planned.TheVariants.{Finished};
ghost use Rattle.nc_yang_types.specs.inner.Planning.{names_in, planned_over, shape_of};

use crate::planned::Planned;
use crate::{Always, Conditions, Named, lists, names_left, narrowed, required};
use nc_names::{Copies, Many, Memory};
use nc_schema::ValueType;
use nc_yang_statements::{Fault, Stop};
use nc_yang_words::Statement;
use std::alloc::Global;

// The parts may stand in a type over one of that kind, which lists no names.
fn takes_parts(alloc: Global, shape: ValueType, below: &[Statement]) -> Result<(), Stop<Fault>>
    ensures kept { OnOk result (entries.narrowed_faults shape [] below.now ≡ []) }
    ensures fault { IfErr result (OnBroken (λ fault.
        rules.first (entries.narrowed_faults shape [] below.now) ≡ Some fault)) }
{
    narrowed(alloc, &Always, &shape, &[], below)?;
    Ok(())
}

// These numbers, and those after them.
fn joined(alloc: Global, first: &[usize], more: Many<usize>) -> Result<Many<usize>, Memory>
    ensures { IfOk result (λ it. it ≡ first.now ++ more) }
{
    let mut all = Many::new(alloc);
    for number in first {
        all.push(*number)?;
    }
    all.append(more)?;
    Ok(all)
}

// The entry that is left, where nothing else than patterns narrows it.
fn entry_left(entry: &ValueType, left: Option<ValueType>) -> Result<ValueType, Memory>
    ensures { IfOk result (λ it. it ≡ unwrap_or left entry.now) }
{
    match left {
        Some(left) => Ok(left),
        None => entry.copy(),
    }
}

// Whether no more than its entry can be other than that of the type on which it rests.
fn adds_nothing(entry: &ValueType, own: &Many<usize>, below: &[Statement]) -> bool
    ensures { result ≡ true → (own.now ≡ []) × (entries.lists entry.now below.now ≡ false) }
{
    if !own.is_empty() {
        return false;
    }
    if lists(entry, below) {
        return false;
    }
    true
}

// The plan over a finished entry with its patterns and names, with the `pattern` statements of these numbers.
#[tactic(auto, using(crate::proofs::MeaningLemmas::over_same))]
fn over_finished<'a, C: Conditions<'a>>(
    alloc: Global,
    conditions: &C,
    entry: &ValueType,
    patterns: &Many<usize>,
    names: &Many<Named>,
    own: Many<usize>,
    below: &'a [Statement],
) -> Result<Option<Planned>, Stop<Fault>>
    ensures ok { IfOk result (λ it.
        planned_over (C.stands conditions.now) (Finished entry.now patterns.now names.now) own below.now
        ≡ Some (unwrap_or it (Finished entry.now patterns.now names.now))) }
    ensures kept { OnOk result (entries.narrowed_faults entry.now names.now below.now ≡ []) }
    ensures fault { IfErr result (OnBroken (λ fault.
        rules.first (entries.narrowed_faults entry.now names.now below.now) ≡ Some fault)) }
{
    match narrowed(alloc, conditions, entry, names.as_slice(), below)? {
        None if adds_nothing(entry, &own, below) => Ok(None),
        left => Ok(Some(Planned::Finished {
            entry: entry_left(entry, left)?,
            patterns: joined(alloc, patterns.as_slice(), own)?,
            names: names_left(alloc, entry, names.as_slice(), below)?,
        })),
    }
}

/// The plan of a type with the `pattern` statements of these numbers and these parts over one of that plan;
/// `None` where it is the same.
pub(crate) fn over<'a, C: Conditions<'a>>(
    alloc: Global,
    conditions: &C,
    planned: &Planned,
    own: Many<usize>,
    below: &'a [Statement],
) -> Result<Option<Planned>, Stop<Fault>>
    ensures ok { IfOk result (λ it. planned_over (C.stands conditions.now) planned.now own below.now
        ≡ Some (unwrap_or it planned.now)) }
    ensures kept { OnOk result (entries.narrowed_faults (shape_of planned.now)
        (names_in planned.now) below.now
        ≡ []) }
    ensures fault { IfErr result (OnBroken (λ fault.
        rules.first (entries.narrowed_faults (shape_of planned.now) (names_in planned.now) below.now)
        ≡ Some fault)) }
{
    match planned {
        Planned::Finished {
            entry,
            patterns,
            names,
        } => over_finished(alloc, conditions, entry, patterns, names, own, below),
        Planned::Members(_) => {
            let members = Many::new(alloc);
            takes_parts(alloc, ValueType::Union { members }, below)?;
            Ok(None)
        }
        Planned::Bases(_) => {
            let among = Many::new(alloc);
            takes_parts(alloc, ValueType::Identity { among }, below)?;
            Ok(None)
        }
        Planned::Leafref {
            path,
            required: need,
        } => {
            let shape = ValueType::Leafref {
                target: 0,
                above: None,
                required: *need,
            };
            takes_parts(alloc, shape, below)?;
            Ok(Some(Planned::Leafref {
                path: *path,
                required: required(*need, below),
            }))
        }
    }
}
