//! The entries of types over others (RFC 7950 7.3.4, 9).
ghost use Rattle.std.specs.Prelude.{◌≡◌, [], true, Some, IfOk, IfErr, OnOk, unwrap_or};
ghost use Rattle.nc_schema.specs.declared.value_type.ValueType.TheVariants.{Whole, Decimal, Chars, Binary, Bits, Enumeration};
ghost use Rattle.nc_yang_statements.specs.Rules as rules;
ghost use Rattle.nc_yang_types.specs.Entries as entries;
ghost use Rattle.nc_yang_types.specs.Members as members;
ghost use Rattle.nc_yang_statements.specs.Stops.{OnBroken};

use crate::bound::Counted;
use crate::choice::{chosen, copies_of, ill_choices, still_listed};
use crate::conditions::Conditions;
use crate::member::{Listed, Named, member_word};
use crate::part::foreign_over;
use crate::patterns::keep_patterns;
use crate::restricted::{narrower, required};
use nc_names::{Copies, Many, Memory, Text};
use nc_schema::{Between, ValueType};
use nc_yang_statements::{Fault, Keyword, Stop, has};
use nc_yang_words::Statement;
use std::alloc::Global;

// The entry over an integer type.
fn over_whole(
    alloc: Global,
    among: &Many<Between>,
    below: &[Statement],
) -> Result<Option<ValueType>, Stop<Fault>>
    ensures ok { IfOk result (λ it.
        entries.narrowed (λ s. true) (Whole among.now) below.now ≡ Some (unwrap_or it (Whole among.now))) }
    ensures kept { OnOk result (entries.misnarrowed (Whole among.now) [] below.now ≡ []) }
    ensures fault { IfErr result (OnBroken (λ fault.
        rules.first (entries.misnarrowed (Whole among.now) [] below.now) ≡ Some fault)) }
{
    let counted = Counted::Units(0);
    match narrower(alloc, counted, Keyword::Range, among.as_slice(), below)? {
        Some(among) => Ok(Some(ValueType::Whole { among })),
        None => Ok(None),
    }
}

// The entry over a `decimal64`.
fn over_decimal(
    alloc: Global,
    digits: u32,
    among: &Many<Between>,
    below: &[Statement],
) -> Result<Option<ValueType>, Stop<Fault>>
    ensures ok { IfOk result (λ it.
        entries.narrowed (λ s. true) (Decimal digits among.now) below.now
        ≡ Some (unwrap_or it (Decimal digits among.now))) }
    ensures kept { OnOk result (entries.misnarrowed (Decimal digits among.now) [] below.now ≡ []) }
    ensures fault { IfErr result (OnBroken (λ fault.
        rules.first (entries.misnarrowed (Decimal digits among.now) [] below.now) ≡ Some fault)) }
{
    let counted = Counted::Units(digits);
    match narrower(alloc, counted, Keyword::Range, among.as_slice(), below)? {
        Some(among) => Ok(Some(ValueType::Decimal { digits, among })),
        None => Ok(None),
    }
}

// The entry over a string.
fn over_chars(
    alloc: Global,
    lengths: &Many<Between>,
    starless: bool,
    patterns: &Many<u32>,
    below: &[Statement],
) -> Result<Option<ValueType>, Stop<Fault>>
    ensures ok { IfOk result (λ it.
        entries.narrowed (λ s. true) (Chars lengths.now starless patterns.now) below.now
        ≡ Some (unwrap_or it (Chars lengths.now starless patterns.now))) }
    ensures kept { OnOk result (entries.misnarrowed (Chars lengths.now starless patterns.now) [] below.now
        ≡ []) }
    ensures fault { IfErr result (OnBroken (λ fault.
        rules.first (entries.misnarrowed (Chars lengths.now starless patterns.now) [] below.now)
        ≡ Some fault)) }
{
    let counted = Counted::Lengths;
    match narrower(alloc, counted, Keyword::Length, lengths.as_slice(), below)? {
        Some(lengths) => Ok(Some(ValueType::Chars {
            lengths,
            starless,
            patterns: patterns.copy()?,
        })),
        None => Ok(None),
    }
}

// The entry over a `binary`.
fn over_binary(
    alloc: Global,
    lengths: &Many<Between>,
    below: &[Statement],
) -> Result<Option<ValueType>, Stop<Fault>>
    ensures ok { IfOk result (λ it.
        entries.narrowed (λ s. true) (Binary lengths.now) below.now
        ≡ Some (unwrap_or it (Binary lengths.now))) }
    ensures kept { OnOk result (entries.misnarrowed (Binary lengths.now) [] below.now ≡ []) }
    ensures fault { IfErr result (OnBroken (λ fault.
        rules.first (entries.misnarrowed (Binary lengths.now) [] below.now) ≡ Some fault)) }
{
    let counted = Counted::Lengths;
    match narrower(alloc, counted, Keyword::Length, lengths.as_slice(), below)? {
        Some(lengths) => Ok(Some(ValueType::Binary { lengths })),
        None => Ok(None),
    }
}

// The entry over one that takes names.
fn over_names<'a, C: Conditions<'a>>(
    alloc: Global,
    conditions: &C,
    listed: Listed,
    taken: &[Text],
    names: &[Named],
    below: &'a [Statement],
) -> Result<Option<Many<Text>>, Stop<Fault>>
    ensures ok { IfOk result (λ it. members.chosen (C.stands conditions.now) listed below.now taken.now
        ≡ unwrap_or it taken.now) }
    ensures kept { OnOk result (members.ill_choices listed names.now below.now ≡ []) }
    ensures fault { IfErr result (OnBroken (λ fault.
        rules.first (members.ill_choices listed names.now below.now) ≡ Some fault)) }
{
    if let Some(fault) = ill_choices(alloc, listed, names, below)? {
        return Err(Stop::Broken(fault));
    }
    Ok(chosen(alloc, conditions, listed, taken, below)?)
}

// The entry over an enumeration.
fn over_enumeration<'a, C: Conditions<'a>>(
    alloc: Global,
    conditions: &C,
    taken: &Many<Text>,
    names: &[Named],
    below: &'a [Statement],
) -> Result<Option<ValueType>, Stop<Fault>>
    ensures ok { IfOk result (λ it. entries.narrowed (C.stands conditions.now)
        (Enumeration taken.now) below.now
        ≡ Some (unwrap_or it (Enumeration taken.now))) }
    ensures kept { OnOk result (entries.misnarrowed (Enumeration taken.now) names.now below.now ≡ []) }
    ensures fault { IfErr result (OnBroken (λ fault.
        rules.first (entries.misnarrowed (Enumeration taken.now) names.now below.now) ≡ Some fault)) }
{
    match over_names(
        alloc,
        conditions,
        Listed::Enums,
        taken.as_slice(),
        names,
        below,
    )? {
        Some(names) => Ok(Some(ValueType::Enumeration { names })),
        None => Ok(None),
    }
}

// The entry over bits.
fn over_bits<'a, C: Conditions<'a>>(
    alloc: Global,
    conditions: &C,
    taken: &Many<Text>,
    names: &[Named],
    below: &'a [Statement],
) -> Result<Option<ValueType>, Stop<Fault>>
    ensures ok { IfOk result (λ it. entries.narrowed (C.stands conditions.now) (Bits taken.now) below.now
        ≡ Some (unwrap_or it (Bits taken.now))) }
    ensures kept { OnOk result (entries.misnarrowed (Bits taken.now) names.now below.now ≡ []) }
    ensures fault { IfErr result (OnBroken (λ fault.
        rules.first (entries.misnarrowed (Bits taken.now) names.now below.now) ≡ Some fault)) }
{
    match over_names(
        alloc,
        conditions,
        Listed::Flags,
        taken.as_slice(),
        names,
        below,
    )? {
        Some(names) => Ok(Some(ValueType::Bits { names })),
        None => Ok(None),
    }
}

// The entry by the parts that narrow a type.
fn entry_over<'a, C: Conditions<'a>>(
    alloc: Global,
    conditions: &C,
    base: &ValueType,
    names: &[Named],
    below: &'a [Statement],
) -> Result<Option<ValueType>, Stop<Fault>>
    ensures ok { IfOk result (λ it. entries.narrowed (C.stands conditions.now) base.now below.now
        ≡ Some (unwrap_or it base.now)) }
    ensures kept { OnOk result (entries.misnarrowed base.now names.now below.now ≡ []) }
    ensures fault { IfErr result (OnBroken (λ fault.
        rules.first (entries.misnarrowed base.now names.now below.now) ≡ Some fault)) }
{
    match base {
        ValueType::Whole { among } => over_whole(alloc, among, below),
        ValueType::Decimal { digits, among } => over_decimal(alloc, *digits, among, below),
        ValueType::Chars {
            lengths,
            starless,
            patterns,
        } => over_chars(alloc, lengths, *starless, patterns, below),
        ValueType::Binary { lengths } => over_binary(alloc, lengths, below),
        ValueType::Enumeration { names: taken } => {
            over_enumeration(alloc, conditions, taken, names, below)
        }
        ValueType::Bits { names: taken } => over_bits(alloc, conditions, taken, names, below),
        ValueType::Leafref {
            target,
            above,
            required: need,
        } => Ok(Some(ValueType::Leafref {
            target: *target,
            above: *above,
            required: required(*need, below),
        })),
        ValueType::Instance { required: need } => Ok(Some(ValueType::Instance {
            required: required(*need, below),
        })),
        _ => Ok(None),
    }
}

/// The entry of a `type` statement over another type whose entry is `base`, by its own parts; `None` where
/// nothing narrows it, and it is that of the other type (RFC 7950 9.2.3, 9.3.3, 9.4.3, 9.6.3, 9.7.3, 9.8.1,
/// 9.9.3, 9.13.1). The patterns are those of the base, and `names` those that it lists with their numbers. Of
/// the names that the type lists itself those are left out whose conditions do not hold. The fault is the
/// first of those that it has: a part that the type has not, then a pattern that cannot be read, then a range
/// or a length that may not stand there, a name that it gives twice, or that the base has not or with another
/// number.
#[tactic(auto, using(crate::proofs::Firsts::first_some, crate::proofs::Firsts::first_none, crate::proofs::Firsts::nothing_first, crate::proofs::Firsts::nothing_more))]
pub fn narrowed<'a, C: Conditions<'a>>(
    alloc: Global,
    conditions: &C,
    base: &ValueType,
    names: &[Named],
    below: &'a [Statement],
) -> Result<Option<ValueType>, Stop<Fault>>
    ensures ok { IfOk result (λ it. entries.narrowed (C.stands conditions.now) base.now below.now
        ≡ Some (unwrap_or it base.now)) }
    ensures kept { OnOk result (entries.narrowed_faults base.now names.now below.now ≡ []) }
    ensures fault { IfErr result (OnBroken (λ fault.
        rules.first (entries.narrowed_faults base.now names.now below.now) ≡ Some fault)) }
{
    if let Some(fault) = foreign_over(base, below) {
        return Err(Stop::Broken(fault));
    }
    keep_patterns(alloc, below)?;
    entry_over(alloc, conditions, base, names, below)
}

/// Whether a type over another whose entry is `base` lists names of its own (RFC 7950 9.6.3, 9.7.3).
pub fn lists(base: &ValueType, below: &[Statement]) -> bool
    ensures { result ≡ entries.lists base.now below.now }
{
    match base {
        ValueType::Enumeration { .. } => has(below, member_word(Listed::Enums)),
        ValueType::Bits { .. } => has(below, member_word(Listed::Flags)),
        _ => false,
    }
}

/// The names with their numbers that a type over another lists, whose entry is `base` and which lists these
/// (RFC 7950 9.6.3, 9.7.3).
pub fn names_left(
    alloc: Global,
    base: &ValueType,
    names: &[Named],
    below: &[Statement],
) -> Result<Many<Named>, Memory>
    ensures { IfOk result (λ it. it ≡ entries.names_left base.now names.now below.now) }
{
    match base {
        ValueType::Enumeration { .. } => still_listed(alloc, Listed::Enums, names, below),
        ValueType::Bits { .. } => still_listed(alloc, Listed::Flags, names, below),
        _ => copies_of(alloc, names),
    }
}
