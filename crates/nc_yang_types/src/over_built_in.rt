//! The entries of types over built-in types (RFC 7950 9).
ghost use Rattle.std.specs.Prelude.{◌≡◌, [], Some, IfOk, IfErr, OnOk};
ghost use Rattle.nc_yang_statements.specs.Rules as rules;
ghost use Rattle.nc_yang_statements.specs.Statements as statements;
ghost use Rattle.nc_yang_statements.specs.declared.keyword.Keyword.TheVariants.{Range as RangeWord, Length as LengthWord};
ghost use Rattle.nc_yang_types.specs.declared.bound.Counted.TheVariants.{Units, Lengths};
ghost use Rattle.nc_yang_types.specs.declared.member.Listed.TheVariants.{Enums, Flags};
ghost use Rattle.nc_yang_types.specs.Entries as entries;
ghost use Rattle.nc_yang_types.specs.Members as members;
ghost use Rattle.nc_yang_statements.specs.Stops.{OnBroken};

use crate::bound::Counted;
use crate::choice::listing;
use crate::conditions::Conditions;
use crate::integer::{decimals, integers, lengths};
use crate::listed::{bit_names, enum_names, ill_listed};
use crate::member::{Listed, Named};
use crate::part::misshapen;
use crate::patterns::keep_patterns;
use crate::restricted::{digits_of, required, restricted};
use nc_names::{Many, Memory, Text};
use nc_schema::{Between, ValueType};
use nc_yang_statements::{BuiltIn, Fault, Keyword, Stop};
use nc_yang_words::Statement;
use std::alloc::Global;

// The lengths that are left.
fn lengths_left(alloc: Global, below: &[Statement]) -> Result<Many<Between>, Stop<Fault>>
    ensures ok { IfOk result (λ it.
        entries.restricted Lengths LengthWord entries.lengths below.now ≡ Some it) }
    ensures kept { OnOk result (entries.misread Lengths LengthWord entries.lengths below.now ≡ []) }
    ensures fault { IfErr result (OnBroken (λ fault.
        rules.first (entries.misread Lengths LengthWord entries.lengths below.now) ≡ Some fault)) }
{
    restricted(
        alloc,
        Counted::Lengths,
        Keyword::Length,
        lengths(alloc)?,
        below,
    )
}

// The integers that are left.
fn integers_left(
    alloc: Global,
    built_in: BuiltIn,
    below: &[Statement],
) -> Result<Many<Between>, Stop<Fault>>
    ensures ok { IfOk result (λ it.
        entries.restricted (Units 0) RangeWord (entries.integers built_in) below.now ≡ Some it) }
    ensures kept { OnOk result
        (entries.misread (Units 0) RangeWord (entries.integers built_in) below.now ≡ []) }
    ensures fault { IfErr result (OnBroken (λ fault.
        rules.first (entries.misread (Units 0) RangeWord (entries.integers built_in) below.now)
        ≡ Some fault)) }
{
    restricted(
        alloc,
        Counted::Units(0),
        Keyword::Range,
        integers(alloc, built_in)?,
        below,
    )
}

// The entry of a `decimal64`.
#[tactic(auto, using(crate::proofs::Firsts::first_some, crate::proofs::Firsts::first_none, crate::proofs::Firsts::nothing_more))]
fn decimal(alloc: Global, below: &[Statement]) -> Result<Option<ValueType>, Stop<Fault>>
    ensures ok { IfOk result (λ it. entries.decimal (entries.digits_of below.now) below.now ≡ it) }
    ensures kept { OnOk result (entries.ill_decimal below.now ≡ []) }
    ensures fault { IfErr result (OnBroken (λ fault.
        rules.first (entries.ill_decimal below.now) ≡ Some fault)) }
{
    let Some(digits) = digits_of(below)? else {
        return Ok(None);
    };
    let base = decimals(alloc)?;
    let among = restricted(alloc, Counted::Units(digits), Keyword::Range, base, below)?;
    Ok(Some(ValueType::Decimal { digits, among }))
}

// The names of an enumeration.
#[tactic(auto, using(crate::proofs::Firsts::nothing_first))]
fn enumeration<'a, C: Conditions<'a>>(
    alloc: Global,
    conditions: &C,
    below: &'a [Statement],
) -> Result<Many<Text>, Stop<Fault>>
    ensures ok { IfOk result (λ it. it ≡ members.enum_names (C.stands conditions.now) below.now) }
    ensures kept { OnOk result (members.ill_listed Enums below.now ≡ []) }
    ensures fault { IfErr result (OnBroken (λ fault.
        rules.first (members.ill_listed Enums below.now) ≡ Some fault)) }
{
    if let Some(fault) = ill_listed(alloc, Listed::Enums, below)? {
        return Err(Stop::Broken(fault));
    }
    Ok(enum_names(alloc, conditions, below)?)
}

// The names of bits.
#[tactic(auto, using(crate::proofs::Firsts::nothing_first))]
fn bits<'a, C: Conditions<'a>>(
    alloc: Global,
    conditions: &C,
    below: &'a [Statement],
) -> Result<Many<Text>, Stop<Fault>>
    ensures ok { IfOk result (λ it. it ≡ members.bit_names (C.stands conditions.now) below.now) }
    ensures kept { OnOk result (members.ill_listed Flags below.now ≡ []) }
    ensures fault { IfErr result (OnBroken (λ fault.
        rules.first (members.ill_listed Flags below.now) ≡ Some fault)) }
{
    if let Some(fault) = ill_listed(alloc, Listed::Flags, below)? {
        return Err(Stop::Broken(fault));
    }
    Ok(bit_names(alloc, conditions, below)?)
}

// The entry by the parts that a built-in type has.
fn entry<'a, C: Conditions<'a>>(
    alloc: Global,
    conditions: &C,
    built_in: BuiltIn,
    below: &'a [Statement],
) -> Result<Option<ValueType>, Stop<Fault>>
    ensures ok { IfOk result (λ it. entries.own (C.stands conditions.now) built_in below.now ≡ it) }
    ensures kept { OnOk result (entries.misused built_in below.now ≡ []) }
    ensures fault { IfErr result (OnBroken (λ fault.
        rules.first (entries.misused built_in below.now) ≡ Some fault)) }
{
    match built_in {
        BuiltIn::Boolean => Ok(Some(ValueType::Boolean)),
        BuiltIn::Empty => Ok(Some(ValueType::Empty)),
        BuiltIn::InstanceIdentifier => Ok(Some(ValueType::Instance {
            required: required(true, below),
        })),
        BuiltIn::IdentityRef | BuiltIn::LeafRef | BuiltIn::Union => Ok(None),
        BuiltIn::Binary => Ok(Some(ValueType::Binary {
            lengths: lengths_left(alloc, below)?,
        })),
        BuiltIn::Chars => Ok(Some(ValueType::Chars {
            lengths: lengths_left(alloc, below)?,
            starless: false,
            patterns: Many::new(alloc),
        })),
        BuiltIn::Decimal64 => decimal(alloc, below),
        BuiltIn::Enumeration => Ok(Some(ValueType::Enumeration {
            names: enumeration(alloc, conditions, below)?,
        })),
        BuiltIn::Bits => Ok(Some(ValueType::Bits {
            names: bits(alloc, conditions, below)?,
        })),
        _ => Ok(Some(ValueType::Whole {
            among: integers_left(alloc, built_in, below)?,
        })),
    }
}

/// The names with their numbers that an enumeration or bits list, whether their conditions hold or not; none
/// of another type (RFC 7950 9.6.4.2, 9.7.4.2).
pub fn listing_of(
    alloc: Global,
    built_in: BuiltIn,
    below: &[Statement],
) -> Result<Many<Named>, Memory>
    ensures { IfOk result (λ it. it ≡ entries.listing_of built_in below.now) }
{
    match built_in {
        BuiltIn::Enumeration => listing(alloc, Listed::Enums, below),
        BuiltIn::Bits => listing(alloc, Listed::Flags, below),
        _ => Ok(Many::new(alloc)),
    }
}

/// The entry of a `type` statement over a built-in type, by its own parts; `None` of `identityref`,
/// `leafref` and `union`, which need what other names mean (RFC 7950 9). The fault is the first of those
/// that it has: of what parts stand there, then a pattern that cannot be read, and then of what the others
/// say. Of an enumeration and of bits those names are left out whose conditions do not hold; a string has no
/// patterns yet, since these have no numbers.
#[tactic(auto, using(crate::proofs::Firsts::first_some, crate::proofs::Firsts::first_none, crate::proofs::Firsts::nothing_first, crate::proofs::Firsts::nothing_more))]
pub fn own<'a, C: Conditions<'a>>(
    alloc: Global,
    conditions: &C,
    built_in: BuiltIn,
    statement: &'a Statement,
) -> Result<Option<ValueType>, Stop<Fault>>
    ensures ok { IfOk result (λ it.
        entries.own (C.stands conditions.now) built_in (statements.below statement.now) ≡ it) }
    ensures kept { OnOk result (entries.own_faults built_in statement.now ≡ []) }
    ensures fault { IfErr result (OnBroken (λ fault.
        rules.first (entries.own_faults built_in statement.now) ≡ Some fault)) }
{
    if let Some(fault) = misshapen(built_in, statement) {
        return Err(Stop::Broken(fault));
    }
    let below = statement.below.as_slice();
    keep_patterns(alloc, below)?;
    entry(alloc, conditions, built_in, below)
}
