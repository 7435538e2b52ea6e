//! Which parts a type has, may have and has to have (RFC 7950 7.4, 9).
ghost use Rattle.std.specs.Prelude.{◌≡◌};
ghost use Rattle.nc_yang_statements.specs.Rules as rules;
ghost use Rattle.nc_yang_statements.specs.Statements as statements;
ghost use Rattle.nc_yang_types.specs.Parts as parts;

use nc_schema::ValueType;
use nc_yang_statements::{
    BuiltIn, Fault, Keyword, ModuleWhy, has, is_closed, is_same_keyword, kind,
};
use nc_yang_words::Statement;

/// A fault of the statement.
pub(crate) fn fault(statement: &Statement, why: ModuleWhy) -> Fault
    ensures { result ≡ record { line = statements.line statement.now; why = why } }
{
    Fault {
        line: statement.line,
        why,
    }
}

/// Whether a built-in type may have a part of that keyword (RFC 7950 9.2 to 9.13).
pub fn takes(built_in: BuiltIn, keyword: Keyword) -> bool
    ensures { result ≡ parts.takes built_in keyword }
{
    match built_in {
        BuiltIn::Binary => is_same_keyword(Keyword::Length, keyword),
        BuiltIn::Chars => {
            is_same_keyword(Keyword::Length, keyword) || is_same_keyword(Keyword::Pattern, keyword)
        }
        BuiltIn::Bits => is_same_keyword(Keyword::Bit, keyword),
        BuiltIn::Boolean | BuiltIn::Empty => false,
        BuiltIn::Decimal64 => {
            is_same_keyword(Keyword::FractionDigits, keyword)
                || is_same_keyword(Keyword::Range, keyword)
        }
        BuiltIn::Enumeration => is_same_keyword(Keyword::EnumName, keyword),
        BuiltIn::IdentityRef => is_same_keyword(Keyword::Base, keyword),
        BuiltIn::InstanceIdentifier => is_same_keyword(Keyword::RequireInstance, keyword),
        BuiltIn::LeafRef => {
            is_same_keyword(Keyword::Path, keyword)
                || is_same_keyword(Keyword::RequireInstance, keyword)
        }
        BuiltIn::Union => is_same_keyword(Keyword::TypeName, keyword),
        _ => is_same_keyword(Keyword::Range, keyword),
    }
}

/// The part without which a built-in type says nothing (RFC 7950 9.3.4, 9.6.4, 9.7.4, 9.9.2, 9.10.2, 9.12).
pub fn needs(built_in: BuiltIn) -> Option<Keyword>
    ensures { result ≡ parts.needs built_in }
{
    match built_in {
        BuiltIn::Bits => Some(Keyword::Bit),
        BuiltIn::Decimal64 => Some(Keyword::FractionDigits),
        BuiltIn::Enumeration => Some(Keyword::EnumName),
        BuiltIn::IdentityRef => Some(Keyword::Base),
        BuiltIn::LeafRef => Some(Keyword::Path),
        BuiltIn::Union => Some(Keyword::TypeName),
        _ => None,
    }
}

/// Whether a type over this one may be narrower by a part of that keyword.
pub fn narrows(base: &ValueType, keyword: Keyword) -> bool
    ensures { result ≡ parts.narrows base.now keyword }
{
    match base {
        ValueType::Whole { .. } | ValueType::Decimal { .. } => {
            is_same_keyword(Keyword::Range, keyword)
        }
        ValueType::Chars { .. } => {
            is_same_keyword(Keyword::Length, keyword) || is_same_keyword(Keyword::Pattern, keyword)
        }
        ValueType::Binary { .. } => is_same_keyword(Keyword::Length, keyword),
        ValueType::Leafref { .. } | ValueType::Instance { .. } => {
            is_same_keyword(Keyword::RequireInstance, keyword)
        }
        ValueType::Enumeration { .. } => is_same_keyword(Keyword::EnumName, keyword),
        ValueType::Bits { .. } => is_same_keyword(Keyword::Bit, keyword),
        _ => false,
    }
}

// Why a part may not stand in a built-in type.
fn why_foreign(built_in: BuiltIn, keyword: Keyword) -> Option<ModuleWhy>
    ensures { result ≡ parts.why_foreign built_in keyword }
{
    if is_closed(keyword) || takes(built_in, keyword) {
        None
    } else {
        Some(ModuleWhy::UnknownStatement)
    }
}

// The first part that may not stand in a built-in type.
fn foreign(built_in: BuiltIn, below: &[Statement]) -> Option<Fault>
    ensures { result ≡ rules.first (parts.foreign built_in below.now) }
{
    for part in below {
        if let Some(why) = why_foreign(built_in, kind(part)) {
            return Some(fault(part, why));
        }
    }
    None
}

// That the part is not there which a built-in type needs.
fn lacking(built_in: BuiltIn, statement: &Statement) -> Option<Fault>
    ensures { result ≡ rules.first (parts.lacking built_in statement.now) }
{
    let keyword = needs(built_in)?;
    if has(statement.below.as_slice(), keyword) {
        None
    } else {
        Some(fault(statement, ModuleWhy::Missing))
    }
}

/// The first fault of a `type` statement over a built-in type in what parts it has: one that the type has
/// not, or the want of one that it needs (RFC 7950 9).
#[tactic(auto, using(crate::proofs::Firsts::first_some, crate::proofs::Firsts::first_none))]
pub fn misshapen(built_in: BuiltIn, statement: &Statement) -> Option<Fault>
    ensures { result ≡ rules.first (parts.misshapen built_in statement.now) }
{
    if let Some(fault) = foreign(built_in, statement.below.as_slice()) {
        return Some(fault);
    }
    lacking(built_in, statement)
}

// Why a part may not stand in a type over another.
fn why_foreign_over(base: &ValueType, keyword: Keyword) -> Option<ModuleWhy>
    ensures { result ≡ parts.why_foreign_over base.now keyword }
{
    if is_closed(keyword) || narrows(base, keyword) {
        None
    } else {
        Some(ModuleWhy::UnknownStatement)
    }
}

/// The first part that may not stand in a type over another.
pub(crate) fn foreign_over(base: &ValueType, below: &[Statement]) -> Option<Fault>
    ensures { result ≡ rules.first (parts.foreign_over base.now below.now) }
{
    for part in below {
        if let Some(why) = why_foreign_over(base, kind(part)) {
            return Some(fault(part, why));
        }
    }
    None
}
