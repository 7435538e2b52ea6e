//! What the parts of a type leave of its base (RFC 7950 9.2.4, 9.3.4, 9.4.4, 9.9.3).
ghost use Rattle.std.specs.Prelude.{◌≡◌, [], Some, IfOk, IfErr, OnOk, unwrap_or};
ghost use Rattle.nc_yang_statements.specs.Arguments as arguments;
ghost use Rattle.nc_yang_statements.specs.Rules as rules;
ghost use Rattle.nc_yang_types.specs.Entries as entries;
ghost use Rattle.nc_yang_statements.specs.Stops.{OnBroken};

use crate::bound::Counted;
use crate::part::fault;
use crate::range::restriction;
use nc_names::Many;
use nc_schema::{Between, read_number};
use nc_yang_statements::{Fault, Keyword, ModuleWhy, Stop, name, part};
use nc_yang_words::Statement;
use std::alloc::Global;

/// The numbers that a `range` or a `length` leaves of those of the base; `None` where there is no such
/// part, and those of the base are left.
pub(crate) fn narrower(
    alloc: Global,
    counted: Counted,
    keyword: Keyword,
    base: &[Between],
    below: &[Statement],
) -> Result<Option<Many<Between>>, Stop<Fault>>
    ensures ok { IfOk result (λ it. entries.restricted counted keyword base.now below.now
        ≡ Some (unwrap_or it base.now)) }
    ensures kept { OnOk result (entries.misread counted keyword base.now below.now ≡ []) }
    ensures fault { IfErr result (OnBroken (λ fault.
        rules.first (entries.misread counted keyword base.now below.now) ≡ Some fault)) }
{
    let Some(given) = part(below, keyword) else {
        return Ok(None);
    };
    match restriction(alloc, counted, base, name(given))? {
        Some(parts) => Ok(Some(parts)),
        None => Err(Stop::Broken(fault(given, ModuleWhy::BadArgument))),
    }
}

/// The numbers that are left.
pub(crate) fn restricted(
    alloc: Global,
    counted: Counted,
    keyword: Keyword,
    base: Many<Between>,
    below: &[Statement],
) -> Result<Many<Between>, Stop<Fault>>
    ensures ok { IfOk result (λ it. entries.restricted counted keyword base below.now ≡ Some it) }
    ensures kept { OnOk result (entries.misread counted keyword base below.now ≡ []) }
    ensures fault { IfErr result (OnBroken (λ fault.
        rules.first (entries.misread counted keyword base below.now) ≡ Some fault)) }
{
    match narrower(alloc, counted, keyword, base.as_slice(), below)? {
        Some(parts) => Ok(parts),
        None => Ok(base),
    }
}

// A number of fraction digits.
fn digits_in(number: Option<i128>) -> Option<u32>
    ensures { result ≡ entries.digits_in number }
{
    let number = number?;
    if 1 <= number && number <= 18 {
        Some(number as u32)
    } else {
        None
    }
}

/// How many fraction digits there are; `None` where there is no such part.
pub(crate) fn digits_of(below: &[Statement]) -> Result<Option<u32>, Stop<Fault>>
    ensures ok { IfOk result (λ it. entries.digits_of below.now ≡ it) }
    ensures kept { OnOk result (entries.ill_digits below.now ≡ []) }
    ensures fault { IfErr result (OnBroken (λ fault.
        rules.first (entries.ill_digits below.now) ≡ Some fault)) }
{
    let Some(given) = part(below, Keyword::FractionDigits) else {
        return Ok(None);
    };
    match digits_in(read_number(name(given))) {
        Some(digits) => Ok(Some(digits)),
        None => Err(Stop::Broken(fault(given, ModuleWhy::BadArgument))),
    }
}

// Whether it is `true`.
#[tactic(auto, unfolding(nc_yang_statements::specs::Arguments::is_true_text))]
fn is_true_text(text: &str) -> bool
    ensures { result ≡ arguments.is_true_text text.now }
{
    text == "true"
}

/// Whether what is named has to be there: `require-instance`, or what holds without it (RFC 7950 9.9.3,
/// 9.13.1).
pub fn required(before: bool, below: &[Statement]) -> bool
    ensures { result ≡ entries.required before below.now }
{
    match part(below, Keyword::RequireInstance) {
        Some(given) => is_true_text(name(given)),
        None => before,
    }
}
