//! Members of unions that refer to other data (RFC 7950 9.9, 9.12, 9.13).
ghost use Rattle.std.specs.Prelude.{◌≡◌};
ghost use Rattle.nc_yang_scopes.specs.inner.Naming.{HasNumber};
ghost use Rattle.nc_yang_statements.specs.Statements.{line};
ghost use Rattle.nc_yang_statements.specs.declared.fault.ModuleWhy.TheVariants.{Unsupported as Refused};
ghost use Rattle.nc_yang_types.specs.Faults as faults;
ghost use Rattle.nc_yang_types.specs.inner.Judging as words;
ghost use Rattle.nc_yang_types.specs.inner.Planning.{shape_of};

use crate::planned::{Finding, Meanings, Planned};
use nc_schema::ValueType;
use nc_yang_scopes::Scopes;
use nc_yang_statements::{
    BuiltIn, Fault, Keyword, ModuleWhy, built_in_of, is_same_keyword, kind, name,
};
use nc_yang_words::Statement;

// Whether values of the type refer to other data.
fn is_reference(entry: &ValueType) -> bool
    ensures { result ≡ faults.is_reference entry.now }
{
    match entry {
        ValueType::Leafref { .. } | ValueType::Instance { .. } => true,
        _ => false,
    }
}

// Whether those of a plan do.
fn plan_refers(planned: &Planned) -> bool
    ensures { result ≡ faults.is_reference (shape_of planned.now) }
{
    match planned {
        Planned::Finished { entry, .. } => is_reference(entry),
        Planned::Leafref { .. } => true,
        Planned::Members(_) | Planned::Bases(_) => false,
    }
}

// Whether those of what was found of the statement of a number do.
fn refers_at(meanings: &Meanings, number: usize) -> bool
    ensures { result ≡ words.refers_at meanings.now number }
{
    let Some(Finding::Plan(place)) = meanings.findings.get(number) else {
        return false;
    };
    match meanings.plans.get(*place) {
        Some(planned) => plan_refers(planned),
        None => false,
    }
}

// Whether the statement of a number is a `type` statement of such values.
fn is_referring(meanings: &Meanings, number: usize, statement: &Statement) -> bool
    ensures { result ≡ words.is_referring meanings.now number statement.now }
{
    is_same_keyword(Keyword::TypeName, kind(statement)) && refers_at(meanings, number)
}

// Whether the built-in type is a union.
fn is_union_type(one: Option<BuiltIn>) -> bool
    ensures { result ≡ words.is_union_type one }
{
    match one {
        Some(BuiltIn::Union) => true,
        _ => false,
    }
}

// Whether the statement is the `type` statement of a union.
fn is_union(statement: &Statement) -> bool
    ensures { result ≡ words.is_union statement.now }
{
    is_same_keyword(Keyword::TypeName, kind(statement))
        && is_union_type(built_in_of(name(statement)))
}

// The fault of a member.
fn fault(member: &Statement) -> Fault
    ensures { result ≡ record { line = line member.now; why = Refused } }
{
    Fault {
        line: member.line,
        why: ModuleWhy::Unsupported,
    }
}

/// The first member of the union of a number that refers to other data.
pub(crate) fn referring_member(
    scopes: &Scopes,
    meanings: &Meanings,
    number: usize,
    statement: &Statement,
) -> Option<Fault>
    requires { HasNumber scopes.now number statement.now }
    ensures { words.JudgesMembers scopes.now meanings.now number result }
{
    if !is_union(statement) {
        return None;
    }
    let among = statement.below.as_slice();
    for (place, below) in among.iter().enumerate() {
        let child = scopes.child(number, place);
        if is_referring(meanings, child, below) {
            return Some(fault(below));
        }
    }
    None
}
