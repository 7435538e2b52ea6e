//! The keys and the `unique` leafs of a list, and the rules on them.
ghost use Rattle.std.specs.Prelude.{◌≡◌, ◌++◌, [], true, Some, None, MatchResult};
ghost use Rattle.nc_yang_statements.specs.Rules as rules;
ghost use Rattle.nc_yang_statements.specs.Statements as statements;
ghost use Rattle.nc_yang_data.specs.inner.Cases.{case_test};
ghost use Rattle.nc_yang_data.specs.Lists as lists;
ghost use Rattle.nc_yang_data.specs.Leafs as leafs;
ghost use Rattle.nc_yang_data.specs.declared.naming.Naming.TheVariants.{Keys};
ghost use Rattle.nc_yang_statements.specs.Stops.{OnBroken};

use crate::again::has_again;
use crate::cases::Cases;
use crate::leaf::leafs_by;
use crate::naming::Naming;
use nc_names::Many;
use nc_schema::Schema;
use nc_yang_scopes::Scopes;
use nc_yang_statements::{Fault, Keyword, ModuleWhy, Stop, is_same_keyword, kind, name, part};
use nc_yang_words::Statement;
use std::alloc::Global;

/// That a statement breaks a rule.
pub(crate) fn broken(statement: &Statement, why: ModuleWhy) -> Stop<Fault>
    ensures { OnBroken (λ fault. Some fault ≡ rules.first (rules.at_if true statement.now why)) result }
{
    Stop::Broken(Fault {
        line: statement.line,
        why,
    })
}

// Whether there are no numbers.
fn has_none(numbers: &[u32]) -> bool
    ensures { result ≡ lists.has_none numbers.now }
{
    numbers.len() == 0
}

// The keys that a `key` statement names.
fn keys_by<'a>(
    alloc: Global,
    scopes: &Scopes<'a>,
    schema: &Schema,
    cases: &Cases,
    text: usize,
    number: u32,
    statement: &'a Statement,
) -> Result<Many<u32>, Stop<Fault>>
    ensures { MatchResult result
        (λ it. (leafs.leafs_by Keys scopes.now.texts schema.now (case_test cases.now) text number
        (statements.name statement.now) ≡ Some it)
        × (rules.first (lists.key_faults statement.now (Some it)) ≡ None))
        (OnBroken (λ fault. Some fault ≡ rules.first (lists.key_faults statement.now
        (leafs.leafs_by Keys scopes.now.texts schema.now (case_test cases.now) text number
        (statements.name statement.now))))) }
{
    let words = name(statement);
    let Some(found) = leafs_by(
        alloc,
        Naming::Keys,
        scopes,
        schema,
        cases,
        text,
        number,
        words,
    )?
    else {
        return Err(broken(statement, ModuleWhy::UnknownName));
    };
    if has_none(found.as_slice()) {
        return Err(broken(statement, ModuleWhy::BadArgument));
    }
    if has_again(alloc, found.as_slice())? {
        return Err(broken(statement, ModuleWhy::Twice));
    }
    Ok(found)
}

/// The keys of a list, or the first rule on them that it breaks.
pub(crate) fn keys_of<'a>(
    alloc: Global,
    scopes: &Scopes<'a>,
    schema: &Schema,
    cases: &Cases,
    text: usize,
    number: u32,
    list: &'a Statement,
) -> Result<Many<u32>, Stop<Fault>>
    ensures { MatchResult result
        (λ it. (lists.keys_of scopes.now.texts schema.now (case_test cases.now) text number list.now
        ≡ Some it)
        × (rules.first
        (lists.keyless scopes.now.texts schema.now (case_test cases.now) text number list.now) ≡ None))
        (OnBroken (λ fault. Some fault ≡ rules.first
        (lists.keyless scopes.now.texts schema.now (case_test cases.now) text number list.now))) }
{
    match part(list.below.as_slice(), Keyword::Key) {
        Some(statement) => keys_by(alloc, scopes, schema, cases, text, number, statement),
        None => Err(broken(list, ModuleWhy::Missing)),
    }
}

// The leafs of a statement put after others, if it is a `unique` statement; or the rule that it breaks.
#[tactic(auto, using(nc_yang_statements::proofs::Firsts::first_some, nc_yang_statements::proofs::Firsts::first_none))]
fn with_unique<'a>(
    alloc: Global,
    scopes: &Scopes<'a>,
    schema: &Schema,
    cases: &Cases,
    text: usize,
    number: u32,
    found: Many<Many<u32>>,
    statement: &'a Statement,
) -> Result<Many<Many<u32>>, Stop<Fault>>
    ensures { MatchResult result
        (λ it. (it ≡ found ++ lists.unique_leafs scopes.now.texts schema.now (case_test cases.now) text
        number statement.now)
        × (lists.unique_fault scopes.now.texts schema.now (case_test cases.now) text number statement.now
        ≡ []))
        (OnBroken (λ fault. Some fault ≡ rules.first
        (lists.unique_fault scopes.now.texts schema.now (case_test cases.now) text number statement.now))) }
{
    if !is_same_keyword(Keyword::Unique, kind(statement)) {
        return Ok(found);
    }
    let words = name(statement);
    let Some(leafs) = leafs_by(
        alloc,
        Naming::Uniques,
        scopes,
        schema,
        cases,
        text,
        number,
        words,
    )?
    else {
        return Err(broken(statement, ModuleWhy::UnknownName));
    };
    if has_none(leafs.as_slice()) {
        return Err(broken(statement, ModuleWhy::BadArgument));
    }
    let mut found = found;
    found.push(leafs)?;
    Ok(found)
}

/// The leafs of each `unique` statement of a list, or the first rule on them that it breaks.
pub(crate) fn uniques_of<'a>(
    alloc: Global,
    scopes: &Scopes<'a>,
    schema: &Schema,
    cases: &Cases,
    text: usize,
    number: u32,
    list: &'a Statement,
) -> Result<Many<Many<u32>>, Stop<Fault>>
    ensures { MatchResult result
        (λ it. (it ≡ lists.uniques_of scopes.now.texts schema.now (case_test cases.now) text number list.now)
        × (rules.first
        (lists.not_unique scopes.now.texts schema.now (case_test cases.now) text number list.now) ≡ None))
        (OnBroken (λ fault. Some fault ≡ rules.first
        (lists.not_unique scopes.now.texts schema.now (case_test cases.now) text number list.now))) }
{
    let mut found = Many::new(alloc);
    for statement in list.below.as_slice() {
        found = with_unique(alloc, scopes, schema, cases, text, number, found, statement)?;
    }
    Ok(found)
}
