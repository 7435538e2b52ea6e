//! The typedefs that are judged by their defaults (RFC 7950 7.3.4).
ghost use Rattle.std.specs.Prelude.{◌≡◌, ◌<◌, ◌++◌, ◌∷◌, [], ℕ, Bool, List, if◌then◌else◌, length, IfOk, OnOk};
ghost use Rattle.nc_yang_types.specs.Faults.{is_reference};
ghost use Rattle.nc_yang_types.specs.Plans.{AreMeanings};
ghost use Rattle.nc_yang_scopes.specs.Numbers.{AreNumbers};
ghost use Rattle.nc_yang_scopes.specs.inner.Naming.{HasNumber};
ghost use Rattle.nc_yang.specs.Typedefs as words;
ghost use Rattle.nc_yang.specs.inner.Judged as judging;

use nc_names::{Many, Memory};
use nc_schema::ValueType;
use nc_yang_scopes::{Scopes, part_of};
use nc_yang_statements::{Keyword, has, is_closed, is_same_keyword, kind};
use nc_yang_types::{Finding, Meanings, Planned};
use nc_yang_words::Statement;
use std::alloc::Global;

/// How many levels deep statements stand in that of a module at most.
const MOST_LEVELS: usize = 64;

// Adds a number where it is to be kept.
fn keep_if(kept: &mut Many<usize>, number: usize, keeps: bool) -> Result<(), Memory>
    ensures { OnOk result (kept.new ≡ kept.old ++ (if keeps then number ∷ [] else [])) }
{
    if keeps {
        kept.push(number)?;
    }
    Ok(())
}

// Whether nothing so many levels deeper in a statement is asked.
#[tactic(auto, using(crate::proofs::TypedefNumbers::asks_more))]
fn is_end(levels: usize, statement: &Statement) -> bool
    ensures { result ≡ judging.is_end levels statement.now }
{
    if levels == 0 {
        return true;
    }
    is_closed(kind(statement))
}

// Adds the number of a statement where it is a typedef, and those of the typedefs in it, so many levels deep.
#[tactic(auto, using(nc_yang_scopes::proofs::Misnaming::child_number))]
fn push<'a>(
    scopes: &Scopes<'a>,
    levels: usize,
    number: usize,
    statement: &'a Statement,
    numbers: &mut Many<usize>,
) -> Result<(), Memory>
    requires { HasNumber scopes.now number statement.now }
    ensures { OnOk result (judging.AddsTypedefs scopes.now levels number numbers.old numbers.new) }
{
    keep_if(
        numbers,
        number,
        is_same_keyword(Keyword::Typedef, kind(statement)),
    )?;
    if is_end(levels, statement) {
        return Ok(());
    }
    let among = statement.below.as_slice();
    for (place, below) in among.iter().enumerate() {
        let child = scopes.child(number, place);
        push(scopes, levels - 1, child, below, numbers)?;
    }
    Ok(())
}

// The typedefs that the statement of a number is or has in it.
fn typedefs_at(alloc: Global, scopes: &Scopes, number: usize) -> Result<Many<usize>, Memory>
    ensures { IfOk result (judging.AddsTypedefs scopes.now 64 number []) }
{
    let mut numbers = Many::new(alloc);
    if let Some(statement) = scopes.statement(number) {
        push(scopes, MOST_LEVELS, number, statement, &mut numbers)?;
    }
    Ok(numbers)
}

// The typedefs in the module of a text.
fn typedefs_in(alloc: Global, scopes: &Scopes, text: usize) -> Result<Many<usize>, Memory>
    requires { text < length scopes.now.texts }
    ensures { IfOk result (λ it. AreNumbers scopes.now.located it (words.typedefs_in scopes.now.texts text)) }
{
    match scopes.root(text) {
        Some(root) => typedefs_at(alloc, scopes, root),
        None => Ok(Many::new(alloc)),
    }
}

// Those of all modules, in the order of the texts.
fn typedefs(alloc: Global, scopes: &Scopes) -> Result<Many<usize>, Memory>
    ensures { IfOk result (λ it. AreNumbers scopes.now.located it (words.typedefs scopes.now.texts)) }
{
    let mut list = Many::new(alloc);
    for text in 0..scopes.texts() {
        let more = typedefs_in(alloc, scopes, text)?;
        list.append(more)?;
    }
    Ok(list)
}

// Whether values of the type refer to other data.
fn is_reference_type(entry: &ValueType) -> bool
    ensures { result ≡ is_reference entry.now }
{
    match entry {
        ValueType::Leafref { .. } | ValueType::Instance { .. } => true,
        _ => false,
    }
}

// Whether those of the type of a plan do not.
fn is_plain(planned: &Planned) -> bool
    ensures { result ≡ judging.is_plain_plan planned.now }
{
    match planned {
        Planned::Finished { entry, .. } => !is_reference_type(entry),
        Planned::Members(_) | Planned::Bases(_) => true,
        Planned::Leafref { .. } => false,
    }
}

// Whether the type of a number is such.
fn means_plain(meanings: &Meanings, number: usize) -> bool
    ensures { result ≡ judging.means_plain meanings.now number }
{
    let Some(Finding::Plan(place)) = meanings.findings.get(number) else {
        return false;
    };
    match meanings.plans.get(*place) {
        Some(planned) => is_plain(planned),
        None => false,
    }
}

// Whether the statement of a number has such a type.
fn has_plain_type(scopes: &Scopes, meanings: &Meanings, number: usize) -> bool
    ensures { judging.TellsPlain scopes.now meanings.now number result }
{
    match part_of(scopes, number, Keyword::TypeName) {
        Some(of_type) => means_plain(meanings, of_type),
        None => false,
    }
}

// Whether it has a `default`.
fn has_default(scopes: &Scopes, number: usize) -> bool
    ensures { result ≡ judging.has_default scopes.now number }
{
    match scopes.statement(number) {
        Some(statement) => has(statement.below.as_slice(), Keyword::Default),
        None => false,
    }
}

// Whether a typedef is judged by its default.
fn is_judged(scopes: &Scopes, meanings: &Meanings, number: usize) -> bool
    ensures { judging.TellsJudged scopes.now meanings.now number result }
{
    if !has_default(scopes, number) {
        return false;
    }
    has_plain_type(scopes, meanings, number)
}

/// The numbers of the typedefs in modules that have a default and a type whose values do not refer to other
/// data.
pub(crate) fn judged(
    alloc: Global,
    scopes: &Scopes,
    meanings: &Meanings,
) -> Result<Many<usize>, Memory>
    ensures { IfOk result (λ it. (on : ℕ → List ℕ → Bool) → AreMeanings on scopes.now meanings.now →
        words.AreJudged on scopes.now it) }
{
    let all = typedefs(alloc, scopes)?;
    let list = all.as_slice();
    let mut kept = Many::new(alloc);
    for number in list {
        keep_if(&mut kept, *number, is_judged(scopes, meanings, *number))?;
    }
    Ok(kept)
}
