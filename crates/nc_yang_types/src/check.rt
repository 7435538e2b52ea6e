//! The first rule that a `type` statement of the texts breaks.
ghost use Rattle.std.specs.Prelude.{◌≡◌, ℕ, List, Bool, slice_get, IfOk, MatchOption};
ghost use Rattle.nc_yang_scopes.specs.inner.Naming.{HasNumber};
ghost use Rattle.nc_yang_types.specs.Defaults.{AreDefaults};
ghost use Rattle.nc_yang_types.specs.Faults.{BreaksTypes, KeepsTypes};
ghost use Rattle.nc_yang_types.specs.Plans.{AreMeanings};
ghost use Rattle.nc_yang_types.specs.inner.Nested.{member_graph};
ghost use Rattle.nc_yang_types.specs.inner.Judging.{Judges, JudgesGiven, JudgesOne, JudgesPlain};
ghost use Rattle.nc_yang_types.specs.inner.Judging.{JudgesText, fault_in};

use crate::conditional::conditional_default;
use crate::planned::{Finding, Meanings};
use crate::taken::taken_over;
use crate::union_member::referring_member;
use nc_names::{Many, Memory};
use nc_yang_scopes::{Scopes, TextFault};
use nc_yang_statements::{Fault, is_closed, kind};
use nc_yang_words::Statement;
use std::alloc::Global;

// The rule that the statement of a number breaks.
fn fault_of(meanings: &Meanings, number: usize) -> Option<Fault>
    ensures { result ≡ fault_in (slice_get meanings.now.findings number) }
{
    match meanings.findings.get(number) {
        Some(Finding::Broken(fault)) => Some(*fault),
        _ => None,
    }
}

// A rule that the statement of a number breaks, or a member of it.
fn plain_fault(
    scopes: &Scopes,
    meanings: &Meanings,
    number: usize,
    statement: &Statement,
) -> Option<Fault>
    requires { HasNumber scopes.now number statement.now }
    ensures { JudgesPlain scopes.now meanings.now number result }
{
    if let Some(fault) = fault_of(meanings, number) {
        return Some(fault);
    }
    referring_member(scopes, meanings, number, statement)
}

// A rule that a `default` in it breaks, or one that it takes over.
fn default_fault(
    alloc: Global,
    scopes: &Scopes,
    meanings: &Meanings,
    graph: &[Many<usize>],
    defaults: &[Option<usize>],
    number: usize,
    statement: &Statement,
) -> Result<Option<Fault>, Memory>
    requires statement { HasNumber scopes.now number statement.now }
    requires defaults { AreDefaults scopes.now defaults.now }
    requires graph { graph.now ≡ member_graph meanings.now }
    ensures { IfOk result (JudgesGiven scopes.now meanings.now number) }
{
    let beside = conditional_default(alloc, scopes, meanings, graph, number, statement)?;
    if beside.is_some() {
        return Ok(beside);
    }
    taken_over(alloc, scopes, meanings, graph, defaults, number, statement)
}

// One of these.
fn own_fault(
    alloc: Global,
    scopes: &Scopes,
    meanings: &Meanings,
    graph: &[Many<usize>],
    defaults: &[Option<usize>],
    number: usize,
    statement: &Statement,
) -> Result<Option<Fault>, Memory>
    requires statement { HasNumber scopes.now number statement.now }
    requires defaults { AreDefaults scopes.now defaults.now }
    requires graph { graph.now ≡ member_graph meanings.now }
    ensures { IfOk result (JudgesOne scopes.now meanings.now number) }
{
    let plain = plain_fault(scopes, meanings, number, statement);
    if plain.is_some() {
        return Ok(plain);
    }
    default_fault(alloc, scopes, meanings, graph, defaults, number, statement)
}

// A rule that the statement of a number breaks, or one that stands in it.
fn check(
    alloc: Global,
    scopes: &Scopes,
    meanings: &Meanings,
    graph: &[Many<usize>],
    defaults: &[Option<usize>],
    number: usize,
    statement: &Statement,
) -> Result<Option<Fault>, Memory>
    requires statement { HasNumber scopes.now number statement.now }
    requires defaults { AreDefaults scopes.now defaults.now }
    requires graph { graph.now ≡ member_graph meanings.now }
    ensures { IfOk result (Judges scopes.now meanings.now number) }
{
    if let Some(fault) = own_fault(alloc, scopes, meanings, graph, defaults, number, statement)? {
        return Ok(Some(fault));
    }
    if is_closed(kind(statement)) {
        return Ok(None);
    }
    let among = statement.below.as_slice();
    for (place, below) in among.iter().enumerate() {
        let child = scopes.child(number, place);
        if let Some(fault) = check(alloc, scopes, meanings, graph, defaults, child, below)? {
            return Ok(Some(fault));
        }
    }
    Ok(None)
}

// A rule that a `type` statement of a text breaks.
fn check_text(
    alloc: Global,
    scopes: &Scopes,
    meanings: &Meanings,
    graph: &[Many<usize>],
    defaults: &[Option<usize>],
    text: usize,
) -> Result<Option<Fault>, Memory>
    requires defaults { AreDefaults scopes.now defaults.now }
    requires graph { graph.now ≡ member_graph meanings.now }
    ensures { IfOk result (JudgesText scopes.now meanings.now text) }
{
    let Some(number) = scopes.root(text) else {
        return Ok(None);
    };
    let Some(statement) = scopes.statement(number) else {
        return Ok(None);
    };
    check(alloc, scopes, meanings, graph, defaults, number, statement)
}

/// The first rule that a `type` statement of the texts breaks, in their order, or `None` where they keep them
/// all. `defaults` are those that types bring, and `graph` leads from unions to their members. What a union
/// with others among its members leads to is found where a default asks it, and let go: each such default takes
/// time with the number of all statements, and all of them together memory with it.
pub(crate) fn first_ill_typed(
    alloc: Global,
    scopes: &Scopes,
    meanings: &Meanings,
    graph: &[Many<usize>],
    defaults: &[Option<usize>],
) -> Result<Option<TextFault>, Memory>
    requires defaults { AreDefaults scopes.now defaults.now }
    requires graph { graph.now ≡ member_graph meanings.now }
    ensures { IfOk result (λ it. (on : ℕ → List ℕ → Bool) → AreMeanings on scopes.now meanings.now →
        MatchOption it (KeepsTypes on scopes.now.texts)
        (λ found. BreaksTypes on scopes.now.texts found.text found.fault)) }
{
    for text in 0..scopes.texts() {
        if let Some(fault) = check_text(alloc, scopes, meanings, graph, defaults, text)? {
            return Ok(Some(TextFault { text, fault }));
        }
    }
    Ok(None)
}
