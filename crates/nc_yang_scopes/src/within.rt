//! The statements that stand in one.
ghost use Rattle.std.specs.Prelude.{◌≡◌, IfOk, OnOk};
ghost use Rattle.nc_yang_scopes.specs.inner.Naming.{HasNumber};
ghost use Rattle.nc_yang_scopes.specs.inner.Links as words;

use crate::Scopes;
use nc_names::{Many, Memory};
use nc_yang_statements::{Keyword, is_closed, is_same_keyword, kind};
use nc_yang_words::Statement;
use std::alloc::Global;

/// Whether the statement of a number has that keyword.
pub(crate) fn is_of(scopes: &Scopes, keyword: Keyword, number: usize) -> bool
    ensures { result ≡ words.is_of scopes.now keyword number }
{
    match scopes.statement(number) {
        Some(statement) => is_same_keyword(keyword, kind(statement)),
        None => false,
    }
}

// Adds the number of a statement, and those of the statements that stand in it.
#[tactic(auto, using(crate::proofs::Misnaming::child_number))]
fn push<'a>(
    scopes: &Scopes<'a>,
    number: usize,
    statement: &'a Statement,
    numbers: &mut Many<usize>,
) -> Result<(), Memory>
    requires { HasNumber scopes.now number statement.now }
    ensures { OnOk result (words.AddsAt scopes.now number numbers.old numbers.new) }
{
    numbers.push(number)?;
    if is_closed(kind(statement)) {
        return Ok(());
    }
    let among = statement.below.as_slice();
    for (place, below) in among.iter().enumerate() {
        let child = scopes.child(number, place);
        push(scopes, child, below, numbers)?;
    }
    Ok(())
}

/// The numbers of the statement of a number and of all that stand in it and in none that is passed over.
pub(crate) fn within(alloc: Global, scopes: &Scopes, number: usize) -> Result<Many<usize>, Memory>
    ensures { IfOk result (words.AreIn scopes.now number) }
{
    let mut numbers = Many::new(alloc);
    if let Some(statement) = scopes.statement(number) {
        push(scopes, number, statement, &mut numbers)?;
    }
    Ok(numbers)
}
