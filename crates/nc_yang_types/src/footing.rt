//! On what `type` statements rest.
ghost use Rattle.std.specs.Prelude.{length, IfOk};
ghost use Rattle.nc_yang_types.specs.inner.Footings.{AreFootings, IsFooting};
ghost use Rattle.nc_yang_types.specs.Numbers.{IsNumber, OnNumber};
ghost use Rattle.nc_yang_types.specs.Places as places;

use nc_names::{Many, Memory};
use nc_yang_scopes::{Scopes, part_of};
use nc_yang_statements::{BuiltIn, Keyword, built_in_of, is_same_keyword, kind, name};
use std::alloc::Global;

/// On what a statement rests as a type.
#[derive(Clone, Copy)]
pub(crate) enum Footing {
    /// On a built-in type.
    OnBuiltIn(BuiltIn),
    /// On the `type` statement of that number, which stands in a typedef.
    OnType(usize),
    /// On nothing: it is no `type` statement, or what it names is not there.
    OnNothing,
}

/// The number of the first statement of a keyword in the typedef to which the name of a statement leads.
pub(crate) fn of_typedef(scopes: &Scopes, number: usize, keyword: Keyword) -> Option<usize>
    ensures { OnNumber scopes.now number (λ l.
        IsNumber scopes.now.located result (places.of_typedef keyword scopes.now.texts l)) }
{
    let statement = scopes.statement(number)?;
    let typedef = scopes.resolve(Keyword::Typedef, number, name(statement))?;
    part_of(scopes, typedef, keyword)
}

// On what the statement of a number rests.
fn rests_on(scopes: &Scopes, number: usize) -> Footing
    ensures { OnNumber scopes.now number (λ l. IsFooting scopes.now l result) }
{
    let Some(statement) = scopes.statement(number) else {
        return Footing::OnNothing;
    };
    if !is_same_keyword(Keyword::TypeName, kind(statement)) {
        return Footing::OnNothing;
    }
    if let Some(one) = built_in_of(name(statement)) {
        return Footing::OnBuiltIn(one);
    }
    match of_typedef(scopes, number, Keyword::TypeName) {
        Some(base) => Footing::OnType(base),
        None => Footing::OnNothing,
    }
}

/// On what each statement rests.
pub(crate) fn footings(alloc: Global, scopes: &Scopes) -> Result<Many<Footing>, Memory>
    ensures { IfOk result (AreFootings scopes.now (length scopes.now.located)) }
{
    let mut footings = Many::new(alloc);
    for number in 0..scopes.len() {
        footings.push(rests_on(scopes, number))?;
    }
    Ok(footings)
}
