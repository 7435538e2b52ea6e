//! The numbers of statements directly in another.
ghost use Rattle.std.specs.Prelude.{◌≡◌, IfOk, position};
ghost use Rattle.nc_yang_statements.specs.Keywords as keywords;
ghost use Rattle.nc_yang_statements.specs.Statements as statements;
ghost use Rattle.nc_yang_scopes.specs.Parts as words;
ghost use Rattle.nc_yang_scopes.specs.Numbers.{AreNumbers, IsNumber, OnNumber};

use crate::Scopes;
use nc_names::{Many, Memory};
use nc_yang_statements::{Keyword, is_same_keyword, kind};
use nc_yang_words::Statement;
use std::alloc::Global;

// The place of the first statement of a keyword.
fn place_of(among: &[Statement], keyword: Keyword) -> Option<usize>
    ensures { result ≡ position (λ s. keywords.is_same_keyword keyword (statements.kind s)) among.now }
{
    among
        .iter()
        .position(|statement| is_same_keyword(keyword, kind(statement)))
}

/// The number of the first statement of a keyword directly in the one of a number.
pub fn part_of(scopes: &Scopes, number: usize, keyword: Keyword) -> Option<usize>
    ensures { OnNumber scopes.now number (λ l.
        IsNumber scopes.now.located result (words.part_of keyword l)) }
{
    let Some(statement) = scopes.statement(number) else {
        return None;
    };
    let among = statement.below.as_slice();
    match place_of(among, keyword) {
        Some(place) => Some(scopes.child(number, place)),
        None => None,
    }
}

/// The numbers of the statements of a keyword directly in the one of a number.
pub fn parts_of(
    alloc: Global,
    scopes: &Scopes,
    number: usize,
    keyword: Keyword,
) -> Result<Many<usize>, Memory>
    ensures { IfOk result (λ it. OnNumber scopes.now number (λ l.
        AreNumbers scopes.now.located it (words.parts_of keyword l))) }
{
    let mut found = Many::new(alloc);
    let Some(statement) = scopes.statement(number) else {
        return Ok(found);
    };
    let among = statement.below.as_slice();
    for (place, below) in among.iter().enumerate() {
        if is_same_keyword(keyword, kind(below)) {
            found.push(scopes.child(number, place))?;
        }
    }
    Ok(found)
}
