//! The places of identities among those of the texts.
ghost use Rattle.std.specs.Prelude.{◌≡◌, List, IfOk};
ghost use Rattle.nc_yang_statements.specs.Statements as statements;
ghost use Rattle.nc_yang_statements.specs.declared.keyword.Keyword.TheVariants.{Base as BaseWord};
ghost use Rattle.nc_yang_scopes.specs.Scopes.{Located};
ghost use Rattle.nc_yang_scopes.specs.Tables.{KeepsOneMore, number_at};
ghost use Rattle.nc_yang_scopes.specs.Numbers.{AreNumbers, OnNumber};
ghost use Rattle.nc_yang_scopes.specs.Parts as parts;
ghost use Rattle.nc_yang_nodes.specs.Identities as words;
ghost use Rattle.nc_yang_nodes.specs.inner.Places as places;

use crate::list::identities;
use nc_names::{Many, Memory};
use nc_yang_scopes::{Scopes, Table, parts_of};
use nc_yang_statements::{Keyword, name};
use std::alloc::Global;
use std::marker::Model;

/// The identities of texts, each known by the place of the first of its module and name.
#[derive(Drop)]
pub(crate) struct Places<'s, 'a> {
    scopes: &'s Scopes<'a>,
    list: Many<usize>,
    names: Table<'a>,
}

impl<'s, 'a> Model for Places<'s, 'a> {
    ghost use Rattle.nc_yang_scopes.specs.Scopes.{Scoping};
    ghost use Rattle.std.specs.Coded.{codes};
    ghost use Rattle.nc_yang_words.specs.contracts.statement.Statement as statements;
    ghost use Rattle.nc_yang_nodes.specs.inner.Places.{ArePlaces};

    ghost Value = { Scoping };

    ghost coded = { Prim.hlevel (codes, statements.the_row.coded) };

    ghost view = { λ p. p.scopes.now };

    ghost invariant = { λ p. ArePlaces p.scopes.now p.list p.names };
}

// The number that a table has for the module and the name of a statement.
fn find<'a>(scopes: &Scopes<'a>, names: &Table<'a>, number: usize) -> Option<usize>
    ensures { OnNumber scopes.now number (λ l.
        result ≡ number_at names.now l.place.text (statements.name l.statement)) }
{
    let Some(text) = scopes.text(number) else {
        return None;
    };
    let Some(statement) = scopes.statement(number) else {
        return None;
    };
    names.get(text, name(statement))
}

// With a place for the module and the name of a statement, unless there is one.
fn with_place<'a>(
    scopes: &Scopes<'a>,
    names: Table<'a>,
    number: usize,
    place: usize,
) -> Result<Table<'a>, Memory>
    ensures { IfOk result (λ it. OnNumber scopes.now number (λ l.
        KeepsOneMore names.entry l.place.text (statements.name l.statement) place it)) }
{
    let Some(text) = scopes.text(number) else {
        return Ok(names);
    };
    let Some(statement) = scopes.statement(number) else {
        return Ok(names);
    };
    names.with(text, name(statement), place)
}

// The places of statements by their modules and names.
fn names_of<'a>(alloc: Global, scopes: &Scopes<'a>, list: &[usize]) -> Result<Table<'a>, Memory>
    ensures { IfOk result (λ it. (ls : List Located) → AreNumbers scopes.now.located list.now ls
        → places.AreFirsts ls it) }
{
    let mut names = Table::new(alloc);
    for (place, number) in list.iter().enumerate() {
        names = with_place(scopes, names, *number, place)?;
    }
    Ok(names)
}

impl<'s, 'a> Places<'s, 'a> {
    /// The identities of texts.
    pub(crate) fn of(alloc: Global, scopes: &'s Scopes<'a>) -> Result<Places<'s, 'a>, Memory>
        ensures { IfOk result (λ it. it ≡ scopes.now) }
    {
        let list = identities(alloc, scopes)?;
        let names = names_of(alloc, scopes, list.as_slice())?;
        Ok(Places {
            scopes,
            list,
            names,
        })
    }

    /// The texts with their statements.
    pub(crate) fn scopes(&self) -> &'s Scopes<'a>
        ensures { result.now ≡ self.now }
    {
        self.scopes
    }

    /// The numbers of the identities, in their order.
    pub(crate) fn list(&self) -> &[usize]
        ensures { AreNumbers self.now.located result.now (words.identities self.now.texts) }
    {
        self.list.as_slice()
    }

    /// The place of the statement of a number.
    pub(crate) fn place(&self, number: usize) -> Option<usize>
        ensures { OnNumber self.now number (λ l. result ≡ places.place_of self.now.texts l) }
    {
        find(self.scopes, &self.names, number)
    }

    /// The place of the identity that the `base` statement of a number names.
    pub(crate) fn named(&self, number: usize) -> Option<usize>
        ensures { OnNumber self.now number (λ l. result ≡ places.place_named self.now.texts l) }
    {
        let Some(statement) = self.scopes.statement(number) else {
            return None;
        };
        let Some(found) = self
            .scopes
            .resolve(Keyword::Identity, number, name(statement))
        else {
            return None;
        };
        find(self.scopes, &self.names, found)
    }

    /// The numbers of the `base` statements in the statement of a number.
    pub(crate) fn bases(&self, alloc: Global, number: usize) -> Result<Many<usize>, Memory>
        ensures { IfOk result (λ it. OnNumber self.now number (λ l.
            AreNumbers self.now.located it (parts.parts_of BaseWord l))) }
    {
        parts_of(alloc, self.scopes, number, Keyword::Base)
    }
}
