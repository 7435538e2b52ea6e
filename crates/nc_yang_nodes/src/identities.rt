//! Which identities are derived from which.
ghost use Rattle.std.specs.Prelude.{◌≡◌, List, [], IfOk};
ghost use Rattle.nc_yang_scopes.specs.Scopes.{Located};
ghost use Rattle.nc_yang_nodes.specs.FeaturesOn.{is_on};
ghost use Rattle.nc_yang_nodes.specs.Roles as roles;
ghost use Rattle.nc_yang_scopes.specs.Numbers.{AreNumbers, OnNumber};
ghost use Rattle.nc_yang_nodes.specs.Identities as words;
ghost use Rattle.nc_yang_nodes.specs.Values.{AreDerivedNumbers, IsUnder};
ghost use Rattle.nc_yang_nodes.specs.inner.Marks.{AreMarks, Narrows, Tells};

use crate::edges::edges;
use crate::keep::{is_marked, keep_if};
use crate::places::Places;
use crate::{Features, is_supported_at};
use nc_names::{Many, Memory};
use nc_yang_order::{Reach, row};
use nc_yang_scopes::Scopes;
use std::alloc::Global;
use std::marker::Model;

/// The identities of module texts, and which of them are derived from which (RFC 7950 7.18).
#[derive(Drop)]
pub struct Identities<'s, 'a> {
    places: Places<'s, 'a>,
    graph: Many<Many<usize>>,
}

impl<'s, 'a> Model for Identities<'s, 'a> {
    ghost use Rattle.nc_yang_scopes.specs.Scopes.{Scoping};
    ghost use Rattle.std.specs.Coded.{codes};
    ghost use Rattle.nc_yang_words.specs.contracts.statement.Statement as statements;
    ghost use Rattle.nc_yang_nodes.specs.inner.Edges.{IsGraph};

    ghost Value = { Scoping };

    ghost coded = { Prim.hlevel (codes, statements.the_row.coded) };

    ghost view = { λ i. i.places };

    ghost invariant = { λ i. IsGraph i.places.texts i.graph };
}

// The marks at what was found.
fn marks_of(reach: Reach) -> Many<bool>
    ensures { result ≡ reach.marks }
{
    let Reach { marks, .. } = reach;
    marks
}

impl<'s, 'a> Identities<'s, 'a> {
    /// The identities of these texts. Contracts see it as the texts with their statements. Time and memory
    /// grow with the number of identities and their bases.
    pub fn of(alloc: Global, scopes: &'s Scopes<'a>) -> Result<Identities<'s, 'a>, Memory>
        ensures { IfOk result (λ it. it ≡ scopes.now) }
    {
        let places = Places::of(alloc, scopes)?;
        let graph = edges(alloc, &places)?;
        Ok(Identities { places, graph })
    }

    // Marks at the identities that are derived from the one that the `base` statement of a number names.
    fn marks(&self, alloc: Global, base: usize) -> Result<Many<bool>, Memory>
        ensures { IfOk result (λ it. OnNumber self.now base (λ l. AreMarks self.now.texts l it)) }
    {
        let Some(from) = self.places.named(base) else {
            return Ok(Many::new(alloc));
        };
        let graph = self.graph.as_slice();
        let reach = Reach::of(alloc, graph, row(graph, from))?;
        Ok(marks_of(reach))
    }

    // Whether the identity of a number has a mark.
    fn has_mark(&self, marks: &[bool], number: usize) -> bool
        ensures { (base : Located) → AreMarks self.now.texts base marks.now
            → OnNumber self.now number (λ l. Tells result (IsUnder self.now.texts base l)) }
    {
        match self.places.place(number) {
            Some(place) => is_marked(marks, place),
            None => false,
        }
    }

    // Of identities those that are derived from the one that the `base` statement of a number names.
    fn under(&self, alloc: Global, numbers: &[usize], base: usize) -> Result<Many<usize>, Memory>
        ensures { IfOk result (λ it. OnNumber self.now base (λ l.
            Narrows self.now.located (IsUnder self.now.texts l) numbers.now it)) }
    {
        let marks = self.marks(alloc, base)?;
        let mut kept = Many::new(alloc);
        for number in numbers {
            keep_if(&mut kept, *number, self.has_mark(marks.as_slice(), *number))?;
        }
        Ok(kept)
    }

    // The identities that no `if-feature` takes away.
    fn supported(&self, alloc: Global, features: &Features<'a>) -> Result<Many<usize>, Memory>
        ensures { IfOk result (AreDerivedNumbers self.now (is_on features.now) []) }
    {
        let scopes = self.places.scopes();
        let list = self.places.list();
        let mut kept = Many::new(alloc);
        for number in list {
            keep_if(
                &mut kept,
                *number,
                is_supported_at(scopes, features, *number),
            )?;
        }
        Ok(kept)
    }

    /// The numbers of the identities that are values of a type with the `base` statements of these numbers
    /// (RFC 7950 9.10.2), in the order of the texts and of the statements in them.
    pub fn derived(
        &self,
        alloc: Global,
        features: &Features<'a>,
        bases: &[usize],
    ) -> Result<Many<usize>, Memory>
        ensures { IfOk result (λ it. (ls : List Located) → AreNumbers self.now.located bases.now ls
            → AreDerivedNumbers self.now (is_on features.now) ls it) }
    {
        let mut numbers = self.supported(alloc, features)?;
        for base in bases {
            numbers = self.under(alloc, numbers.as_slice(), *base)?;
        }
        Ok(numbers)
    }
}
