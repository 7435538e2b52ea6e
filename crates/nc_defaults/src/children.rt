//! Which data nodes stand in which (RFC 7950 7.5, 7.8). It is found once for a schema, so that in each
//! place of a configuration only the children of its data node are looked at.
ghost use Rattle.std.specs.Prelude.{◌≡◌, ◌++◌, ◌∷◌, ◌+◌, ◌<◌, ◌^◌, []};
ghost use Rattle.std.specs.Prelude.{length, replicate, slice_get, slice_set, IfOk, OnSome};
ghost use Rattle.std.specs.List.{list_any};
ghost use Rattle.std.specs.Option.{option_copied};
ghost use Rattle.nc_schema.specs.Children.{HasLowerParents};
ghost use Rattle.nc_defaults.specs.Children.{children_of};
ghost use Rattle.nc_defaults.specs.inner.Lists as words;

use crate::spots::has_places;
use nc_names::{Many, Memory};
use nc_schema::{Node, Schema};
use std::alloc::Global;
use std::marker::Model;

/// The data nodes of a schema, with the children of each. Contracts see the schema.
#[derive(Drop)]
pub struct Children<'a> {
    schema: &'a Schema,
    /// The numbers of those at the top, then of those in each data node.
    lists: Many<Many<u32>>,
}

impl<'a> Model for Children<'a> {
    ghost use Rattle.nc_schema.specs.Tables.{Tables};
    ghost use Rattle.nc_defaults.specs.inner.Lists.{AreLists};

    ghost Value = { Tables };

    ghost view = { λ c. c.schema.now };

    ghost invariant = { λ c. AreLists c.schema.now.nodes c.lists };
}

// The place of the list of a parent, or of the top.
fn list_place(parent: Option<u32>) -> usize
    ensures { result ≡ words.list_place parent }
{
    match parent {
        Some(number) => number as usize + 1,
        None => 0,
    }
}

// So many lists without a number.
fn no_lists(alloc: Global, count: usize) -> Result<Many<Many<u32>>, Memory>
    ensures { IfOk result (λ it. it ≡ replicate count []) }
{
    let mut lists = Many::new(alloc);
    for place in 0..count {
        lists.push(Many::new(alloc))?;
    }
    Ok(lists)
}

// With a number more in one of the lists.
fn with_number(lists: Many<Many<u32>>, place: usize, number: u32) -> Result<Many<Many<u32>>, Memory>
    requires { place < length lists }
    ensures { IfOk result (λ it. it ≡ slice_set lists place (words.list_at lists place ++ number ∷ [])) }
{
    let mut rows = lists.into_vec();
    let row = &mut rows[place];
    row.push(number)?;
    Ok(Many::from_vec(rows))
}

// With a data node in the list of its parent.
fn with_node(
    schema: &Schema,
    lists: Many<Many<u32>>,
    number: u32,
) -> Result<Many<Many<u32>>, Memory>
    requires lower { HasLowerParents schema.now.nodes }
    requires lists { words.AreListsSoFar schema.now.nodes number lists }
    ensures { IfOk result (words.AreListsSoFar schema.now.nodes (number + 1)) }
{
    let Some(node) = schema.node(number) else {
        return Ok(lists);
    };
    let lists = with_number(lists, list_place(node.parent), number)?;
    Ok(lists)
}

impl<'a> Children<'a> {
    /// The children of each data node of a schema. It takes memory for each data node once.
    pub fn of(alloc: Global, schema: &'a Schema) -> Result<Children<'a>, Memory>
        ensures { IfOk result (λ it. it ≡ schema.now) }
    {
        let count = schema.nodes();
        let mut lists = no_lists(alloc, count as usize + 1)?;
        for number in 0..count {
            lists = with_node(schema, lists, number)?;
        }
        Ok(Children { schema, lists })
    }

    /// The schema.
    pub fn schema(&self) -> &'a Schema
        ensures { result.now ≡ self.now }
    {
        self.schema
    }

    /// The numbers of the data nodes that stand in one, or at the top, in ascending order.
    pub fn in_parent(&self, parent: Option<u32>) -> &[u32]
        ensures { result.now ≡ children_of self.now.nodes parent }
    {
        match self.lists.get(list_place(parent)) {
            Some(list) => list.as_slice(),
            None => &[],
        }
    }

    /// The data node of a number, or `None` past the last.
    pub(crate) fn node(&self, number: u32) -> Option<&'a Node>
        ensures value { option_copied result ≡ slice_get self.now.nodes number }
        ensures within { OnSome result (number < length self.now.nodes) }
        ensures few { OnSome result (number + 1 < 2 ^ 32) }
    {
        self.schema.node(number)
    }

    /// Whether instances of one of these data nodes are places.
    pub(crate) fn have_places(&self, numbers: &[u32]) -> bool
        ensures { result ≡ list_any (words.has_places_at self.now.nodes) numbers.now }
    {
        numbers.iter().any(|number| self.has_places_at(*number))
    }

    /// Whether instances of one of the data nodes that stand in one, or at the top, are places.
    pub(crate) fn have_places_in(&self, parent: Option<u32>) -> bool
        ensures { result ≡ list_any (words.has_places_at self.now.nodes) (children_of self.now.nodes parent) }
    {
        self.have_places(self.in_parent(parent))
    }

    fn has_places_at(&self, number: u32) -> bool
        ensures { result ≡ words.has_places_at self.now.nodes number }
    {
        match self.node(number) {
            Some(node) => has_places(node.kind),
            None => false,
        }
    }
}
