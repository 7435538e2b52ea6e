//! What the walk looks up in a schema. It is found once, so that in each place only the children of its
//! data node and the choices without data nodes are looked at.
ghost use Rattle.std.specs.Prelude.{◌≡◌, ◌+◌, ◌<◌};
ghost use Rattle.std.specs.Prelude.{None, Some, is_some, length, map, replicate, slice_set, IfOk};
ghost use Rattle.nc_schema.specs.Violations as violations;
ghost use Rattle.nc_validate.specs.inner.Choices as choices;
ghost use Rattle.nc_validate.specs.inner.Outlines.{IsOutline};

use nc_defaults::Children;
use nc_names::{Many, Memory};
use nc_schema::{Case, Choice, Schema};
use std::alloc::Global;

/// A schema, with what is looked up in it.
#[derive(Drop)]
pub(crate) struct Outline<'a> {
    pub(crate) schema: &'a Schema,
    /// The children of each data node.
    pub(crate) children: Children<'a>,
    /// The number of the first data node of each choice, or `None` where it has none.
    pub(crate) firsts: Many<Option<u32>>,
    /// The choices without data nodes.
    pub(crate) bares: Many<&'a Choice>,
}

// So many choices without a data node.
fn no_firsts(alloc: Global, count: usize) -> Result<Many<Option<u32>>, Memory>
    ensures { IfOk result (λ it. it ≡ replicate count None) }
{
    let mut firsts = Many::new(alloc);
    for choice in 0..count {
        firsts.push(None)?;
    }
    Ok(firsts)
}

// Puts a data node in front of the others of a choice.
fn set_first(firsts: &mut Many<Option<u32>>, choice: u32, number: u32)
    ensures { firsts.new ≡ slice_set firsts.old choice (Some number) }
{
    let place = choice as usize;
    if place < firsts.len() {
        firsts.set(place, Some(number));
    }
}

// Puts a data node in front of the others of each choice of its cases.
fn set_firsts(firsts: &mut Many<Option<u32>>, cases: &[Case], number: u32)
    ensures { choices.HasFirsts cases.now number firsts.old firsts.new }
{
    for case in cases {
        set_first(firsts, case.choice, number);
    }
}

// One data node more, from the last to the first.
fn set_node(firsts: &mut Many<Option<u32>>, schema: &Schema, number: u32)
    requires { choices.AreFirstsFrom schema.now (number + 1) firsts.old }
    ensures { choices.AreFirstsFrom schema.now number firsts.new }
{
    let Some(node) = schema.node(number) else {
        return;
    };
    set_firsts(firsts, node.cases.as_slice(), number);
}

// The first data node of each choice.
fn firsts_of(alloc: Global, schema: &Schema) -> Result<Many<Option<u32>>, Memory>
    ensures { IfOk result (choices.AreFirstsFrom schema.now 0) }
{
    let mut firsts = no_firsts(alloc, schema.choices().len())?;
    let mut left = schema.nodes();
    while left > 0 {
        left -= 1;
        set_node(&mut firsts, schema, left);
    }
    Ok(firsts)
}

// Whether a choice has a first data node.
fn has_first(firsts: &[Option<u32>], choice: usize) -> bool
    ensures { result ≡ is_some (choices.first_at firsts.now choice) }
{
    match firsts.get(choice) {
        Some(first) => first.is_some(),
        None => false,
    }
}

// Those of the choices that have no data nodes.
fn bares_of<'a>(
    alloc: Global,
    among: &'a [Choice],
    firsts: &[Option<u32>],
) -> Result<Many<&'a Choice>, Memory>
    ensures { IfOk result (λ it. map (λ choice. choice.now) it
        ≡ choices.bares_from firsts.now 0 among.now) }
{
    let mut bares = Many::new(alloc);
    for (number, choice) in among.iter().enumerate() {
        if has_first(firsts, number) {
            continue;
        }
        bares.push(choice)?;
    }
    Ok(bares)
}

/// A schema with what is looked up in it.
pub(crate) fn outline_of<'a>(alloc: Global, schema: &'a Schema) -> Result<Outline<'a>, Memory>
    ensures schema { IfOk result (λ it. it.schema.now ≡ schema.now) }
    ensures outline { IfOk result (λ it. IsOutline it) }
{
    let children = Children::of(alloc, schema)?;
    let firsts = firsts_of(alloc, schema)?;
    let bares = bares_of(alloc, schema.choices(), firsts.as_slice())?;
    Ok(Outline {
        schema,
        children,
        firsts,
        bares,
    })
}

/// Whether a data node of a choice of the schema is among the first so many.
pub(crate) fn is_choice_before(outline: &Outline<'_>, number: u32, choice: u32) -> bool
    requires outline { IsOutline outline.now }
    requires known { choice < length outline.now.schema.now.choices }
    ensures { result ≡ violations.is_choice_before outline.now.schema.now number choice }
{
    match outline.firsts.get(choice as usize) {
        Some(first) => is_below(*first, number),
        None => false,
    }
}

fn is_below(first: Option<u32>, number: u32) -> bool
    ensures { result ≡ choices.is_below first number }
{
    match first {
        Some(first) => first < number,
        None => false,
    }
}
