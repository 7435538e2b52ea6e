//! The values of an entry at the leafs of a `unique` statement: one tuple for each choice of a
//! value in use at each leaf (RFC 7950 7.8.3). An entry that lacks one of the values has none, and
//! another has one, since a leaf has one value in an entry.
ghost use Rattle.std.specs.Prelude.{◌≡◌, ◌++◌, ◌∷◌, [], map, IfOk};
ghost use Rattle.nc_defaults.specs.Within.{IsWithin, place_here};
ghost use Rattle.nc_validate.specs.inner.Tuples.{all_texts, extended, texts, tuples_of};

use nc_defaults::{Children, Spot, values_below};
use nc_names::{Many, Memory, Text};
use nc_tree::Listed;
use std::alloc::Global;

// A tuple with one value more.
fn longer<'a>(alloc: Global, tuple: &[&'a Text], value: &'a Text) -> Result<Many<&'a Text>, Memory>
    ensures { IfOk result (λ it. texts it ≡ texts tuple.now ++ value.now ∷ []) }
{
    let mut out = Many::new(alloc);
    for one in tuple {
        out.push(*one)?;
    }
    out.push(value)?;
    Ok(out)
}

// Adds a tuple with each of the values.
fn with_each<'a>(
    out: Many<Many<&'a Text>>,
    tuple: &[&'a Text],
    values: &[&'a Text],
) -> Result<Many<Many<&'a Text>>, Memory>
    ensures { IfOk result (λ it. all_texts it
        ≡ all_texts out.entry ++ map (λ value. texts tuple.now ++ value ∷ []) (texts values.now)) }
{
    let mut out = out;
    let alloc = out.alloc();
    for value in values {
        out.push(longer(alloc, tuple, *value)?)?;
    }
    Ok(out)
}

// Each tuple with each of the values.
fn extended<'a>(
    alloc: Global,
    tuples: &[Many<&'a Text>],
    values: &[&'a Text],
) -> Result<Many<Many<&'a Text>>, Memory>
    ensures { IfOk result (λ it. all_texts it ≡ extended (all_texts tuples.now) (texts values.now)) }
{
    let mut out = Many::new(alloc);
    for tuple in tuples {
        out = with_each(out, tuple.as_slice(), values)?;
    }
    Ok(out)
}

// One tuple, which is empty.
fn empty_tuple<'a>(alloc: Global) -> Result<Many<Many<&'a Text>>, Memory>
    ensures { IfOk result (λ it. all_texts it ≡ [] ∷ []) }
{
    let mut out = Many::new(alloc);
    out.push(Many::new(alloc))?;
    Ok(out)
}

/// The tuples of an entry.
pub(crate) fn tuples_of<'a>(
    alloc: Global,
    children: &Children<'a>,
    config: &'a Listed,
    entry: &Spot<'_>,
    leafs: &[u32],
) -> Result<Many<Many<&'a Text>>, Memory>
    requires { IsWithin config.now entry.now.here }
    ensures { IfOk result (λ it. all_texts it
        ≡ tuples_of children.now leafs.now (place_here config.now entry.now.steps entry.now.here)) }
{
    let mut out = empty_tuple(alloc)?;
    for leaf in leafs {
        let values = values_below(alloc, children, config, entry, *leaf)?;
        out = extended(alloc, out.as_slice(), values.as_slice())?;
    }
    Ok(out)
}
