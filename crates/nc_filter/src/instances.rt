//! What elements ask for of an instance, and what an instance has of that: the name of its data node, and
//! the keys of the rows directly in it (RFC 6241 6.2.1, 6.2.5).
ghost use Rattle.std.specs.Prelude.{◌≡◌, ◌∷◌, [], List, IfOk};
ghost use Rattle.std.specs.Option.{option_map_or};
ghost use Rattle.nc_names.specs.declared.path.Row.{Row};
ghost use Rattle.nc_filter.specs.inner.Instances as inner;
ghost use Rattle.nc_filter.specs.inner.Keys.{name_key};
ghost use Rattle.nc_filter.specs.inner.Tables.{IsIndex};

use crate::index::Index;
use crate::keys::{asked, keys_in, name_key};
use crate::labels::{named_labels, tagged, with_texts};
use nc_message::Elem;
use nc_names::{Many, Memory, Step};
use nc_schema::Schema;
use std::alloc::Global;

// What an element asks for by its name, where its name is asked for.
fn asked_name(alloc: Global, upper: Option<usize>, elem: &Elem) -> Result<Many<Many<u8>>, Memory>
    ensures { IfOk result (λ it. it ≡ option_map_or (λ at. (0 ∷ name_key elem.now) ∷ []) upper []) }
{
    let mut out = Many::new(alloc);
    if let Some(_at) = upper {
        out.push(tagged(alloc, 0, name_key(alloc, elem)?)?)?;
    }
    Ok(out)
}

/// What an element asks for of an instance: its own name, unless it is the first, and what the content
/// matches at its level ask for.
pub(crate) fn asked_in(
    alloc: Global,
    upper: Option<usize>,
    elem: &Elem,
) -> Result<Many<Many<u8>>, Memory>
    ensures { IfOk result (λ it. it ≡ inner.asked_in upper elem.now) }
{
    let out = asked_name(alloc, upper, elem)?;
    let inside = asked(alloc, elem)?;
    let all = with_texts(alloc, out, inside.as_slice())?;
    Ok(all)
}

// The labels of the name of the data node at a place in the steps to an instance.
fn step_labels(
    alloc: Global,
    schema: &Schema,
    upper: Option<usize>,
    above: &[Step],
) -> Result<Many<Many<u8>>, Memory>
    ensures { IfOk result (λ it. it ≡ inner.step_labels schema.now upper above.now) }
{
    let Some(at) = upper else {
        return Ok(Many::new(alloc));
    };
    match above.get(at) {
        Some(step) => Ok(named_labels(alloc, schema, step.node)?),
        None => Ok(Many::new(alloc)),
    }
}

/// What an instance has that elements ask for.
pub(crate) fn instance_keys<'a>(
    alloc: Global,
    schema: &Schema,
    index: &Index<'a>,
    upper: Option<usize>,
    above: &'a [Step],
) -> Result<Many<Many<u8>>, Memory>
    ensures { IfOk result (λ it. (all : List Row) → IsIndex index.now.table all →
        it ≡ inner.instance_keys schema.now all upper above.now) }
{
    let out = step_labels(alloc, schema, upper, above)?;
    let inside = keys_in(alloc, schema, index, above)?;
    let all = with_texts(alloc, out, inside.as_slice())?;
    Ok(all)
}
