//! The rows at or below instances that containment nodes name.
ghost use Rattle.std.specs.Prelude.{◌≡◌, ◌∷◌, ◌++◌, ◌+◌, ◌<◌, ◌^◌, [], ℕ, Bool, List, IfOk, if◌then◌else◌, length, map};
ghost use Rattle.std.specs.List.{filter, list_any};
ghost use Rattle.nc_filter.specs.declared.rows.Spot.{Spot};
ghost use Rattle.nc_filter.specs.inner.Instances as inner;
ghost use Rattle.nc_filter.specs.inner.Tables.{has_text};

use crate::keys::name_key;
use crate::labels::{named_labels, tagged};
use crate::rows::{Spot, node_at};
use crate::texts::with_text;
use crate::wants::Want;
use nc_message::Elem;
use nc_names::{Many, Memory};
use nc_schema::Schema;
use std::alloc::Global;
use std::collections::BTreeSet;

// A set with the names of some elements more.
fn with_names(
    alloc: Global,
    names: BTreeSet<Many<u8>>,
    elems: &[&Elem],
) -> Result<BTreeSet<Many<u8>>, Memory>
    ensures { IfOk result (λ it. inner.AddsNames (map (λ elem. elem.now) elems.now) names it) }
{
    let mut names = names;
    for elem in elems {
        let label = tagged(alloc, 0, name_key(alloc, elem)?)?;
        names = with_text(names, label)?;
    }
    Ok(names)
}

// The names of the elements of wants.
fn names_of(alloc: Global, wants: &[Want]) -> Result<BTreeSet<Many<u8>>, Memory>
    ensures { IfOk result (λ it. inner.AreNamesOf wants.now it) }
{
    let mut names = BTreeSet::new(alloc);
    for want in wants {
        names = with_names(alloc, names, want.elems.as_slice())?;
    }
    Ok(names)
}

// Whether one of some labels is in a set.
fn has_one(names: &BTreeSet<Many<u8>>, labels: &[Many<u8>]) -> bool
    ensures { result ≡ list_any (has_text names.now) labels.now }
{
    for label in labels {
        if names.contains(label) {
            return true;
        }
    }
    false
}

// Some rows and one more, where the data node at a depth above it has a name in a set.
fn with_spot<'a>(
    alloc: Global,
    schema: &Schema,
    depth: usize,
    names: &BTreeSet<Many<u8>>,
    spot: &Spot<'a>,
    out: Many<Spot<'a>>,
) -> Result<Many<Spot<'a>>, Memory>
    ensures spots { IfOk result (λ it. it ≡ (if inner.is_asked schema.now depth names.now spot.now
        then out.entry ++ spot.now ∷ [] else out.entry)) }
    ensures within { IfOk result (λ it. (0 < length out.entry → depth + 1 < 2 ^ 64) → 0 < length it →
        depth + 1 < 2 ^ 64) }
{
    match node_at(depth, spot.row) {
        Some(number) => {
            let labels = named_labels(alloc, schema, number)?;
            let more = with_spot_if(out, has_one(names, labels.as_slice()), spot)?;
            Ok(more)
        }
        None => Ok(out),
    }
}

fn with_spot_if<'a>(
    out: Many<Spot<'a>>,
    passes: bool,
    spot: &Spot<'a>,
) -> Result<Many<Spot<'a>>, Memory>
    ensures { IfOk result (λ it. it ≡ (if passes then out.entry ++ spot.now ∷ [] else out.entry)) }
{
    let mut out = out;
    if passes {
        out.push(Spot {
            number: spot.number,
            row: spot.row,
        })?;
    }
    Ok(out)
}

/// Those of some rows that are at or below a data node, at a depth, that an element of wants names.
pub(crate) fn asked_spots<'a>(
    alloc: Global,
    schema: &Schema,
    depth: usize,
    spots: &[Spot<'a>],
    wants: &[Want],
) -> Result<Many<Spot<'a>>, Memory>
    ensures spots { IfOk result (λ it. inner.AreAsked schema.now depth wants.now spots.now it) }
    ensures within { IfOk result (λ it. 0 < length it → depth + 1 < 2 ^ 64) }
{
    let names = names_of(alloc, wants)?;
    let mut out = Many::new(alloc);
    for spot in spots {
        out = with_spot(alloc, schema, depth, &names, spot, out)?;
    }
    Ok(out)
}
