//! The entries of a list, and what is in use in them.
ghost use Rattle.std.specs.Prelude.{◌≡◌, ◌≤◌, ◌<◌, ◌++◌, ◌∷◌, [], length, map, IfOk, OnOk};
ghost use Rattle.std.specs.List.{filter};
ghost use Rattle.std.specs.Option.{option_copied};
ghost use Rattle.nc_schema.specs.InUse.{values_in_use};
ghost use Rattle.nc_schema.specs.Places as places;
ghost use Rattle.nc_model.specs.Policy as policies;
ghost use Rattle.nc_defaults.specs.Within.{AreWithin, IsWithin, place_here, places_in};
ghost use Rattle.nc_nacm.specs.inner.Entries as inner;

use nc_defaults::{Here, Spot, found_below, next_of, place_of, run_end, values_in_use};
use nc_names::{Copies, Many, Memory, Step, Text};
use nc_schema::{Node, Schema};
use nc_tree::{Listed, last_step};
use std::alloc::Global;

/// Adds the entry that begins at a row and ends at another, if it is one of the list.
fn add_entry<'a>(
    out: &mut Many<Spot<'a>>,
    schema: &Schema,
    config: &'a Listed,
    steps: &[Step],
    here: Here,
    list: (u32, &Node),
    rows: (u64, u64),
) -> Result<(), Memory>
    requires here { IsWithin config.now here }
    requires order { rows.0 < rows.1 }
    requires end { rows.1 ≤ length config.now }
    ensures places { OnOk result (places_in config.now out.new ≡ places_in config.now out.old
        ++ map (places.place_of schema.now (place_here config.now steps.now here) list.entry.1.now)
        (filter (places.is_of list.entry.0)
        (inner.part_between (length steps.now) config.now rows.0 rows.1 ∷ []))) }
    ensures within { AreWithin config.now out.old → AreWithin config.now out.new }
{
    let (number, node) = list;
    let (from, to) = rows;
    let Some(step) = next_of(config, steps.len(), from) else {
        return Ok(());
    };
    if step.node != number {
        return Ok(());
    }
    let steps_to = found_below(config, from, steps, out.alloc(), step)?;
    let place = place_of(schema, config, steps, here, node, (from, to));
    out.push(Spot {
        steps: steps_to,
        here: place,
    })?;
    Ok(())
}

/// The entries of a list in a place.
pub(crate) fn entries_at<'a>(
    alloc: Global,
    schema: &Schema,
    config: &'a Listed,
    steps: &[Step],
    here: Here,
    number: u32,
) -> Result<Many<Spot<'a>>, Memory>
    requires { IsWithin config.now here }
    ensures places { IfOk result (λ it. places_in config.now it
        ≡ policies.entries_at schema.now (place_here config.now steps.now here) number) }
    ensures within { IfOk result (AreWithin config.now) }
{
    let mut out = Many::new(alloc);
    let Some(node) = schema.node(number) else {
        return Ok(out);
    };
    let mut at = here.from;
    'part: while at < here.to {
        let end = run_end(config, steps.len(), at, here.to);
        add_entry(
            &mut out,
            schema,
            config,
            steps,
            here,
            (number, node),
            (at, end),
        )?;
        at = end;
    }
    Ok(out)
}

/// Whether there is a value, and it is this word.
pub(crate) fn is_text(word: &str, value: Option<&Text>) -> bool
    ensures { result ≡ policies.is_text word.now (option_copied value.entry) }
{
    match value {
        Some(text) => text.as_str() == word,
        None => false,
    }
}

/// The value in use of a leaf.
pub(crate) fn value_at<'a>(
    alloc: Global,
    schema: &'a Schema,
    config: &'a Listed,
    steps: &[Step],
    here: Here,
    number: u32,
) -> Result<Option<&'a Text>, Memory>
    requires { IsWithin config.now here }
    ensures { IfOk result (λ it. option_copied it
        ≡ policies.value_at schema.now (place_here config.now steps.now here) number) }
{
    let values = values_in_use(alloc, schema, config, steps, here, number)?;
    Ok(first_text(values.as_slice()))
}

fn first_text<'a>(texts: &[&'a Text]) -> Option<&'a Text>
    ensures { option_copied result ≡ policies.first_text (map (λ text. text.now) texts.now) }
{
    match texts {
        [] => None,
        [first, ..] => Some(*first),
    }
}

/// The values in use of a leaf-list.
pub(crate) fn texts_at(
    alloc: Global,
    schema: &Schema,
    config: &Listed,
    steps: &[Step],
    here: Here,
    number: u32,
) -> Result<Many<Text>, Memory>
    requires { IsWithin config.now here }
    ensures { IfOk result (λ it. it
        ≡ values_in_use schema.now (place_here config.now steps.now here) number) }
{
    let values = values_in_use(alloc, schema, config, steps, here, number)?;
    let mut texts = Many::new(alloc);
    for value in values.as_slice() {
        texts.push(value.copy()?)?;
    }
    Ok(texts)
}

fn first_key<'a>(steps: &'a [Step]) -> Option<&'a Text>
    ensures { option_copied result ≡ inner.first_key steps.now }
{
    last_step(steps)?.keys.as_slice().first()
}

/// The name of an entry: its key.
pub(crate) fn entry_name(alloc: Global, steps: &[Step]) -> Result<Text, Memory>
    ensures { IfOk result (λ it. it ≡ inner.name_in steps.now) }
{
    match first_key(steps) {
        Some(name) => name.copy(),
        None => Ok(Text::new(alloc)),
    }
}
