//! All places of a configuration, in document order.
ghost use Rattle.std.specs.Prelude.{◌≡◌, ◌+◌, ◌^◌, ◌<◌, ◌++◌, ◌∷◌, [], false, None, Some, length, map, option_map};
ghost use Rattle.std.specs.Prelude.{IfOk, OnOk};
ghost use Rattle.std.specs.List.{filter, last_or, list_any};
ghost use Rattle.nc_schema.specs.Children.{is_same_number};
ghost use Rattle.nc_schema.specs.Kinds as kinds;
ghost use Rattle.nc_schema.specs.Places as places;
ghost use Rattle.nc_defaults.specs.Children.{children_of};
ghost use Rattle.nc_defaults.specs.Sought.{AreUpward, sought};
ghost use Rattle.nc_defaults.specs.Within.{AreWithin, IsWithin, place_here, places_in};
ghost use Rattle.nc_defaults.specs.inner.Lists.{has_places_at};
ghost use Rattle.nc_defaults.specs.inner.Runs.{next_at};
ghost use Rattle.nc_defaults.specs.inner.Spans.{AreRuns, IsRun, part_at};
ghost use Rattle.nc_defaults.specs.inner.Walks.{places_at, places_under, places_with};

use crate::children::Children;
use crate::here::{Here, place_of};
use crate::sought::{is_sought, seeks_any};
use crate::spans::{Run, has_run, runs_of, step_of};
use crate::steps::{Steps, found_next, own_below};
use nc_names::{Copies, Many, Memory, Step};
use nc_schema::{Kind, Node, Schema};
use nc_tree::Listed;
use std::alloc::Global;

/// A place with the steps to it.
#[derive(Drop)]
pub struct Spot<'a> {
    /// The steps to it; none at the top.
    pub steps: Steps<'a>,
    /// The place.
    pub here: Here,
}

/// The data node to an instance of which steps lead; none at the top.
pub fn node_there(steps: &[Step]) -> Option<u32>
    ensures { result ≡ option_map (λ step. step.node) (last_or None steps.now) }
{
    let mut last: Option<&Step> = None;
    for step in steps {
        last = Some(step);
    }
    Some(last?.node)
}

/// Whether the two are the same number, or both none.
pub fn is_same_number(number: Option<u32>, other: Option<u32>) -> bool
    ensures { result ≡ is_same_number number other }
{
    match (number, other) {
        (None, None) => true,
        (Some(number), Some(other)) => number == other,
        _ => false,
    }
}

/// Whether data nodes stand in instances of a kind of data node (RFC 7950 7.5, 7.8).
pub fn has_places(kind: Kind) -> bool
    ensures { result ≡ kinds.holds_nodes kind }
{
    match kind {
        Kind::Container { .. } | Kind::List => true,
        Kind::Leaf | Kind::LeafList => false,
    }
}

/// Whether a kind of data node is a container without presence (RFC 7950 7.5.1).
pub(crate) fn is_plain(kind: Kind) -> bool
    ensures { result ≡ kinds.is_plain_container kind }
{
    match kind {
        Kind::Container { presence } => !presence,
        _ => false,
    }
}

/// The instance of a data node whose rows a run has, as a place.
fn spot_of<'a>(
    alloc: Global,
    schema: &Schema,
    config: &'a Listed,
    steps: &[Step],
    here: Here,
    node: &Node,
    run: &Run,
    step: &Step,
) -> Result<Spot<'a>, Memory>
    requires here { IsWithin config.now here }
    requires run { IsRun (length steps.now) config.now run.now }
    requires next { next_at (length steps.now) config.now run.now.from ≡ Some step.now }
    ensures place { IfOk result (λ it. place_here config.now it.steps it.here
        ≡ places.place_of schema.now (place_here config.now steps.now here) node.now
        (part_at (length steps.now) config.now run.now)) }
    ensures within { IfOk result (λ it. IsWithin config.now it.here) }
{
    Ok(Spot {
        steps: found_next(config, run.from, steps, alloc, step)?,
        here: place_of(schema, config, steps, here, node, (run.from, run.to)),
    })
}

/// Adds the instances of a data node that stand in a place, where no places stand in them.
fn add_ends<'a>(
    out: &mut Many<Spot<'a>>,
    children: &Children<'_>,
    config: &'a Listed,
    steps: &[Step],
    here: Here,
    runs: &[Run],
    child: (u32, &Node),
) -> Result<(), Memory>
    requires within { IsWithin config.now here }
    requires runs { AreRuns (length steps.now) config.now here.from here.to runs.now }
    requires ends { list_any (has_places_at children.now.nodes)
        (children_of children.now.nodes (Some child.0)) ≡ false }
    ensures places { OnOk result (places_in config.now out.new ≡ places_in config.now out.old
        ++ places_with children.now (place_here config.now steps.now here) child.entry.0 child.entry.1.now
        (filter (places.is_of child.entry.0) (map (part_at (length steps.now) config.now) runs.now))) }
    ensures within { AreWithin config.now out.old → AreWithin config.now out.new }
{
    let alloc = out.alloc();
    let schema = children.schema();
    let (number, node) = child;
    for run in runs {
        if !is_same_number(run.node, Some(number)) {
            continue;
        }
        let Some(step) = step_of(config, steps.len(), run) else {
            continue;
        };
        let below = spot_of(alloc, schema, config, steps, here, node, run, step)?;
        out.push(below)?;
    }
    Ok(())
}

/// Adds an instance of a data node, whose number is `number - 1`, and all places below it that are sought.
#[cycle(spots)]
fn add_place<'a>(
    out: &mut Many<Spot<'a>>,
    children: &Children<'_>,
    marks: &[bool],
    config: &'a Listed,
    spot: Spot<'a>,
    number: u32,
) -> Result<(), Memory>
    requires here { IsWithin config.now spot.here }
    requires marks { AreUpward children.now.nodes marks.now }
    ensures places { OnOk result (sought marks.now (places_in config.now out.new)
        ≡ sought marks.now (places_in config.now out.old
        ++ place_here config.now spot.entry.steps spot.entry.here
        ∷ places_under children.now (place_here config.now spot.entry.steps spot.entry.here) number)) }
    ensures within { AreWithin config.now out.old → AreWithin config.now out.new }
{
    let steps = spot.steps.copy()?;
    let here = spot.here;
    out.push(spot)?;
    add_below(out, children, marks, config, steps.as_slice(), here, number)?;
    Ok(())
}

/// Adds the places below one that are sought, of the data nodes from a number on. A data node has a higher number than the
/// one in which it stands, so that the walk looks at no more than those that it adds.
#[cycle(spots)]
fn add_below<'a>(
    out: &mut Many<Spot<'a>>,
    children: &Children<'_>,
    marks: &[bool],
    config: &'a Listed,
    steps: &[Step],
    here: Here,
    number: u32,
) -> Result<(), Memory>
    requires here { IsWithin config.now here }
    requires marks { AreUpward children.now.nodes marks.now }
    ensures places { OnOk result (sought marks.now (places_in config.now out.new)
        ≡ sought marks.now (places_in config.now out.old
        ++ places_under children.now (place_here config.now steps.now here) number)) }
    ensures within { AreWithin config.now out.old → AreWithin config.now out.new }
{
    let numbers = children.in_parent(node_there(steps));
    if !children.have_places(numbers) {
        return Ok(());
    }
    if !seeks_any(marks, numbers) {
        return Ok(());
    }
    let runs = runs_of(out.alloc(), config, steps.len(), here.from, here.to)?;
    for child in numbers {
        if *child < number {
            continue;
        }
        add_child(
            out,
            children,
            marks,
            config,
            steps,
            here,
            runs.as_slice(),
            *child,
        )?;
    }
    Ok(())
}

/// Adds the places of a data node that stands in the place, with those below them, where they are sought.
#[cycle(spots)]
fn add_child<'a>(
    out: &mut Many<Spot<'a>>,
    children: &Children<'_>,
    marks: &[bool],
    config: &'a Listed,
    steps: &[Step],
    here: Here,
    runs: &[Run],
    number: u32,
) -> Result<(), Memory>
    requires here { IsWithin config.now here }
    requires marks { AreUpward children.now.nodes marks.now }
    requires runs { AreRuns (length steps.now) config.now here.from here.to runs.now }
    ensures places { OnOk result (sought marks.now (places_in config.now out.new)
        ≡ sought marks.now (places_in config.now out.old
        ++ places_at children.now (place_here config.now steps.now here) number)) }
    ensures within { AreWithin config.now out.old → AreWithin config.now out.new }
{
    if !is_sought(marks, Some(number)) {
        return Ok(());
    }
    let Some(node) = children.node(number) else {
        return Ok(());
    };
    add_parts(
        out,
        children,
        marks,
        config,
        steps,
        here,
        runs,
        (number, node),
    )?;
    Ok(())
}

/// Adds the instances of a data node that are places, with the places below them.
#[cycle(spots)]
fn add_parts<'a>(
    out: &mut Many<Spot<'a>>,
    children: &Children<'_>,
    marks: &[bool],
    config: &'a Listed,
    steps: &[Step],
    here: Here,
    runs: &[Run],
    child: (u32, &Node),
) -> Result<(), Memory>
    requires within { IsWithin config.now here }
    requires marks { AreUpward children.now.nodes marks.now }
    requires runs { AreRuns (length steps.now) config.now here.from here.to runs.now }
    requires known { child.0 < length children.now.nodes }
    requires few { child.0 + 1 < 2 ^ 32 }
    ensures places { OnOk result (sought marks.now (places_in config.now out.new)
        ≡ sought marks.now (places_in config.now out.old
        ++ places_with children.now (place_here config.now steps.now here) child.entry.0 child.entry.1.now
        (places.place_parts (place_here config.now steps.now here) child.entry.0 child.entry.1.now.kind))) }
    ensures within { AreWithin config.now out.old → AreWithin config.now out.new }
{
    let alloc = out.alloc();
    let schema = children.schema();
    let (number, node) = child;
    if !has_places(node.kind) {
        return Ok(());
    }
    if !has_run(runs, number) {
        if !is_plain(node.kind) {
            return Ok(());
        }
        let step = Step {
            node: number,
            keys: Many::new(alloc),
        };
        let spot = Spot {
            steps: own_below(steps, alloc, step)?,
            here: place_of(schema, config, steps, here, node, (here.from, here.from)),
        };
        add_place(out, children, marks, config, spot, number + 1)?;
        return Ok(());
    }
    if !children.have_places_in(Some(number)) {
        add_ends(out, children, config, steps, here, runs, (number, node))?;
        return Ok(());
    }
    for run in runs {
        if !is_same_number(run.node, Some(number)) {
            continue;
        }
        let Some(step) = step_of(config, steps.len(), run) else {
            continue;
        };
        let below = spot_of(alloc, schema, config, steps, here, node, run, step)?;
        add_place(out, children, marks, config, below, number + 1)?;
    }
    Ok(())
}

/// The places below one, in document order.
pub(crate) fn places_below<'a>(
    alloc: Global,
    children: &Children<'_>,
    config: &'a Listed,
    steps: &[Step],
    here: Here,
) -> Result<Many<Spot<'a>>, Memory>
    requires { IsWithin config.now here }
    ensures places { IfOk result (λ it. places_in config.now it
        ≡ places_under children.now (place_here config.now steps.now here) 0) }
    ensures within { IfOk result (AreWithin config.now) }
{
    let mut out = Many::new(alloc);
    if !children.have_places_in(node_there(steps)) {
        return Ok(out);
    }
    add_below(&mut out, children, &[], config, steps, here, 0)?;
    Ok(out)
}

/// Places that are sought by these marks: a place and those below it, without some that are not.
pub fn places_sought<'a>(
    alloc: Global,
    children: &Children<'_>,
    marks: &[bool],
    config: &'a Listed,
    steps: &[Step],
    here: Here,
) -> Result<Many<Spot<'a>>, Memory>
    requires here { IsWithin config.now here }
    requires marks { AreUpward children.now.nodes marks.now }
    ensures places { IfOk result (λ it. sought marks.now (places_in config.now it)
        ≡ sought marks.now (places.places_from children.now (place_here config.now steps.now here))) }
    ensures within { IfOk result (AreWithin config.now) }
{
    let mut own = Many::new(alloc);
    for step in steps {
        own.push(step.copy()?)?;
    }
    let top = Spot {
        steps: Steps::own(own),
        here,
    };
    let mut out = Many::new(alloc);
    add_place(&mut out, children, marks, config, top, 0)?;
    Ok(out)
}

/// A place and all below it, in document order.
pub fn places_from<'a>(
    alloc: Global,
    children: &Children<'_>,
    config: &'a Listed,
    steps: &[Step],
    here: Here,
) -> Result<Many<Spot<'a>>, Memory>
    requires { IsWithin config.now here }
    ensures places { IfOk result (λ it. places_in config.now it
        ≡ places.places_from children.now (place_here config.now steps.now here)) }
    ensures within { IfOk result (AreWithin config.now) }
{
    let found = places_sought(alloc, children, &[], config, steps, here)?;
    Ok(found)
}
