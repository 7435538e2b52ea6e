//! The paths that a request's payload names.
ghost use Rattle.std.specs.Prelude.{◌≡◌, ◌||◌, ◌∷◌, ◌++◌, [], false, List, Result, IfOk, OnOk};
ghost use Rattle.std.specs.List.{flat_map};
ghost use Rattle.std.specs.Option.{option_map_or};
ghost use Rattle.nc_names.specs.Same.{is_same_path};
ghost use Rattle.nc_protocol.specs.Elements as elements;
ghost use Rattle.nc_protocol.specs.Payload as meant;
ghost use Rattle.nc_protocol.specs.Payload.{reading_of};
ghost use Rattle.nc_names.specs.declared.path.Path.{Path};
ghost use Rattle.nc_names.specs.declared.path.Step.{Step};
ghost use Rattle.nc_protocol.specs.declared.edit.Edit.{Edit};
ghost use Rattle.nc_protocol.specs.declared.request.Cause.{Cause};
ghost use Rattle.nc_payload.specs.Names.{is_named};
ghost use Rattle.nc_payload.specs.inner.Places.{AddsPlace, AddsPlaces, FaultOf, HasAbove};
ghost use Rattle.nc_payload.specs.inner.Places.{ends_at, has, has_place, inside_places, origin_names};
ghost use Rattle.nc_payload.specs.inner.Reads.{Answers, meaning};

use crate::PayloadFault;
use crate::elements::{Named, find_named, keys_read};
use crate::key_octets::KeysLeft;
use crate::payload::{config_edits, edits};
use nc_message::{Elem, Part};
use nc_names::{Copies, Many, Memory, Path, Step, Text, same_steps};
use nc_protocol::{Asked, Default3, Edit, Origin, Under};
use nc_schema::Schema;
use std::alloc::Global;
use std::collections::BTreeSet;

/// The places of elements, by the steps to them, whether there is one, and how many octets the keys in the
/// steps to further ones may have.
#[derive(Drop)]
pub(crate) struct Places {
    pub(crate) items: BTreeSet<Many<Step>>,
    pub(crate) some: bool,
    pub(crate) keys: KeysLeft,
}

/// The paths that the payload of a request names: those of its elements, those above them, and that of
/// its fault (RFC 6241 7.2, 7.3). Contracts see the test `is_named` of a path.
#[derive(Drop)]
pub struct Names {
    pub(crate) places: Places,
    pub(crate) fault: Option<Path>,
}

impl Places {
    fn none(alloc: Global) -> Places
        ensures { (key : List Step) → has result key ≡ false }
    {
        Places {
            items: BTreeSet::new(alloc),
            some: false,
            keys: KeysLeft::of_request(),
        }
    }

    // Takes a place more, below places that are there.
    fn take(&mut self, steps: Many<Step>) -> Result<(), Memory>
        ensures { OnOk result (AddsPlace self.old self.new steps) }
    {
        self.keys = self.keys.after(&steps)?;
        self.items.insert(steps)?;
        self.some = true;
        Ok(())
    }

    // Whether the node at a path is a place or above one.
    fn has(&self, path: &Path) -> bool
        ensures { result ≡ has_place self.now path.now }
    {
        if path.steps.is_empty() {
            return self.some;
        }
        self.items.contains(&path.steps)
    }
}

fn steps_with(above: &Many<Step>, number: u32, keys: Many<Text>) -> Result<Many<Step>, Memory>
    ensures { IfOk result (λ it. it ≡ above.now ++ record { node = number; keys = keys } ∷ []) }
{
    above.copied_with(Step { node: number, keys })
}

// The keys of the data node that an element names, with its number, where they have a reading.
fn step_named(
    alloc: Global,
    schema: &Schema,
    above: &Many<Step>,
    named: Named<'_>,
) -> Result<Option<Many<Step>>, Memory>
    ensures { IfOk result (λ it. it ≡ ends_at (reading_of schema.now) above.now (meaning named.entry)) }
{
    match keys_read(alloc, schema, named)? {
        Some(keys) => Ok(Some(steps_with(above, named.number, keys)?)),
        None => Ok(None),
    }
}

#[cycle(place)]
fn add_elem(
    alloc: Global,
    schema: &Schema,
    above: &Many<Step>,
    parent: Option<u32>,
    elem: &Elem,
    places: &mut Places,
) -> Result<(), Memory>
    ensures { OnOk result (HasAbove places.old above.now → AddsPlaces places.old places.new
        (inside_places (reading_of schema.now) above.now parent elem.now)) }
{
    let Some(named) = find_named(schema, parent, elem) else {
        return Ok(());
    };
    let Some(steps) = step_named(alloc, schema, above, named)? else {
        return Ok(());
    };
    places.take(steps.copy()?)?;
    add_parts(
        alloc,
        schema,
        &steps,
        Some(named.number),
        &elem.parts,
        places,
    )
}

#[cycle(place)]
fn add_part(
    alloc: Global,
    schema: &Schema,
    above: &Many<Step>,
    parent: Option<u32>,
    part: &Part,
    places: &mut Places,
) -> Result<(), Memory>
    ensures { OnOk result (HasAbove places.old above.now → AddsPlaces places.old places.new
        (meant.part_places (reading_of schema.now) above.now parent part.now)) }
{
    match part {
        Part::Child(elem) => add_elem(alloc, schema, above, parent, elem.get(), places),
        Part::Chars(_) => Ok(()),
    }
}

#[cycle(place)]
fn add_parts(
    alloc: Global,
    schema: &Schema,
    above: &Many<Step>,
    parent: Option<u32>,
    parts: &Many<Part>,
    places: &mut Places,
) -> Result<(), Memory>
    ensures { OnOk result (HasAbove places.old above.now → AddsPlaces places.old places.new
        (flat_map (meant.part_places (reading_of schema.now) above.now parent) parts.now)) }
{
    for part in parts.as_slice() {
        add_part(alloc, schema, above, parent, part, places)?;
    }
    Ok(())
}

fn places_in(alloc: Global, schema: &Schema, config: &Elem) -> Result<Places, Memory>
    ensures { IfOk result (λ it. (path : Path) → has_place it path ≡
        meant.stands_in (reading_of schema.now) config.now path) }
{
    let top = Many::new(alloc);
    let mut places = Places::none(alloc);
    add_parts(alloc, schema, &top, None, &config.parts, &mut places)?;
    Ok(places)
}

// The path of a payload's fault.
fn fault_path(read: Result<Many<Edit>, PayloadFault>) -> Result<Option<Path>, Memory>
    ensures { (defined : Result (List Edit) Cause) → Answers defined read → FaultOf defined result }
{
    match read {
        Ok(_) => Ok(None),
        Err(PayloadFault::Bad(cause)) => Ok(cause.path),
        Err(PayloadFault::Memory) => Err(Memory),
    }
}

#[tactic(auto, unfolding(crate::specs::Names::is_named))]
fn of_edits(
    alloc: Global,
    schema: &Schema,
    config: &Elem,
    default_operation: Default3,
) -> Result<Names, Memory>
    ensures { IfOk result (λ it. (path : Path) → is_named it path ≡
        (meant.stands_in (reading_of schema.now) config.now path ||
        meant.is_at_fault (meant.edits_read (reading_of schema.now) default_operation config.now) path)) }
{
    let places = places_in(alloc, schema, config)?;
    let fault = fault_path(edits(alloc, schema, config, default_operation))?;
    Ok(Names { places, fault })
}

#[tactic(auto, unfolding(crate::specs::Names::is_named))]
fn of_rows(alloc: Global, schema: &Schema, config: &Elem) -> Result<Names, Memory>
    ensures { IfOk result (λ it. (path : Path) → is_named it path ≡
        (meant.stands_in (reading_of schema.now) config.now path ||
        meant.is_at_fault (meant.rows_read (reading_of schema.now) config.now) path)) }
{
    let places = places_in(alloc, schema, config)?;
    let read = config_edits(alloc, schema, Under::Inline, config, KeysLeft::of_request());
    let fault = fault_path(read)?;
    Ok(Names { places, fault })
}

fn of_origin(alloc: Global, schema: &Schema, origin: &Origin) -> Result<Names, Memory>
    ensures { IfOk result (λ it. (path : Path) → is_named it path ≡ origin_names schema.now origin.now path) }
{
    match origin {
        Origin::Inline(config) => of_rows(alloc, schema, config),
        Origin::Store(_) => Ok(nothing(alloc)),
    }
}

#[tactic(auto, unfolding(crate::specs::Names::is_named))]
fn nothing(alloc: Global) -> Names
    ensures { (path : Path) → is_named result path ≡ false }
{
    Names {
        places: Places::none(alloc),
        fault: None,
    }
}

impl Names {
    /// The paths that the payload of a request names; a request without a payload names none.
    pub fn of(alloc: Global, schema: &Schema, asked: &Asked) -> Result<Names, Memory>
        ensures { IfOk result (λ it. (path : Path) → is_named it path ≡
            meant.names_path schema.now asked.now path) }
    {
        match asked {
            Asked::EditConfig {
                default_operation,
                config,
                ..
            } => of_edits(alloc, schema, config, *default_operation),
            Asked::CopyConfig { source, .. } | Asked::Validate { source } => {
                of_origin(alloc, schema, source)
            }
            _ => Ok(nothing(alloc)),
        }
    }

    /// Whether the payload names a path.
    #[tactic(auto, unfolding(crate::specs::Names::is_named))]
    pub fn names(&self, path: &Path) -> bool
        ensures { result ≡ is_named self.now path.now }
    {
        let stands = self.places.has(path);
        let at_fault = is_at(&self.fault, path);
        stands || at_fault
    }
}

fn is_at(fault: &Option<Path>, path: &Path) -> bool
    ensures { result ≡ option_map_or (λ at. is_same_path at.steps path.now.steps) fault.now false }
{
    match fault {
        Some(at) => same_steps(at.steps.as_slice(), path.steps.as_slice()),
        None => false,
    }
}
