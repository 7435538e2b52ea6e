//! The edits of an element, from its operation and the edits of what is in it.
ghost use Rattle.std.specs.Prelude.{◌≡◌, ◌∷◌, [], Some, IfOk};
ghost use Rattle.nc_protocol.specs.Payload as meant;
ghost use Rattle.nc_protocol.specs.declared.edit.Action.TheVariants.{Create, Replace};
ghost use Rattle.nc_payload.specs.inner.Reads.{edit_at, merge_at};

use crate::gather::in_order;
use crate::own::Found;
use crate::payload::Read;
use nc_made::make;
use nc_names::{Copies, Many, Memory, Path, Place, Row};
use nc_protocol::{Action, Edit, EditOperation, Under};
use nc_schema::Schema;
use nc_tree::Config;
use std::alloc::Global;

/// What is read of an element, with the edits of what is in it.
pub(crate) fn with_below(
    alloc: Global,
    schema: &Schema,
    under: Under,
    found: Found,
    below: Many<Edit>,
) -> Result<Read, Memory>
    ensures edits { IfOk result (λ it. it.edits ≡ meant.made schema.now under found.operation
        (merge_at found.within.above found.content.value) found.place below) }
    ensures step { IfOk result (λ it. it.step ≡ Some found.content.step) }
{
    let Found {
        content,
        within,
        operation,
        place,
    } = found;
    let merge = Edit {
        path: Path {
            steps: within.above,
        },
        action: Action::Merge {
            value: content.value,
        },
        place: Place::Kept,
    };
    Ok(Read {
        edits: made_from(alloc, schema, under, operation, merge, place, below)?,
        step: Some(content.step),
    })
}

/// The edits of an element where it stands.
fn made_from(
    alloc: Global,
    schema: &Schema,
    under: Under,
    operation: EditOperation,
    merge: Edit,
    place: Place,
    below: Many<Edit>,
) -> Result<Many<Edit>, Memory>
    ensures { IfOk result (λ it. it ≡ meant.made schema.now under operation merge place below) }
{
    match under {
        Under::Edited { .. } => edited_from(alloc, schema, operation, merge, place, below),
        Under::Rows { .. } | Under::Inline => before_all(alloc, merge, below),
        Under::Dropped { .. } | Under::BelowDropped => Ok(Many::new(alloc)),
    }
}

fn before_all(alloc: Global, edit: Edit, below: Many<Edit>) -> Result<Many<Edit>, Memory>
    ensures { IfOk result (λ it. it ≡ edit ∷ below) }
{
    let mut edits = Many::new(alloc);
    edits.push(edit)?;
    edits.append(below)?;
    Ok(edits)
}

fn edited_from(
    alloc: Global,
    schema: &Schema,
    operation: EditOperation,
    merge: Edit,
    place: Place,
    below: Many<Edit>,
) -> Result<Many<Edit>, Memory>
    ensures { IfOk result (λ it. it ≡
        edit_at merge.path (meant.action_by schema.now operation merge.action (merge ∷ below)) place
        ∷ meant.stays_by operation below) }
{
    match operation {
        EditOperation::Merge => with_action(alloc, merge.path, merge.action, place, below),
        EditOperation::Nothing => {
            with_action(alloc, path_of(merge), Action::Nothing, place, below)
        }
        EditOperation::Delete => alone(alloc, merge, Action::Delete, place, below),
        EditOperation::Remove => alone(alloc, merge, Action::Remove, place, below),
        EditOperation::Create => created(alloc, schema, merge, place, below),
        EditOperation::Replace => replaced(alloc, schema, merge, place, below),
    }
}

fn path_of(edit: Edit) -> Path
    ensures { result ≡ edit.path }
{
    edit.path
}

/// One edit with an action that leaves none below it.
fn alone(
    alloc: Global,
    merge: Edit,
    action: Action,
    place: Place,
    below: Many<Edit>,
) -> Result<Many<Edit>, Memory>
    ensures { IfOk result (λ it. it ≡ edit_at merge.path action place ∷ []) }
{
    drop(below);
    with_action(alloc, path_of(merge), action, place, Many::new(alloc))
}

/// The node of a merge, with the rows that it leaves with those below it, from nothing.
#[derive(Drop)]
struct Whole {
    path: Path,
    rows: Many<Row>,
}

fn made_whole(
    alloc: Global,
    schema: &Schema,
    merge: Edit,
    below: Many<Edit>,
) -> Result<Whole, Memory>
    ensures path { IfOk result (λ it. it.path ≡ merge.path) }
    ensures rows { IfOk result (λ it. it.rows ≡ meant.rows_merged schema.now (merge ∷ below)) }
{
    let path = match merge.path.copy() {
        Ok(path) => path,
        Err(memory) => {
            drop(merge);
            drop(below);
            return Err(memory);
        }
    };
    let rows = subtree(alloc, schema, merge, below)?;
    Ok(Whole { path, rows })
}

/// The node is made with all that merges leave at and below it.
fn created(
    alloc: Global,
    schema: &Schema,
    merge: Edit,
    place: Place,
    below: Many<Edit>,
) -> Result<Many<Edit>, Memory>
    ensures { IfOk result (λ it. it ≡ edit_at merge.path
        (Create (meant.rows_merged schema.now (merge ∷ below))) place ∷ []) }
{
    match made_whole(alloc, schema, merge, below) {
        Ok(whole) => {
            let Whole { path, rows } = whole;
            with_action(
                alloc,
                path,
                Action::Create { rows },
                place,
                Many::new(alloc),
            )
        }
        Err(memory) => {
            drop(place);
            Err(memory)
        }
    }
}

/// The same, in the place of what stands there.
fn replaced(
    alloc: Global,
    schema: &Schema,
    merge: Edit,
    place: Place,
    below: Many<Edit>,
) -> Result<Many<Edit>, Memory>
    ensures { IfOk result (λ it. it ≡ edit_at merge.path
        (Replace (meant.rows_merged schema.now (merge ∷ below))) place ∷ []) }
{
    match made_whole(alloc, schema, merge, below) {
        Ok(whole) => {
            let Whole { path, rows } = whole;
            with_action(
                alloc,
                path,
                Action::Replace { rows },
                place,
                Many::new(alloc),
            )
        }
        Err(memory) => {
            drop(place);
            Err(memory)
        }
    }
}

fn with_action(
    alloc: Global,
    path: Path,
    action: Action,
    place: Place,
    below: Many<Edit>,
) -> Result<Many<Edit>, Memory>
    ensures { IfOk result (λ it. it ≡ edit_at path action place ∷ below) }
{
    before_all(
        alloc,
        Edit {
            path,
            action,
            place,
        },
        below,
    )
}

/// The configuration of the rows that merges leave, made one after another, from nothing. The merges are let
/// go before it is made of the rows: there may be many.
pub(crate) fn config_merged(
    alloc: Global,
    schema: &Schema,
    merges: Many<Edit>,
) -> Result<Config, Memory>
    ensures { IfOk result (λ it. it ≡ meant.rows_merged schema.now merges) }
{
    match in_order(alloc, schema, &merges)? {
        Some(rows) => {
            drop(merges);
            Config::from_rows(rows)
        }
        None => one_by_one(alloc, schema, &merges),
    }
}

fn one_by_one(alloc: Global, schema: &Schema, merges: &Many<Edit>) -> Result<Config, Memory>
    ensures { IfOk result (λ it. it ≡ meant.rows_merged schema.now merges.now) }
{
    let mut config = Config::empty(alloc);
    for merge in merges.as_slice() {
        make(alloc, schema, &mut config, merge)?;
    }
    Ok(config)
}

fn subtree(
    alloc: Global,
    schema: &Schema,
    merge: Edit,
    below: Many<Edit>,
) -> Result<Many<Row>, Memory>
    ensures { IfOk result (λ it. it ≡ meant.rows_merged schema.now (merge ∷ below)) }
{
    rows_merged(alloc, schema, &before_all(alloc, merge, below)?)
}

/// The rows of a subtree: what merges leave that are made one after another, from nothing.
pub(crate) fn rows_merged(
    alloc: Global,
    schema: &Schema,
    merges: &Many<Edit>,
) -> Result<Many<Row>, Memory>
    ensures { IfOk result (λ it. it ≡ meant.rows_merged schema.now merges.now) }
{
    match in_order(alloc, schema, merges)? {
        Some(rows) => Ok(rows),
        None => one_by_one(alloc, schema, merges)?.into_rows(),
    }
}
