//! What an edit leaves.
ghost use Rattle.std.specs.Prelude.{◌≡◌, ◌&&◌, false, true, not, IfOk, OnOk, OnErr};
ghost use Rattle.nc_protocol.specs.Edited as meant;
ghost use Rattle.nc_schema.specs.Standing as standing;
ghost use Rattle.nc_schema.specs.Blocks as blocks;
ghost use Rattle.nc_schema.specs.Kinds as kinds;
ghost use Rattle.nc_protocol.specs.declared.edit.Action.TheVariants.{Merge};
ghost use Rattle.nc_made.specs.Own as own;

use nc_names::{Copies, Many, Memory, Path, Place, Row, Text};
use nc_protocol::{Action, Edit};
use nc_schema::Schema;
use nc_tree::{Config, node_of, rows_of_node};
use std::alloc::Global;

/// Whether a leaf or a leaf-list entry is at the path.
fn is_value_at(schema: &Schema, path: &Path) -> bool
    ensures { result ≡ blocks.at_node schema.now path.now kinds.has_value }
{
    match node_of(schema, path.steps.as_slice()) {
        Some(node) => node.kind.has_value(),
        None => false,
    }
}

// Whether what stands at a path or below it is no value, so that a merge leaves it as it is. Most merges are
// of values, for which nothing is looked up.
#[tactic(auto, using(crate::proofs::KeptLemmas::value_goes, crate::proofs::KeptLemmas::other_stands))]
fn merge_keeps(schema: &Schema, config: &Config, path: &Path) -> bool
    ensures { result ≡ (standing.exists config.now path.now.steps
        && not (blocks.at_node schema.now path.now kinds.has_value)) }
{
    if is_value_at(schema, path) {
        return false;
    }
    config.exists(path)
}

fn merged_block(
    alloc: Global,
    schema: &Schema,
    config: &Config,
    path: &Path,
    value: &Option<Text>,
) -> Result<Many<Row>, Memory>
    ensures { IfOk result (λ it. it ≡ meant.new_block schema.now config.now path.now (Merge value.now)) }
{
    if merge_keeps(schema, config, path) {
        return config.block(path);
    }
    rows_of_node(alloc, schema, path, value)
}

/// The rows at and below the node once an edit is made.
pub fn new_block(
    alloc: Global,
    schema: &Schema,
    config: &Config,
    path: &Path,
    action: &Action,
) -> Result<Many<Row>, Memory>
    ensures { IfOk result (λ it. it ≡ meant.new_block schema.now config.now path.now action.now) }
{
    match action {
        Action::Nothing => config.block(path),
        Action::Merge { value } => merged_block(alloc, schema, config, path, value),
        Action::Create { rows } => rows.copy(),
        Action::Replace { rows } => rows.copy(),
        Action::Delete => Ok(Many::new(alloc)),
        Action::Remove => Ok(Many::new(alloc)),
    }
}

/// The place of an edit: one that does nothing, or that takes away, puts nothing in a place.
fn place_by(action: &Action, place: &Place) -> Result<Place, Memory>
    ensures { IfOk result (λ it. it ≡ meant.place_by action.now place.now) }
{
    match action {
        Action::Nothing => Ok(Place::Kept),
        Action::Delete => Ok(Place::Kept),
        Action::Remove => Ok(Place::Kept),
        Action::Merge { .. } => place.copy(),
        Action::Create { .. } => place.copy(),
        Action::Replace { .. } => place.copy(),
    }
}

/// Whether an edit leaves the rows at and below its node as they are; else it puts rows of its own.
#[tactic(auto, using(crate::proofs::KeptLemmas::merge_kept, crate::proofs::KeptLemmas::merge_put))]
pub fn keeps_rows(schema: &Schema, config: &Config, path: &Path, action: &Action) -> bool
    ensures kept { result ≡ true → meant.new_block schema.now config.now path.now action.now
        ≡ standing.block_at config.now path.now.steps }
    ensures put { result ≡ false → meant.new_block schema.now config.now path.now action.now
        ≡ own.own_block schema.now path.now action.now }
{
    match action {
        Action::Nothing => true,
        Action::Merge { .. } => merge_keeps(schema, config, path),
        Action::Create { .. } | Action::Replace { .. } => false,
        Action::Delete | Action::Remove => false,
    }
}

/// The rows that an edit puts at and below its node, where it does not leave those that stand.
pub fn own_block(
    alloc: Global,
    schema: &Schema,
    path: &Path,
    action: &Action,
) -> Result<Many<Row>, Memory>
    ensures { IfOk result (λ it. it ≡ own.own_block schema.now path.now action.now) }
{
    match action {
        Action::Nothing => Ok(Many::new(alloc)),
        Action::Merge { value } => rows_of_node(alloc, schema, path, value),
        Action::Create { rows } | Action::Replace { rows } => rows.copy(),
        Action::Delete => Ok(Many::new(alloc)),
        Action::Remove => Ok(Many::new(alloc)),
    }
}

/// Makes an edit, whatever stands in its way. Rows that it leaves as they are stay shared. Where memory
/// ends nothing is changed.
pub fn make(alloc: Global, schema: &Schema, config: &mut Config, edit: &Edit) -> Result<(), Memory>
    ensures ok { OnOk result (config.new ≡ meant.left_by schema.now config.old edit.now) }
    ensures err { OnErr result (config.new ≡ config.old) }
{
    let place = place_by(&edit.action, &edit.place)?;
    if keeps_rows(schema, config, &edit.path, &edit.action) {
        let part = config.part(&edit.path)?;
        return config.set_part(schema, &edit.path, &place, &part);
    }
    let block = own_block(alloc, schema, &edit.path, &edit.action)?;
    config.set_block(schema, &edit.path, &place, block)
}
