//! Whether a node is there though it is created, or is not though it has to be; and whether an anchor is.
ghost use Rattle.std.specs.Prelude.{◌≡◌, [], false, not, IfOk, option_map};
ghost use Rattle.std.specs.Option.{option_map_or};
ghost use Rattle.nc_protocol.specs.Edited as meant;
ghost use Rattle.nc_names.specs.declared.cause.CauseKind.TheVariants.{Absent};
ghost use Rattle.nc_schema.specs.Blocks as blocks;
ghost use Rattle.nc_schema.specs.Kinds as kinds;
ghost use Rattle.nc_schema.specs.Standing as standing;
ghost use Rattle.nc_tree.specs.inner.Lacking as lacking;
ghost use Rattle.nc_edit.specs.inner.Alone as alone;

use nc_names::{CauseKind, Copies, Many, Memory, Path, Place, Step, Text};
use nc_protocol::{Action, Edit};
use nc_schema::{Kind, Schema};
use nc_tree::{Config, node_of};
use std::alloc::Global;

fn is_plain_container(kind: Kind) -> bool
    ensures { result ≡ kinds.is_plain_container kind }
{
    match kind {
        Kind::Container { presence } => !presence,
        Kind::Leaf | Kind::LeafList | Kind::List => false,
    }
}

fn is_plain_at(schema: &Schema, path: &Path) -> bool
    ensures { result ≡ blocks.at_node schema.now path.now kinds.is_plain_container }
{
    match node_of(schema, path.steps.as_slice()) {
        Some(node) => is_plain_container(node.kind),
        None => false,
    }
}

fn is_there(schema: &Schema, config: &Config, path: &Path) -> bool
    ensures { result ≡ meant.is_there schema.now config.now path.now }
{
    if is_plain_at(schema, path) {
        !config.lacks_above(schema, path)
    } else {
        config.exists(path)
    }
}

/// Whether a node of the kind has a row where it exists.
pub(crate) fn stands_for_itself(kind: Kind) -> bool
    ensures { result ≡ kinds.stands_for_itself kind }
{
    match kind {
        Kind::Container { presence } => presence,
        Kind::Leaf | Kind::LeafList => false,
        Kind::List => true,
    }
}

fn path_of(alloc: Global, steps: &[Step]) -> Result<Path, Memory>
    ensures { IfOk result (λ it. it.steps ≡ steps.now) }
{
    let mut all = Many::new(alloc);
    for step in steps {
        all.push(step.copy()?)?;
    }
    Ok(Path { steps: all })
}

// Whether the node at these steps has a row where it exists, and does not.
#[tactic(auto, unfolding(nc_tree::specs::inner::Lacking::lacks))]
fn lacks(alloc: Global, schema: &Schema, config: &Config, steps: &[Step]) -> Result<bool, Memory>
    ensures { IfOk result (λ it. it ≡ lacking.lacks schema.now config.now steps.now) }
{
    let Some(node) = node_of(schema, steps) else {
        return Ok(false);
    };
    if !stands_for_itself(node.kind) {
        return Ok(false);
    }
    let path = path_of(alloc, steps)?;
    Ok(!config.has(&path))
}

// Whether an entry or a container with presence above a path does not stand, so many steps deep or deeper.
#[tactic(auto, using(crate::proofs::AloneLemmas::lacks_found, crate::proofs::AloneLemmas::lacks_more, crate::proofs::AloneLemmas::lacks_end))]
fn lacks_from(
    alloc: Global,
    schema: &Schema,
    config: &Config,
    steps: &[Step],
    from: usize,
) -> Result<bool, Memory>
    ensures { IfOk result (λ it. it ≡ alone.lacks_at schema.now config.now from steps.now) }
{
    for at in from..steps.len() {
        let lacking = lacks(alloc, schema, config, &steps[..at])?;
        if lacking {
            return Ok(true);
        }
    }
    Ok(false)
}

fn is_there_from(
    alloc: Global,
    schema: &Schema,
    config: &Config,
    path: &Path,
    from: usize,
) -> Result<bool, Memory>
    ensures { IfOk result (λ it. it ≡ alone.is_there_at schema.now from config.now path.now) }
{
    if is_plain_at(schema, path) {
        let lacking = lacks_from(alloc, schema, config, path.steps.as_slice(), from)?;
        Ok(!lacking)
    } else {
        Ok(config.exists(path))
    }
}

// Absent, where an entry or a container with presence above the path, so many steps deep or deeper, does not
// stand.
fn absent_from(
    alloc: Global,
    schema: &Schema,
    config: &Config,
    path: &Path,
    from: usize,
) -> Result<Option<CauseKind>, Memory>
    ensures { IfOk result (λ it. option_map (λ kind. meant.cause_at kind path.now []) it
        ≡ meant.cause_where (alone.lacks_at schema.now config.now from path.now.steps)
        (meant.cause_at Absent path.now [])) }
{
    let lacking = lacks_from(alloc, schema, config, path.steps.as_slice(), from)?;
    if lacking {
        return Ok(Some(CauseKind::Absent));
    }
    Ok(None)
}

/// The same as `missed`, where what stands above so many steps of the path is there.
pub(crate) fn missed_from(
    alloc: Global,
    schema: &Schema,
    config: &Config,
    path: &Path,
    action: &Action,
    from: usize,
) -> Result<Option<CauseKind>, Memory>
    ensures { IfOk result (λ it. option_map (λ kind. meant.cause_at kind path.now []) it
        ≡ alone.missed_at schema.now from config.now path.now action.now) }
{
    match action {
        Action::Nothing => {
            let there = is_there_from(alloc, schema, config, path, from)?;
            if there {
                return Ok(None);
            }
            Ok(Some(CauseKind::Absent))
        }
        Action::Merge { .. } | Action::Replace { .. } => {
            absent_from(alloc, schema, config, path, from)
        }
        Action::Create { .. } => {
            if config.exists(path) {
                return Ok(Some(CauseKind::Exists));
            }
            absent_from(alloc, schema, config, path, from)
        }
        Action::Delete => {
            if config.exists(path) {
                return Ok(None);
            }
            Ok(Some(CauseKind::Absent))
        }
        Action::Remove => Ok(None),
    }
}

/// The node is there though it is created, or is not though it has to be (RFC 6241 7.2).
pub(crate) fn missed(
    schema: &Schema,
    config: &Config,
    path: &Path,
    action: &Action,
) -> Option<CauseKind>
    ensures { option_map (λ kind. meant.cause_at kind path.now []) result
        ≡ meant.missed schema.now config.now path.now action.now }
{
    match action {
        Action::Nothing => {
            if is_there(schema, config, path) {
                return None;
            }
            Some(CauseKind::Absent)
        }
        Action::Merge { .. } | Action::Replace { .. } => absent_above(schema, config, path),
        Action::Create { .. } => {
            if config.exists(path) {
                return Some(CauseKind::Exists);
            }
            absent_above(schema, config, path)
        }
        Action::Delete => {
            if config.exists(path) {
                return None;
            }
            Some(CauseKind::Absent)
        }
        Action::Remove => None,
    }
}

// Absent, where an entry or a container with presence above the path does not stand.
fn absent_above(schema: &Schema, config: &Config, path: &Path) -> Option<CauseKind>
    ensures { option_map (λ kind. meant.cause_at kind path.now []) result
        ≡ meant.cause_where (standing.lacks_above schema.now config.now path.now.steps)
        (meant.cause_at Absent path.now []) }
{
    if config.lacks_above(schema, path) {
        return Some(CauseKind::Absent);
    }
    None
}

fn lacks_entry(config: &Config, path: &Path, anchor: &Many<Text>) -> Result<bool, Memory>
    ensures { IfOk result (λ it. it ≡ not (standing.has_entry anchor.now
        (blocks.entries_beside config.now path.now.steps))) }
{
    Ok(!config.has_beside(path, anchor)?)
}

/// Whether the anchor of a place does not stand.
pub(crate) fn lacks_anchor(config: &Config, edit: &Edit) -> Result<bool, Memory>
    ensures { IfOk result (λ it. it ≡ meant.lacks_anchor config.now edit.now) }
{
    match &edit.action {
        Action::Nothing | Action::Delete | Action::Remove => Ok(false),
        Action::Merge { .. } | Action::Create { .. } | Action::Replace { .. } => {
            lacks_place(config, &edit.path, &edit.place)
        }
    }
}

fn lacks_place(config: &Config, path: &Path, place: &Place) -> Result<bool, Memory>
    ensures { IfOk result (λ it. it ≡ option_map_or (λ anchor. not (standing.has_entry anchor
        (blocks.entries_beside config.now path.now.steps))) (meant.anchor_of place.now) false) }
{
    match place {
        Place::Before(anchor) => lacks_entry(config, path, anchor),
        Place::After(anchor) => lacks_entry(config, path, anchor),
        Place::Kept | Place::First | Place::Last => Ok(false),
    }
}
