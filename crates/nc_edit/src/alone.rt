//! Edits below a new entry or container with presence: they are made in the rows of that node alone, and
//! these are put in once.
ghost use Rattle.std.specs.Prelude.{◌≡◌, ◌↔◌, ◌||◌, ◌≤◌, ◌<◌, ℕ, [], true, length, take, fold, IfOk, IsTrue};
ghost use Rattle.std.specs.Prelude.{OnOk, OnErr};
ghost use Rattle.std.specs.List.{All};
ghost use Rattle.nc_names.specs.Same as same;
ghost use Rattle.nc_schema.specs.Blocks as blocks;
ghost use Rattle.nc_schema.specs.Kinds as kinds;
ghost use Rattle.nc_names.specs.declared.path.Place.TheVariants.{Kept};
ghost use Rattle.nc_protocol.specs.Applied as applied;
ghost use Rattle.nc_protocol.specs.Edited as meant;
ghost use Rattle.nc_protocol.specs.Unchecked.{every_right};
ghost use Rattle.nc_edit.specs.inner.Alone as alone;
ghost use Rattle.nc_edit.specs.inner.Turns as turns;

use crate::asked::has_case;
use crate::asks::Free;
use crate::behind::push_behind;
use crate::causes::{anchor_names, cause_at};
use crate::edits::{goes, turn};
use crate::missed::{lacks_anchor, missed_from, stands_for_itself};
use nc_branches::is_by_user;
use nc_made::{make, own_block};
use nc_names::{CauseKind, Many, Memory, Path, Place, Row, Step, tail};
use nc_protocol::{Action, Cause, Edit};
use nc_schema::Schema;
use nc_tree::{Config, node_of};
use std::alloc::Global;

// Whether an entry of a list or a container with presence is at the path.
fn is_itself(schema: &Schema, path: &Path) -> bool
    ensures { result ≡ blocks.at_node schema.now path.now kinds.stands_for_itself }
{
    match node_of(schema, path.steps.as_slice()) {
        Some(node) => stands_for_itself(node.kind),
        None => false,
    }
}

/// Whether a step is to no entry that the user orders, and to no node of a case of a choice.
pub(crate) fn is_free(schema: &Schema, step: &Step) -> bool
    ensures { result ≡ alone.is_free schema.now step.now }
{
    !is_by_user(schema, step.node) && !has_case(schema, step.node)
}

// Whether no step is to an entry that the user orders, nor to a node of a case of a choice.
fn are_free(schema: &Schema, steps: &[Step]) -> bool
    ensures { result ≡ true → All (λ step. alone.is_free schema.now step ≡ true) steps.now }
{
    steps.iter().all(|step| is_free(schema, step))
}

fn is_under(path: &Path, row: &Row) -> bool
    ensures { result ≡ same.is_at_or_below path.now.steps row.now.path }
{
    row.path.steps.as_slice().starts_with(path.steps.as_slice())
}

fn are_under(path: &Path, rows: &Many<Row>) -> bool
    ensures { result ≡ true → All (λ row. same.is_at_or_below path.now.steps row.path ≡ true) rows.now }
{
    rows.as_slice().iter().all(|row| is_under(path, row))
}

// Whether the rows that an action brings are at its path or below it.
#[tactic(auto, using(crate::proofs::AloneLemmas::created_under, crate::proofs::AloneLemmas::replaced_under))]
fn brings_under(path: &Path, action: &Action) -> bool
    ensures { result ≡ true → alone.BringsUnder path.now action.now }
{
    match action {
        Action::Create { rows } | Action::Replace { rows } => are_under(path, rows),
        Action::Nothing | Action::Merge { .. } | Action::Delete | Action::Remove => true,
    }
}

// Whether a path goes on below some steps.
#[tactic(auto, using(crate::proofs::AloneLemmas::longer_goes))]
fn goes_below(steps: &[Step], path: &[Step]) -> bool
    ensures { result ≡ true → alone.GoesBelow steps.now path.now }
{
    path.len() > steps.len() && path.starts_with(steps)
}

// Whether an edit is below a node, and brings rows at its path or below it.
fn is_below(steps: &[Step], edit: &Edit) -> bool
    ensures below { result ≡ true → alone.GoesBelow steps.now edit.now.path.steps }
    ensures brings { result ≡ true → alone.BringsUnder edit.now.path edit.now.action }
{
    if !goes_below(steps, edit.path.steps.as_slice()) {
        return false;
    }
    brings_under(&edit.path, &edit.action)
}

// How many of some edits, from the first on, are below a node; none where one of them is of an entry or a
// container with presence, which is made apart itself.
#[tactic(auto, using(crate::proofs::AloneLemmas::below_more))]
fn count_below(schema: &Schema, steps: &[Step], edits: &[Edit]) -> usize
    ensures len { result ≤ length edits.now }
    ensures below { alone.AreBelow steps.now (take result edits.now) }
{
    let mut count = 0;
    for edit in edits {
        if !is_below(steps, edit) {
            return count;
        }
        if is_itself(schema, &edit.path) {
            return 0;
        }
        count += 1;
    }
    count
}

/// Whether it is a merge.
pub(crate) fn is_merge(action: &Action) -> bool
    ensures { result ≡ alone.is_merge action.now }
{
    match action {
        Action::Merge { .. } => true,
        Action::Nothing | Action::Create { .. } | Action::Replace { .. } => false,
        Action::Delete | Action::Remove => false,
    }
}

/// Whether the place is that which a node has.
pub(crate) fn is_kept(place: &Place) -> bool
    ensures { result ≡ true → place.now ≡ Kept }
{
    match place {
        Place::Kept => true,
        Place::First | Place::Last | Place::Before(_) | Place::After(_) => false,
    }
}

// Whether an edit merges a node that does not exist, and is not refused, and the schema alone says where the
// node goes.
#[tactic(auto, using(crate::proofs::AloneLemmas::free_all, crate::proofs::AloneLemmas::some_goes))]
fn is_new(schema: &Schema, config: &Config, edit: &Edit) -> bool
    ensures { result ≡ true → alone.IsNew schema.now config.now edit.now }
{
    let steps = edit.path.steps.as_slice();
    if steps.is_empty() {
        return false;
    }
    if !is_merge(&edit.action) {
        return false;
    }
    if !is_kept(&edit.place) {
        return false;
    }
    if !are_free(schema, steps) {
        return false;
    }
    if config.exists(&edit.path) {
        return false;
    }
    if config.lacks_above(schema, &edit.path) {
        return false;
    }
    true
}

// Why an edit is refused where every right is given, and where what stands above so many steps is there.
fn refusal_from(
    alloc: Global,
    schema: &Schema,
    config: &Config,
    edit: &Edit,
    from: usize,
) -> Result<Option<Cause>, Memory>
    ensures { IfOk result (λ it. it ≡ alone.refusal_at schema.now from config.now edit.now) }
{
    if let Some(kind) = missed_from(alloc, schema, config, &edit.path, &edit.action, from)? {
        return Ok(Some(cause_at(kind, &edit.path, Many::new(alloc))?));
    }
    if lacks_anchor(config, edit)? {
        let names = anchor_names(alloc, schema, &edit.path)?;
        return Ok(Some(cause_at(CauseKind::MissingInstance, &edit.path, names)?));
    }
    Ok(None)
}

// One edit more, unless one was refused and it does not go on.
fn turn_from(
    alloc: Global,
    schema: &Schema,
    config: &mut Config,
    causes: &mut Many<Cause>,
    edit: &Edit,
    from: usize,
    goes_on: bool,
) -> Result<(), Memory>
    ensures { OnOk result (record { rows = config.new; causes = causes.new }
        ≡ alone.turn_at schema.now from goes_on
        (record { rows = config.old; causes = causes.old }) edit.now) }
{
    if !goes(goes_on, causes) {
        return Ok(());
    }
    match refusal_from(alloc, schema, config, edit, from)? {
        Some(cause) => causes.push(cause)?,
        None => make(alloc, schema, config, edit)?,
    }
    Ok(())
}

// All edits in their order.
fn run_from(
    alloc: Global,
    schema: &Schema,
    config: &mut Config,
    causes: &mut Many<Cause>,
    edits: &[Edit],
    from: usize,
    goes_on: bool,
) -> Result<(), Memory>
    ensures { OnOk result (record { rows = config.new; causes = causes.new }
        ≡ fold (alone.turn_at schema.now from goes_on)
        (record { rows = config.old; causes = causes.old }) edits.now) }
{
    for edit in edits {
        turn_from(alloc, schema, config, causes, edit, from, goes_on)?;
    }
    Ok(())
}

fn is_all(count: usize, edits: &[Edit]) -> bool
    ensures { IsTrue result ↔ (count ≡ length edits.now) }
{
    count == edits.len()
}

// A merge of a new node and the edits below it: these are made in its rows alone, which are put in once. The
// first of them may be made without a look, by their rows behind all others.
fn make_alone(
    alloc: Global,
    schema: &Schema,
    config: &mut Config,
    causes: &mut Many<Cause>,
    edit: &Edit,
    edits: &[Edit],
    goes_on: bool,
) -> Result<(), Memory>
    requires new { alone.IsNew schema.now config.now edit.now }
    requires below { alone.AreBelow edit.now.path.steps edits.now }
    requires goes { (goes_on || applied.is_empty causes.now) ≡ true }
    ensures ok { OnOk result (record { rows = config.new; causes = causes.new }
        ≡ fold (alone.turn_at schema.now 1 goes_on) (record {
          rows = meant.left_by schema.now config.old edit.now;
          causes = causes.old;
        }) edits.now) }
    ensures err { OnErr result (config.new ≡ config.old) }
{
    let mut block = own_block(alloc, schema, &edit.path, &edit.action)?;
    let count = push_behind(alloc, schema, &mut block, &edit.path, edits)?;
    if is_all(count, edits) {
        return config.set_block(schema, &edit.path, &Place::Kept, block);
    }
    let mut small = Config::from_rows(block)?;
    let from = edit.path.steps.as_slice().len() + 1;
    let rest = tail(edits, count);
    run_from(alloc, schema, &mut small, causes, rest, from, goes_on)?;
    let part = small.part(&edit.path)?;
    config.set_part(schema, &edit.path, &Place::Kept, &part)
}

// How many of the edits after one are made with it: they are below its node, which is new.
fn count_alone(
    schema: &Schema,
    config: &Config,
    causes: &Many<Cause>,
    edit: &Edit,
    edits: &[Edit],
    goes_on: bool,
) -> usize
    ensures len { result ≤ length edits.now }
    ensures below { alone.AreBelow edit.now.path.steps (take result edits.now) }
    ensures goes { 0 < result → (goes_on || applied.is_empty causes.now) ≡ true }
    ensures new { 0 < result → alone.IsNew schema.now config.now edit.now }
{
    if !goes(goes_on, causes) {
        return 0;
    }
    if !is_itself(schema, &edit.path) {
        return 0;
    }
    let count = count_below(schema, edit.path.steps.as_slice(), edits);
    if count == 0 {
        return 0;
    }
    if !is_new(schema, config, edit) {
        return 0;
    }
    count
}

// The first of some edits, and those that are made with it: how many that are.
#[tactic(auto, using(crate::proofs::AloneLemmas::stretched))]
fn stretch(
    alloc: Global,
    schema: &Schema,
    config: &mut Config,
    causes: &mut Many<Cause>,
    edits: &[Edit],
    goes_on: bool,
) -> Result<usize, Memory>
    ensures len { IfOk result (λ n. n ≤ length edits.now) }
    ensures some { IfOk result (λ n. 0 < length edits.now → 0 < n) }
    ensures ok { IfOk result (λ n. record { rows = config.new; causes = causes.new }
        ≡ fold (turns.turn schema.now every_right goes_on)
        (record { rows = config.old; causes = causes.old }) (take n edits.now)) }
    ensures err { OnErr result (config.new ≡ config.old) }
{
    let Some((edit, more)) = edits.split_first() else {
        return Ok(0);
    };
    let count = count_alone(schema, config, causes, edit, more, goes_on);
    if count == 0 {
        turn(alloc, schema, config, causes, edit, goes_on, &Free)?;
        return Ok(1);
    }
    make_alone(alloc, schema, config, causes, edit, &more[..count], goes_on)?;
    Ok(count + 1)
}

/// All edits in their order where every right is given; past one that is refused where it goes on.
pub(crate) fn run_freely(
    alloc: Global,
    schema: &Schema,
    config: &mut Config,
    edits: &[Edit],
    goes_on: bool,
) -> Result<Many<Cause>, Memory>
    ensures ok { IfOk result (λ causes. record { rows = config.new; causes = causes }
        ≡ fold (turns.turn schema.now every_right goes_on)
        (record { rows = config.old; causes = [] }) edits.now) }
    ensures err { OnErr result ((count : ℕ) × (config.new
        ≡ (fold (turns.turn schema.now every_right goes_on)
        (record { rows = config.old; causes = [] }) (take count edits.now)).rows)) }
{
    let mut causes = Many::new(alloc);
    let mut done: usize = 0;
    'edits: while done < edits.len() {
        done += stretch(alloc, schema, config, &mut causes, &edits[done..], goes_on)?;
    }
    Ok(causes)
}
