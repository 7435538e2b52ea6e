//! Edits one after another, with the rights that they need.
ghost use Rattle.std.specs.Prelude.{◌≡◌, ◌||◌, ℕ, [], IfOk, OnOk, OnErr, fold, take};
ghost use Rattle.nc_protocol.specs.Applied as applied;
ghost use Rattle.nc_protocol.specs.Edited as meant;
ghost use Rattle.nc_protocol.specs.Unchecked.{every_right};
ghost use Rattle.nc_protocol.specs.declared.asked.ErrorOption.TheVariants.{Rollback};
ghost use Rattle.nc_edit.specs.Partly.{LeavesPart};
ghost use Rattle.nc_edit.specs.inner.Turns as turns;

use crate::alone::run_freely;
use crate::asks::{Asked, Asks};
use crate::causes::{anchor_names, cause_at};
use crate::missed::{lacks_anchor, missed};
use nc_made::make;
use nc_names::{CauseKind, Copies, Many, Memory};
use nc_protocol::{Cause, Edit, ErrorOption, Rights};
use nc_schema::Schema;
use nc_tree::Config;
use std::alloc::Global;

// Why an edit is refused.
#[tactic(auto, using(crate::proofs::FirstDenied::last_cause))]
fn refusal<A: Asks>(
    alloc: Global,
    schema: &Schema,
    config: &Config,
    edit: &Edit,
    asks: &A,
) -> Result<Option<Cause>, Memory>
    ensures { IfOk result (λ it. it ≡ meant.refusal schema.now (A.decided asks.now) config.now edit.now) }
{
    if let Some(kind) = missed(schema, config, &edit.path, &edit.action) {
        return Ok(Some(cause_at(kind, &edit.path, Many::new(alloc))?));
    }
    if lacks_anchor(config, edit)? {
        let names = anchor_names(alloc, schema, &edit.path)?;
        return Ok(Some(cause_at(CauseKind::MissingInstance, &edit.path, names)?));
    }
    asks.denied(alloc, schema, config, edit)
}

/// Whether a next edit is made: none was refused, or it goes on.
pub(crate) fn goes(goes_on: bool, causes: &Many<Cause>) -> bool
    ensures { result ≡ (goes_on || applied.is_empty causes.now) }
{
    goes_on || causes.is_empty()
}

// One edit more: what it leaves, or one cause more.
fn one_more<A: Asks>(
    alloc: Global,
    schema: &Schema,
    config: &mut Config,
    causes: &mut Many<Cause>,
    edit: &Edit,
    asks: &A,
) -> Result<(), Memory>
    ensures ok { OnOk result (record { rows = config.new; causes = causes.new }
        ≡ applied.continued schema.now (A.decided asks.now)
        (record { rows = config.old; causes = causes.old }) edit.now) }
    ensures err { OnErr result (config.new ≡ config.old) }
{
    match refusal(alloc, schema, config, edit, asks)? {
        Some(cause) => causes.push(cause)?,
        None => make(alloc, schema, config, edit)?,
    }
    Ok(())
}

/// One edit more, unless one was refused and it does not go on.
pub(crate) fn turn<A: Asks>(
    alloc: Global,
    schema: &Schema,
    config: &mut Config,
    causes: &mut Many<Cause>,
    edit: &Edit,
    goes_on: bool,
    asks: &A,
) -> Result<(), Memory>
    ensures ok { OnOk result (record { rows = config.new; causes = causes.new }
        ≡ turns.turn schema.now (A.decided asks.now) goes_on
        (record { rows = config.old; causes = causes.old }) edit.now) }
    ensures err { OnErr result (config.new ≡ config.old) }
{
    if goes(goes_on, causes) {
        return one_more(alloc, schema, config, causes, edit, asks);
    }
    Ok(())
}

// All edits in their order; past one that is refused where it goes on.
fn run<A: Asks>(
    alloc: Global,
    schema: &Schema,
    config: &mut Config,
    edits: &[Edit],
    goes_on: bool,
    asks: &A,
) -> Result<Many<Cause>, Memory>
    ensures ok { IfOk result (λ causes. record { rows = config.new; causes = causes }
        ≡ fold (turns.turn schema.now (A.decided asks.now) goes_on)
        (record { rows = config.old; causes = [] }) edits.now) }
    ensures err { OnErr result ((count : ℕ) × (config.new
        ≡ (fold (turns.turn schema.now (A.decided asks.now) goes_on)
        (record { rows = config.old; causes = [] }) (take count edits.now)).rows)) }
{
    let mut causes = Many::new(alloc);
    for edit in edits {
        turn(alloc, schema, config, &mut causes, edit, goes_on, asks)?;
    }
    Ok(causes)
}

// All edits, or none of them.
fn run_whole<A: Asks>(
    alloc: Global,
    schema: &Schema,
    config: &mut Config,
    edits: &[Edit],
    asks: &A,
) -> Result<Many<Cause>, Memory>
    ensures ok { IfOk result (λ causes. record { rows = config.new; causes = causes }
        ≡ applied.applied schema.now (A.decided asks.now) Rollback config.old edits.now) }
    ensures err { OnErr result (config.new ≡ config.old) }
{
    let mut draft = config.copy()?;
    let causes = run(alloc, schema, &mut draft, edits, false, asks)?;
    if !causes.is_empty() {
        return Ok(causes);
    }
    *config = draft;
    Ok(causes)
}

// Makes edits in their order, under an error-option.
fn applied_by<A: Asks>(
    alloc: Global,
    schema: &Schema,
    config: &mut Config,
    edits: &[Edit],
    on_error: ErrorOption,
    asks: &A,
) -> Result<Many<Cause>, Memory>
    ensures all { IfOk result (λ causes. record { rows = config.new; causes = causes }
        ≡ applied.applied schema.now (A.decided asks.now) on_error config.old edits.now) }
    ensures part { OnErr result (LeavesPart schema.now
        (A.decided asks.now) on_error config.old edits.now config.new) }
{
    match on_error {
        ErrorOption::Stop => run(alloc, schema, config, edits, false, asks),
        ErrorOption::Continue => run(alloc, schema, config, edits, true, asks),
        ErrorOption::Rollback => run_whole(alloc, schema, config, edits, asks),
    }
}

// All edits, or none of them, where every right is given.
fn run_whole_freely(
    alloc: Global,
    schema: &Schema,
    config: &mut Config,
    edits: &[Edit],
) -> Result<Many<Cause>, Memory>
    ensures ok { IfOk result (λ causes. record { rows = config.new; causes = causes }
        ≡ applied.applied schema.now every_right Rollback config.old edits.now) }
    ensures err { OnErr result (config.new ≡ config.old) }
{
    let mut draft = config.copy()?;
    let causes = run_freely(alloc, schema, &mut draft, edits, false)?;
    if !causes.is_empty() {
        return Ok(causes);
    }
    *config = draft;
    Ok(causes)
}

/// Makes edits in their order, with the rights that they need, and answers why some are refused: under
/// `Stop` the first refused one is the last that is looked at, under `Continue` each refused one is left
/// out, and under `Rollback` a refused one leaves the configuration as it was (RFC 6241 7.2, 8.5). Where
/// memory ends the first edits are made, and under `Rollback` none.
pub fn apply<R: Rights>(
    alloc: Global,
    schema: &Schema,
    config: &mut Config,
    edits: &[Edit],
    on_error: ErrorOption,
    rights: &R,
) -> Result<Many<Cause>, Memory>
    ensures all { IfOk result (λ causes. record { rows = config.new; causes = causes }
        ≡ applied.applied schema.now (R.decided rights.now) on_error config.old edits.now) }
    ensures part { OnErr result (LeavesPart schema.now
        (R.decided rights.now) on_error config.old edits.now config.new) }
{
    applied_by(alloc, schema, config, edits, on_error, &Asked { rights })
}

/// The same where every right is given (RFC 8341 3.3.4.1): no change is looked at for its right, so that an
/// edit costs what it touches. A new entry or container with presence is put in once, with what the edits
/// below it bring.
pub fn apply_freely(
    alloc: Global,
    schema: &Schema,
    config: &mut Config,
    edits: &[Edit],
    on_error: ErrorOption,
) -> Result<Many<Cause>, Memory>
    ensures all { IfOk result (λ causes. record { rows = config.new; causes = causes }
        ≡ applied.applied schema.now every_right on_error config.old edits.now) }
    ensures part { OnErr result (LeavesPart schema.now
        every_right on_error config.old edits.now config.new) }
{
    match on_error {
        ErrorOption::Stop => run_freely(alloc, schema, config, edits, false),
        ErrorOption::Continue => run_freely(alloc, schema, config, edits, true),
        ErrorOption::Rollback => run_whole_freely(alloc, schema, config, edits),
    }
}
