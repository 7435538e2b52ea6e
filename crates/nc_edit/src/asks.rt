//! The rights that an edit needs: asked for one change after another, or all of them given.
ghost use Rattle.std.specs.Prelude.{◌≡◌, true, IfOk, None, option_map};
ghost use Rattle.nc_names.specs.declared.path.Path.{Path};
ghost use Rattle.nc_names.specs.declared.path.Right.{Right};
ghost use Rattle.nc_protocol.specs.declared.access.Decision.{Decision};
ghost use Rattle.nc_protocol.specs.Edited as meant;
ghost use Rattle.nc_protocol.specs.Unchecked.{every_right};
ghost use Rattle.nc_edit.specs.inner.Denied as denied;

use crate::asked::{Asking, ask_dropped, ask_new, is_ordered, may_move, refs};
use crate::causes::{cause_at, decision_names};
use crate::single::are_single;
use nc_made::{keeps_rows, make, new_block};
use nc_names::{CauseKind, Copies, Many, Memory, Path, Row};
use nc_protocol::{Cause, Edit, Rights};
use nc_schema::Schema;
use nc_tree::{Config, RowsByPath};
use std::alloc::Global;

/// Knows whether the changes of an edit are permitted.
pub(crate) trait Asks {
    ghost use Rattle.nc_names.specs.declared.path.Path.{Path};
    ghost use Rattle.nc_names.specs.declared.path.Right.{Right};
    ghost use Rattle.nc_protocol.specs.declared.access.Decision.{Decision};

    /// The decision for a path and a right.
    ghost decided: { Self → Path → Right → Decision };

    /// The cause of the first change of an edit that is denied (RFC 8341 3.4.5).
    fn denied(
        &self,
        alloc: Global,
        schema: &Schema,
        config: &Config,
        edit: &Edit,
    ) -> Result<Option<Cause>, Memory>
        ensures { IfOk result (λ it. it ≡ meant.denied_cause (decided self.now)
            (meant.first_denied schema.now (decided self.now) config.now edit.now)) };
}

/// Every right is given, so that no change is looked at.
#[derive(Drop)]
pub(crate) struct Free;

impl Asks for Free {
    ghost decided = { λ _ path right. every_right path right };

    #[tactic(auto, using(crate::proofs::FreeLemmas::none_denied))]
    fn denied(
        &self,
        _alloc: Global,
        _schema: &Schema,
        _config: &Config,
        _edit: &Edit,
    ) -> Result<Option<Cause>, Memory> {
        Ok(None)
    }
}

/// Rights that are asked for one change after another.
#[derive(Drop)]
pub(crate) struct Asked<'a, R> {
    pub(crate) rights: &'a R,
}

impl<'a, R: Rights> Asks for Asked<'a, R> {
    ghost decided = { λ asked path right. R.decided asked.rights.now path right };

    fn denied(
        &self,
        alloc: Global,
        schema: &Schema,
        config: &Config,
        edit: &Edit,
    ) -> Result<Option<Cause>, Memory> {
        if changes_nothing(alloc, schema, config, edit)? {
            return Ok(None);
        }
        first_denied(alloc, schema, config, edit, self.rights)
    }
}

// The cause of a change that is denied.
fn denied_cause<R: Rights>(
    alloc: Global,
    rights: &R,
    first: Option<Asking>,
) -> Result<Option<Cause>, Memory>
    ensures { IfOk result (λ it. it ≡ meant.denied_cause (R.decided rights.now)
        (option_map denied.meaning first)) }
{
    match first {
        Some(asking) => {
            let decision = rights.may(&asking.path, asking.right)?;
            let names = decision_names(alloc, asking.right, &decision.by)?;
            Ok(Some(cause_at(CauseKind::DataDenied, &asking.path, names)?))
        }
        None => Ok(None),
    }
}

// The cause of the first change that is denied, from one configuration to another.
fn denied_among<'a, R: Rights>(
    alloc: Global,
    schema: &Schema,
    config: &'a Config,
    after: &'a Config,
    block: &'a Many<Row>,
    path: &Path,
    rights: &R,
) -> Result<Option<Cause>, Memory>
    ensures { IfOk result (λ it. it ≡ meant.denied_cause (R.decided rights.now)
        (denied.first_among schema.now (R.decided rights.now) config.now after.now path.now block.now)) }
{
    let old = config.rows_at(path)?;
    let stood = RowsByPath::new(alloc, old.as_slice())?;
    let new = refs(alloc, block)?;
    let placed = RowsByPath::new(alloc, new.as_slice())?;
    let dropped = ask_dropped(schema, config, rights, old.as_slice(), &placed, block)?;
    let first = ask_new(
        alloc, schema, config, after, rights, dropped, path, &stood, block,
    )?;
    denied_cause(alloc, rights, first)
}

// What an edit leaves, whatever stands in its way.
fn left_by(alloc: Global, schema: &Schema, config: &Config, edit: &Edit) -> Result<Config, Memory>
    ensures { IfOk result (λ it. it ≡ meant.left_by schema.now config.now edit.now) }
{
    let mut after = config.copy()?;
    make(alloc, schema, &mut after, edit)?;
    Ok(after)
}

// What stands after an edit, or before it where no row of the edit can tell the two apart.
#[tactic(auto, using(crate::proofs::FirstDenied::first_is, crate::proofs::FirstDenied::first_kept))]
fn outcome(
    alloc: Global,
    schema: &Schema,
    config: &Config,
    block: &Many<Row>,
    edit: &Edit,
) -> Result<Config, Memory>
    requires { block.now ≡ meant.new_block schema.now config.now edit.now.path edit.now.action }
    ensures { IfOk result (λ it. (rights : Path → Right → Decision) →
        denied.first_among schema.now rights config.now it edit.now.path block.now
        ≡ meant.first_denied schema.now rights config.now edit.now) }
{
    if may_move(schema, config, block) {
        return left_by(alloc, schema, config, edit);
    }
    config.copy()
}

// The cause of the first change that is denied.
fn first_denied<R: Rights>(
    alloc: Global,
    schema: &Schema,
    config: &Config,
    edit: &Edit,
    rights: &R,
) -> Result<Option<Cause>, Memory>
    ensures { IfOk result (λ it. it ≡ meant.denied_cause (R.decided rights.now)
        (meant.first_denied schema.now (R.decided rights.now) config.now edit.now)) }
{
    let before = config.copy()?;
    let block = new_block(alloc, schema, &before, &edit.path, &edit.action)?;
    let after = outcome(alloc, schema, &before, &block, edit)?;
    denied_among(alloc, schema, &before, &after, &block, &edit.path, rights)
}

// Whether an edit leaves its node as it stands, with one value at each path, and where it is. The rows are
// gone over only where it is not seen at once that each path stands once.
#[tactic(auto, using(crate::proofs::StillLemmas::single_marked))]
fn changes_nothing(
    alloc: Global,
    schema: &Schema,
    config: &Config,
    edit: &Edit,
) -> Result<bool, Memory>
    ensures { IfOk result (λ it. it ≡ true → (rights : Path → Right → Decision) →
        None ≡ meant.first_denied schema.now rights config.now edit.now) }
{
    if !keeps_rows(schema, config, &edit.path, &edit.action) {
        return Ok(false);
    }
    if is_ordered(schema, &edit.path) {
        return Ok(false);
    }
    if config.is_single_at(&edit.path)? {
        return Ok(true);
    }
    let rows = config.rows_at(&edit.path)?;
    are_single(alloc, edit.path.steps.len(), rows.as_slice())
}
