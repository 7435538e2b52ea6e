//! Access that is denied (RFC 8341 3.4.4, 3.4.5).
ghost use Rattle.std.specs.Prelude.{◌≡◌, not, IfOk};
ghost use Rattle.nc_names.specs.declared.cause.CauseKind.TheVariants.{DataDenied};
ghost use Rattle.nc_protocol.specs.Edited as edited;
ghost use Rattle.nc_model.specs.Verdict as meant;

use crate::reasons::decision_names;
use nc_names::{CauseKind, Copies, Memory, Path, Right};
use nc_protocol::{Cause, Changes, Decision, Rights};
use std::alloc::Global;

/// Why an operation may not be asked for, by the decision on it.
pub fn exec_denied(alloc: Global, decision: Decision) -> Result<Option<Cause>, Memory>
    ensures { IfOk result (λ it. it ≡ meant.exec_denied decision) }
{
    if decision.permit {
        return Ok(None);
    }
    let names = decision_names(alloc, Right::Exec, decision.by)?;
    Ok(Some(Cause {
        kind: CauseKind::ExecDenied,
        path: None,
        names,
    }))
}

// Why a right is not given at a path.
fn denied_at<R: Rights>(
    alloc: Global,
    rights: &R,
    right: Right,
    path: &Path,
) -> Result<Option<Cause>, Memory>
    ensures { IfOk result (λ it. it ≡ edited.cause_where (not (R.decided rights.now path.now right).permit)
        (edited.cause_at DataDenied path.now
        (edited.decision_names right (R.decided rights.now path.now right).by))) }
{
    let decision = rights.may(path, right)?;
    if decision.permit {
        return Ok(None);
    }
    let names = decision_names(alloc, right, decision.by)?;
    Ok(Some(Cause::at(CauseKind::DataDenied, path.copy()?, names)))
}

// The first of some paths at which a right is not given.
#[tactic(auto, using(crate::proofs::Denying::denied_next, crate::proofs::Denying::denied_found, crate::proofs::Denying::denied_nowhere))]
fn denied_among<R: Rights>(
    alloc: Global,
    rights: &R,
    right: Right,
    paths: &[Path],
) -> Result<Option<Cause>, Memory>
    ensures { IfOk result (λ it. it ≡ meant.denied_among (R.decided rights.now) right paths.now) }
{
    for path in paths {
        if let Some(cause) = denied_at(alloc, rights, right, path)? {
            return Ok(Some(cause));
        }
    }
    Ok(None)
}

/// The first change that is denied: of those that delete, then of those that update and that create.
pub fn changes_denied<R: Rights>(
    alloc: Global,
    rights: &R,
    changes: &Changes,
) -> Result<Option<Cause>, Memory>
    ensures { IfOk result (λ it. it ≡ meant.changes_denied (R.decided rights.now) changes.now) }
{
    if let Some(cause) = denied_among(alloc, rights, Right::Delete, changes.deleted.as_slice())? {
        return Ok(Some(cause));
    }
    if let Some(cause) = denied_among(alloc, rights, Right::Update, changes.updated.as_slice())? {
        return Ok(Some(cause));
    }
    denied_among(alloc, rights, Right::Create, changes.created.as_slice())
}
