//! A decision without a copy of the names of the rule that made it.
ghost use Rattle.std.specs.Prelude.{◌≡◌, IfOk};
ghost use Rattle.nc_nacm.specs.inner.Reasons as reasons;

use nc_model::Rule;
use nc_names::{Copies, Memory};
use nc_protocol::{By, Decision};

/// What decided.
#[derive(Clone, Copy)]
pub(crate) enum Reason<'a> {
    Off,
    Recovery,
    CloseSession,
    Ruled(&'a Rule),
    DenyAll,
    DenyWrite,
    OperationDefault,
    Default,
}

/// Whether access is permitted, and by what.
#[derive(Clone, Copy)]
pub(crate) struct Made<'a> {
    pub(crate) permit: bool,
    pub(crate) reason: Reason<'a>,
}

fn by_of(reason: Reason<'_>) -> Result<By, Memory>
    ensures { IfOk result (λ it. it ≡ reasons.by_of reason.entry) }
{
    match reason {
        Reason::Off => Ok(By::Off),
        Reason::Recovery => Ok(By::Recovery),
        Reason::CloseSession => Ok(By::CloseSession),
        Reason::Ruled(rule) => Ok(By::Rule {
            list: rule.list.copy()?,
            rule: rule.name.copy()?,
        }),
        Reason::DenyAll => Ok(By::DenyAll),
        Reason::DenyWrite => Ok(By::DenyWrite),
        Reason::OperationDefault => Ok(By::OperationDefault),
        Reason::Default => Ok(By::Default),
    }
}

/// The decision with the names of the rule.
pub(crate) fn decision_of(made: Made<'_>) -> Result<Decision, Memory>
    ensures { IfOk result (λ it. it ≡ reasons.decision_of made.entry) }
{
    let by = by_of(made.reason)?;
    Ok(Decision {
        permit: made.permit,
        by,
    })
}
