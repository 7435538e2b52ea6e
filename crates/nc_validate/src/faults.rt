//! Violations, each with the path of its node.
ghost use Rattle.std.specs.Prelude.{◌≡◌, ◌++◌, ◌∷◌, [], is_some, IfOk};

use nc_defaults::steps_below;
use nc_names::{CauseKind, Copies, Many, Memory, Path, Step};
use nc_schema::Violation;
use std::alloc::Global;

fn copied(alloc: Global, steps: &[Step]) -> Result<Many<Step>, Memory>
    ensures { IfOk result (λ it. it ≡ steps.now) }
{
    let mut out = Many::new(alloc);
    for step in steps {
        out.push(step.copy()?)?;
    }
    Ok(out)
}

/// A violation at a node.
pub(crate) fn violation(alloc: Global, kind: CauseKind, steps: &[Step]) -> Result<Violation, Memory>
    ensures { IfOk result (λ it. it ≡ record { kind = kind; path = record { steps = steps.now } }) }
{
    let steps = copied(alloc, steps)?;
    Ok(Violation {
        kind,
        path: Path { steps },
    })
}

/// A violation at a data node of a place, without an entry.
pub(crate) fn violation_below(
    alloc: Global,
    kind: CauseKind,
    steps: &[Step],
    number: u32,
) -> Result<Violation, Memory>
    ensures { IfOk result (λ it. it ≡ record {
      kind = kind;
      path = record {
        steps = steps.now
            ++ record { node = number; keys = [] } ∷ [];
      };
    }) }
{
    let step = Step {
        node: number,
        keys: Many::new(alloc),
    };
    let steps = steps_below(steps, alloc, step)?;
    Ok(Violation {
        kind,
        path: Path { steps },
    })
}

/// Whether there is a violation.
pub(crate) fn is_found(found: &Option<Violation>) -> bool
    ensures { result ≡ is_some found.now }
{
    found.is_some()
}
