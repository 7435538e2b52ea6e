//! The `path` statements of a type that is a union.
ghost use Rattle.std.specs.Prelude.{◌≡◌, Bool, List, IfOk, OnOk};
ghost use Rattle.nc_yang_types.specs.declared.planned.Meanings.{Meanings as Plans};
ghost use Rattle.nc_yang_leafs.specs.Marks.{AreMarks};
ghost use Rattle.nc_yang_leafs.specs.inner.Plans as plans;
ghost use Rattle.nc_yang_leafs.specs.inner.Walks as words;

use crate::{is_marked, plan_at};
use nc_names::{Many, Memory};
use nc_yang_types::{Meanings, Planned};
use std::alloc::Global;
use std::collections::BTreeSet;

/// What was met on the way from a plan to its members.
#[derive(Drop)]
pub(crate) struct Walk {
    /// The numbers of the plans, each once. Those that are not looked at yet are at the end.
    pub plans: Many<usize>,
    /// The same numbers.
    pub seen: BTreeSet<usize>,
    /// The numbers of the `path` statements of those that were looked at.
    pub paths: Many<usize>,
}

impl Walk {
    // With a plan, unless it was met.
    fn with(&mut self, plan: usize) -> Result<(), Memory>
        ensures { OnOk result (words.Queues (λ q. q ≡ plan) self.old self.new) }
    {
        if self.seen.contains(&plan) {
            return Ok(());
        }
        self.seen.insert(plan)?;
        self.plans.push(plan)?;
        Ok(())
    }

    // With the plan of a `type` statement, if it is marked.
    fn with_member(
        &mut self,
        meanings: &Meanings,
        marks: &[bool],
        member: usize,
    ) -> Result<(), Memory>
        ensures { OnOk result (words.Queues (words.IsMarkedAt meanings.now.findings marks.now member)
            self.old self.new) }
    {
        let Some(plan) = plan_at(meanings, member) else {
            return Ok(());
        };
        if !is_marked(marks, plan) {
            return Ok(());
        }
        self.with(plan)?;
        Ok(())
    }

    // With those of several.
    fn with_members(
        &mut self,
        meanings: &Meanings,
        marks: &[bool],
        members: &[usize],
    ) -> Result<(), Memory>
        ensures { OnOk result (words.Queues (words.IsMarkedAmong meanings.now.findings marks.now members.now)
            self.old self.new) }
    {
        for member in members {
            self.with_member(meanings, marks, *member)?;
        }
        Ok(())
    }

    // With the path of a plan and the marked plans of its members.
    fn look(&mut self, meanings: &Meanings, marks: &[bool], plan: usize) -> Result<(), Memory>
        ensures { OnOk result (words.Looks meanings.now marks.now plan self.old self.new) }
    {
        let Some(planned) = meanings.plans.get(plan) else {
            return Ok(());
        };
        match planned {
            Planned::Leafref { path, .. } => {
                self.paths.push(*path)?;
                Ok(())
            }
            Planned::Members(members) => {
                self.with_members(meanings, marks, members.as_slice())?;
                Ok(())
            }
            Planned::Finished { .. } | Planned::Bases(_) => Ok(()),
        }
    }
}

// A walk that has come to a plan.
fn start(alloc: Global, plan: usize) -> Result<Walk, Memory>
    ensures { IfOk result (λ it. (meanings : Plans) (marks : List Bool)
        → words.IsOnWay meanings marks plan 0 it) }
{
    let mut walk = Walk {
        plans: Many::new(alloc),
        seen: BTreeSet::new(alloc),
        paths: Many::new(alloc),
    };
    walk.with(plan)?;
    Ok(walk)
}

// The paths of a plan and of its members.
fn walked(
    alloc: Global,
    meanings: &Meanings,
    marks: &[bool],
    plan: usize,
) -> Result<Many<usize>, Memory>
    requires { AreMarks meanings.now marks.now }
    ensures { IfOk result (plans.ArePlanPaths meanings.now plan) }
{
    let mut walk = start(alloc, plan)?;
    for at in 0..usize::MAX {
        let Some(next) = walk.plans.get(at).copied() else {
            let Walk { paths, .. } = walk;
            return Ok(paths);
        };
        walk.look(meanings, marks, next)?;
    }
    Err(Memory)
}

/// The numbers of the `path` statements of a plan that is a leafref, or of the leafrefs among its members.
/// What is not marked is passed over.
pub(crate) fn plan_paths(
    alloc: Global,
    meanings: &Meanings,
    marks: &[bool],
    plan: usize,
) -> Result<Many<usize>, Memory>
    requires { AreMarks meanings.now marks.now }
    ensures { IfOk result (plans.ArePlanPaths meanings.now plan) }
{
    if is_marked(marks, plan) {
        walked(alloc, meanings, marks, plan)
    } else {
        Ok(Many::new(alloc))
    }
}
