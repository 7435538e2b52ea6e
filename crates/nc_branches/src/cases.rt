//! Rows of other cases, which give way to new rows (RFC 7950 7.9).
ghost use Rattle.std.specs.Prelude.{◌≡◌, IfOk};
ghost use Rattle.nc_schema.specs.Standing as meant;
ghost use Rattle.nc_branches.specs.inner.Gone.{LeavesStaying};

use crate::siblings::{are_of_other_cases, is_same_step};
use crate::tree::{Tree, Twig};
use nc_names::{Copies, Memory, Step};
use nc_schema::Schema;
use std::alloc::Global;

/// Whether two nodes belong to two cases of one choice (RFC 7950 7.9).
pub fn excludes(schema: &Schema, steps: &[Step], others: &[Step]) -> bool
    ensures { result ≡ meant.excludes schema.now steps.now others.now }
{
    let mut rest = others;
    for step in steps {
        let Some((other, more)) = rest.split_first() else {
            return false;
        };
        if !is_same_step(step, other) {
            return are_of_other_cases(schema, step.node, other.node);
        }
        rest = more;
    }
    false
}

impl Twig {
    /// The path to the first node that the node at a path excludes, so many steps below the top.
    #[cycle(excluded)]
    fn excluded(&self, schema: &Schema, steps: &[Step], depth: usize) -> Option<&[Step]> {
        let path = self.row.get().path.steps.as_slice();
        let asked = steps.get(depth)?;
        let own = path.get(depth)?;
        if is_same_step(own, asked) {
            return self.below.excluded(schema, steps, depth.saturating_add(1));
        }
        if are_of_other_cases(schema, asked.node, own.node) {
            return Some(path);
        }
        None
    }
}

impl Tree {
    /// The same among siblings.
    #[cycle(excluded)]
    fn excluded(&self, schema: &Schema, steps: &[Step], depth: usize) -> Option<&[Step]> {
        let fork = self.fork()?;
        if let Some(path) = fork.left.excluded(schema, steps, depth) {
            return Some(path);
        }
        if let Some(path) = fork.twig.excluded(schema, steps, depth) {
            return Some(path);
        }
        fork.right.excluded(schema, steps, depth)
    }

    /// The rows without those at and below a node, where the node at a path excludes it.
    #[tactic(auto, using(crate::proofs::GoneLemmas::same_left, crate::proofs::GoneLemmas::leaves_staying))]
    fn without_excluded(
        &self,
        alloc: Global,
        schema: &Schema,
        steps: &[Step],
        path: &[Step],
    ) -> Result<Tree, Memory>
        ensures { IfOk result (λ it. LeavesStaying schema.now steps.now self.now.rows it.rows) }
    {
        if !excludes(schema, steps, path) {
            return self.copy();
        }
        self.without(alloc, path)
    }

    /// The rows without those that the node at a path excludes.
    #[tactic(auto, using(crate::proofs::GoneLemmas::same_left, crate::proofs::GoneLemmas::left_chain))]
    pub(crate) fn without_others(
        &self,
        alloc: Global,
        schema: &Schema,
        steps: &[Step],
    ) -> Result<Tree, Memory>
        ensures { IfOk result (λ it. LeavesStaying schema.now steps.now self.now.rows it.rows) }
    {
        let mut rest = self.copy()?;
        for _ in 0..self.len() {
            let next = match rest.excluded(schema, steps, 0) {
                None => return Ok(rest),
                Some(path) => rest.without_excluded(alloc, schema, steps, path)?,
            };
            rest = next;
        }
        Ok(rest)
    }
}
