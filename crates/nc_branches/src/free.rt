//! Whether no sibling gives way to a path, since it is of another case of a choice (RFC 7950 7.9): seen by
//! the numbers of siblings, each number once.
ghost use Rattle.std.specs.Prelude.{◌≡◌, Option, true, IfSome};
ghost use Rattle.nc_branches.specs.inner.Free.{AreFree, AreIn, FreeAt, IsOnly};

use crate::aim::Aim;
use crate::siblings::{are_of_other_cases, cases_of};
use crate::tree::Tree;
use nc_names::Step;
use nc_schema::Schema;

/// The number between two bounds, where they are one.
fn only_number(low: Option<u32>, high: Option<u32>) -> Option<u32>
    ensures { IfSome result (λ number. IsOnly low high number) }
{
    let Some(least) = low else {
        return None;
    };
    let Some(most) = high else {
        return None;
    };
    if least != most {
        return None;
    }
    Some(least)
}

impl Tree {
    /// Whether it is seen at once that no row gives way to a path that goes on so many steps below the top.
    #[tactic(auto, using(crate::proofs::FreeRows::free_plain, crate::proofs::FreeRows::free_at))]
    pub(crate) fn is_free(&self, aim: &Aim, depth: usize) -> bool
        ensures { result ≡ true → FreeAt aim.now depth self.now.rows }
    {
        let Some(asked) = aim.step(depth) else {
            return false;
        };
        if cases_of(aim.schema(), asked.node).is_empty() {
            return true;
        }
        self.are_free(aim.schema(), depth, asked, None, None)
    }

    /// The same of rows whose numbers are between two bounds. Siblings of one number are looked at once.
    #[tactic(auto, using(crate::proofs::FreeRows::free_none, crate::proofs::FreeRows::free_only, crate::proofs::FreeRows::free_fork))]
    fn are_free(
        &self,
        schema: &Schema,
        depth: usize,
        asked: &Step,
        low: Option<u32>,
        high: Option<u32>,
    ) -> bool
        ensures { result ≡ true → AreIn low high depth self.now.rows →
            AreFree schema.now depth asked.now self.now.rows }
    {
        if let Some(number) = only_number(low, high) {
            return !are_of_other_cases(schema, asked.node, number);
        }
        let Some(fork) = self.fork() else {
            return true;
        };
        if !fork.numbered {
            return false;
        }
        let Some(own) = fork.twig.step_at(depth) else {
            return false;
        };
        if are_of_other_cases(schema, asked.node, own.node) {
            return false;
        }
        if !fork
            .left
            .are_free(schema, depth, asked, low, Some(own.node))
        {
            return false;
        }
        fork.right
            .are_free(schema, depth, asked, Some(own.node), high)
    }
}
