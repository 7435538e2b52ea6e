//! What stands in a tree at some steps, where it is known which entries have a row.
ghost use Rattle.std.specs.Prelude.{◌≡◌, ◌++◌, length, IfOk, OnOk};
ghost use Rattle.std.specs.Option.{option_copied};
ghost use Rattle.nc_schema.specs.Blocks.{row_at};
ghost use Rattle.nc_schema.specs.Standing.{block_at, exists};
ghost use Rattle.nc_branches.specs.Branches.{rows_in};
ghost use Rattle.nc_branches.specs.Tallies.{IsTallied};

use crate::tree::Tree;
use nc_names::{Many, Memory, Row, Step};
use std::alloc::Global;

impl Tree {
    /// The row at some steps, where there is one.
    #[tactic(auto, using(crate::proofs::Found::found_apart, crate::proofs::Locating::get_within))]
    pub fn get_known(&self, known: &Tree, steps: &[Step]) -> Option<&Row>
        requires { IsTallied known.now.rows self.now.rows }
        ensures { option_copied result ≡ row_at self.now.rows steps.now }
    {
        if self.lacks(known, steps) {
            return None;
        }
        match self.within(known, steps) {
            Some(twig) => twig.get(steps),
            None => self.get(steps),
        }
    }

    /// Whether a row stands at some steps or below them.
    #[tactic(auto, using(crate::proofs::Locating::exists_apart, crate::proofs::Locating::exists_within))]
    pub fn exists_known(&self, known: &Tree, steps: &[Step]) -> bool
        requires { IsTallied known.now.rows self.now.rows }
        ensures { result ≡ exists self.now.rows steps.now }
    {
        if self.lacks(known, steps) {
            return false;
        }
        match self.within(known, steps) {
            Some(twig) => twig.exists(steps),
            None => self.exists(steps),
        }
    }

    /// Adds the rows at some steps and below them.
    #[tactic(auto, using(crate::proofs::Locating::added_apart, crate::proofs::Locating::added_within))]
    pub fn push_block_known<'a>(
        &'a self,
        known: &Tree,
        steps: &[Step],
        out: &mut Many<&'a Row>,
    ) -> Result<(), Memory>
        requires { IsTallied known.now.rows self.now.rows }
        ensures ok { OnOk result (rows_in out.new ≡ rows_in out.old ++ block_at self.now.rows steps.now) }
    {
        if self.lacks(known, steps) {
            return Ok(());
        }
        match self.within(known, steps) {
            Some(twig) => twig.push_block(steps, out),
            None => self.push_block(steps, out),
        }
    }

    /// How many rows stand at some steps or below them.
    #[tactic(auto, using(crate::proofs::Locating::count_apart, crate::proofs::Locating::count_within))]
    pub fn count_known(&self, known: &Tree, steps: &[Step]) -> u64
        requires { IsTallied known.now.rows self.now.rows }
        ensures { result ≡ length (block_at self.now.rows steps.now) }
    {
        if self.lacks(known, steps) {
            return 0;
        }
        if let Some(twig) = self.within(known, steps) {
            if let Some(len) = twig.len() {
                return twig.count_at(steps, len);
            }
        }
        self.count_at(steps)
    }

    /// The rows at some steps and below them, as a tree that shares them.
    #[tactic(auto, using(crate::proofs::Parts::block_none, crate::proofs::Locating::block_within))]
    pub fn part_known(&self, alloc: Global, known: &Tree, steps: &[Step]) -> Result<Tree, Memory>
        requires { IsTallied known.now.rows self.now.rows }
        ensures { IfOk result (λ it. it.rows ≡ block_at self.now.rows steps.now) }
    {
        if self.lacks(known, steps) {
            return Ok(Tree::empty());
        }
        match self.within(known, steps) {
            Some(twig) => twig.part(alloc, steps),
            None => self.part(alloc, steps),
        }
    }
}
