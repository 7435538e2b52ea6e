//! An entry that is found by its label, where it is known which entries have a row.
ghost use Rattle.std.specs.Prelude.{◌≡◌, ◌<◌, ◌≤◌, length, take, true, IfSome};
ghost use Rattle.std.specs.List.{starts_with};
ghost use Rattle.nc_names.specs.Same.{is_same_step};
ghost use Rattle.nc_schema.specs.Standing.{has_row};
ghost use Rattle.nc_branches.specs.Entries.{is_entry};
ghost use Rattle.nc_branches.specs.Tallies.{IsTallied};
ghost use Rattle.nc_branches.specs.inner.Located.{IsHead, IsWithin, Locates};
ghost use Rattle.nc_branches.specs.inner.Order.{AreUnder};
ghost use Rattle.nc_branches.specs.inner.Places.{AreApart};
ghost use Rattle.nc_branches.specs.inner.Shoots.{rows_of};

use crate::marks::has_keys;
use crate::tree::{Fork, Tree, Twig, order};
use nc_names::{Step, same_steps};
use std::cmp::Ordering;

/// The first of some steps.
pub(crate) fn head(steps: &[Step], len: usize) -> &[Step]
    requires { len ≤ length steps.now }
    ensures { result.now ≡ take len steps.now }
{
    &steps[..len]
}

/// Whether a path is that of an entry of a list or leaf-list.
pub(crate) fn is_entry(steps: &[Step]) -> bool
    ensures { result ≡ is_entry steps.now }
{
    match steps.get(steps.len().saturating_sub(1)) {
        Some(step) => has_keys(step),
        None => false,
    }
}

impl Twig {
    #[cycle(label_at)]
    fn label_at(&self, steps: &[Step]) -> u64 {
        if self.len_of_path() >= steps.len() {
            return self.label;
        }
        self.below.label_at(steps)
    }
}

impl Tree {
    /// The label of an entry, where it is seen at once, and else 0. Nothing rests on it but time.
    #[cycle(label_at)]
    fn label_at(&self, steps: &[Step]) -> u64 {
        let Some(fork) = self.fork() else {
            return 0;
        };
        match fork.twig.asked(steps) {
            None => 0,
            Some(Ordering::Less) => fork.left.label_at(steps),
            Some(Ordering::Equal) => fork.twig.label_at(steps),
            Some(Ordering::Greater) => fork.right.label_at(steps),
        }
    }

    /// The label of the entry that stands in a path so many steps below the top.
    pub(crate) fn label_of(&self, steps: &[Step], depth: usize) -> u64 {
        if depth >= steps.len() {
            return 0;
        }
        self.label_at(head(steps, depth + 1))
    }
}

impl Fork {
    /// On which side a step with a label is likely to stand. Nothing rests on it but time.
    pub(crate) fn guess(&self, asked: &Step, label: u64) -> Ordering {
        let Some(own) = self.twig.step() else {
            return Ordering::Equal;
        };
        if asked.node != own.node || label == 0 || self.twig.label == 0 {
            return order(asked, own);
        }
        label.cmp(&self.twig.label)
    }
}

impl Twig {
    /// Whether a path goes on below the node.
    pub(crate) fn leads_to(&self, steps: &[Step]) -> bool
        ensures longer { result ≡ true → length self.now.row.path.steps < length steps.now }
        ensures on { result ≡ true → starts_with is_same_step steps.now self.now.row.path.steps ≡ true }
        ensures under { AreUnder self.now.row.path.steps self.now.below.rows }
    {
        let _under = &self.below;
        let path = self.row.get().path.steps.as_slice();
        path.len() < steps.len() && steps.starts_with(path)
    }

    /// Whether it is the node of an entry, which has a row.
    #[tactic(auto, using(crate::proofs::Locating::own_row))]
    pub(crate) fn has_own(&self, steps: &[Step]) -> bool
        ensures path { result ≡ true → self.now.row.path.steps ≡ steps.now }
        ensures stands { result ≡ true → self.now.stands ≡ true }
        ensures under { AreUnder self.now.row.path.steps self.now.below.rows }
    {
        let _under = &self.below;
        if !self.stands {
            return false;
        }
        same_steps(self.row.get().path.steps.as_slice(), steps)
    }

    /// The node of an entry, where it is found by labels and has a row.
    #[cycle(locate)]
    #[tactic(auto, using(crate::proofs::Locating::locates_itself, crate::proofs::Locating::locates_below))]
    fn locate<'a>(&'a self, known: &Tree, steps: &[Step]) -> Option<&'a Twig>
        ensures { IfSome result (λ twig. Locates known.now.rows steps.now (rows_of self.now) twig.now) }
    {
        if self.has_own(steps) {
            return Some(self);
        }
        if !self.leads_to(steps) {
            return None;
        }
        let label = known.label_of(steps, self.len_of_path());
        match self.below.locate(known, steps, label) {
            None => None,
            Some(twig) => Some(twig),
        }
    }
}

impl Tree {
    /// The node of an entry, where it is found by labels and has a row: the label is that of the step among
    /// these siblings. Nothing of the entry stands elsewhere.
    #[cycle(locate)]
    #[tactic(auto, using(crate::proofs::Locating::locates_left, crate::proofs::Locating::locates_here, crate::proofs::Locating::locates_right))]
    pub(crate) fn locate<'a>(&'a self, known: &Tree, steps: &[Step], label: u64) -> Option<&'a Twig>
        ensures { IfSome result (λ twig. Locates known.now.rows steps.now self.now.rows twig.now) }
    {
        let Some(fork) = self.fork() else {
            return None;
        };
        if !fork.whole {
            return None;
        }
        let Some(asked) = steps.get(fork.twig.depth()) else {
            return None;
        };
        match fork.guess(asked, label) {
            Ordering::Less => match fork.left.locate(known, steps, label) {
                None => None,
                Some(twig) => Some(twig),
            },
            Ordering::Equal => match fork.twig.locate(known, steps) {
                None => None,
                Some(twig) => Some(twig),
            },
            Ordering::Greater => match fork.right.locate(known, steps, label) {
                None => None,
                Some(twig) => Some(twig),
            },
        }
    }
}

impl Twig {
    /// Whether an entry is found by labels, and has a row.
    #[cycle(holds)]
    #[tactic(auto, using(crate::proofs::Locating::own_row, crate::proofs::Locating::holds_below))]
    fn holds(&self, known: &Tree, steps: &[Step]) -> bool
        ensures { result ≡ true → has_row (rows_of self.now) steps.now ≡ true }
    {
        if self.has_own(steps) {
            return true;
        }
        if !self.leads_to(steps) {
            return false;
        }
        let label = known.label_of(steps, self.len_of_path());
        self.below.holds(known, steps, label)
    }
}

impl Tree {
    /// The same; the label is that of the step among these siblings.
    #[cycle(holds)]
    #[tactic(auto, using(crate::proofs::Locating::holds_left, crate::proofs::Locating::holds_here, crate::proofs::Locating::holds_right))]
    pub(crate) fn holds(&self, known: &Tree, steps: &[Step], label: u64) -> bool
        ensures { result ≡ true → has_row self.now.rows steps.now ≡ true }
    {
        let Some(fork) = self.fork() else {
            return false;
        };
        let Some(asked) = steps.get(fork.twig.depth()) else {
            return false;
        };
        match fork.guess(asked, label) {
            Ordering::Less => fork.left.holds(known, steps, label),
            Ordering::Equal => fork.twig.holds(known, steps),
            Ordering::Greater => fork.right.holds(known, steps, label),
        }
    }
}

/// How many steps a path has up to the last entry in it.
fn last_entry(steps: &[Step]) -> usize {
    let mut last = 0;
    let mut at: usize = 0;
    for step in steps {
        at = at.saturating_add(1);
        if has_keys(step) {
            last = at;
        }
    }
    last
}

impl Tree {
    /// Whether it is known that nothing stands at an entry or below it.
    #[tactic(auto, using(crate::proofs::Locating::unknown_apart))]
    fn lacks_entry(&self, known: &Tree, steps: &[Step]) -> bool
        requires { IsTallied known.now.rows self.now.rows }
        ensures { result ≡ true → AreApart steps.now self.now.rows }
    {
        if steps.is_empty() {
            return false;
        }
        if !is_entry(steps) {
            return false;
        }
        if !self.is_whole(0) {
            return false;
        }
        match known.get(steps) {
            Some(_) => false,
            None => true,
        }
    }

    /// Whether it is known that nothing stands at some steps or below them, since an entry in them has no
    /// row.
    #[tactic(auto, using(crate::proofs::Locating::apart_longer))]
    pub(crate) fn lacks(&self, known: &Tree, steps: &[Step]) -> bool
        requires { IsTallied known.now.rows self.now.rows }
        ensures { result ≡ true → AreApart steps.now self.now.rows }
    {
        for at in 0..steps.len() {
            if self.lacks_entry(known, head(steps, at + 1)) {
                return true;
            }
        }
        false
    }
}

/// A path up to the last entry in it.
pub(crate) fn entry_in(steps: &[Step]) -> &[Step]
    ensures { IsHead result.now steps.now }
{
    let len = last_entry(steps);
    if len > steps.len() {
        return steps;
    }
    head(steps, len)
}

impl Tree {
    /// The node of the last entry in a path, where it is found: all that stands at the path and below it is
    /// of that node.
    #[tactic(auto, using(crate::proofs::Locating::within_head))]
    pub(crate) fn within<'a>(&'a self, known: &Tree, steps: &[Step]) -> Option<&'a Twig>
        requires { IsTallied known.now.rows self.now.rows }
        ensures { IfSome result (λ twig. IsWithin steps.now self.now.rows twig.now) }
    {
        let entry = entry_in(steps);
        if !is_entry(entry) {
            return None;
        }
        match self.locate(known, entry, known.label_of(entry, 0)) {
            None => None,
            Some(twig) => Some(twig),
        }
    }
}
