//! The labels of entries, which rise among those of a list. Nothing rests on them but time.
ghost use Rattle.std.specs.Prelude.{◌≡◌, IfOk};
ghost use Rattle.nc_branches.specs.inner.Shoots.{rows_of};

use crate::locate::is_entry;
use crate::tree::{Tree, Twig};
use nc_names::{Copies, Memory, Step};
use std::alloc::Global;
use std::cmp::Ordering;

/// The label of an entry alone in its list, and how far labels stand apart at first.
const FIRST: u64 = 4_611_686_018_427_387_904;

const APART: u64 = 4_294_967_296;
/// How far from one neighbour a label goes between two.
const NEAR: u64 = 65_536;

/// Where an entry goes among those of a list that the user orders.
#[derive(Clone, Copy, PartialEq, Eq, Debug)]
pub(crate) enum Turn {
    /// It stays where it is.
    Kept,
    First,
    Last,
    Before,
    After,
}

impl Twig {
    /// The node with labels for all entries at and below it, from the next one on.
    #[cycle(labelled)]
    fn labelled(&self, alloc: Global, next: &mut u64) -> Result<Twig, Memory>
        ensures { IfOk result (λ it. rows_of it ≡ rows_of self.now) }
    {
        let mut label = 0;
        if is_entry(self.row.get().path.steps.as_slice()) {
            label = *next;
            *next = next.saturating_add(APART);
        }
        let below = self.below.labelled(alloc, next)?;
        let twig = self.with_below(below)?;
        Ok(twig.with_label(label))
    }
}

impl Tree {
    /// The same rows with labels for all entries, from the next one on.
    #[cycle(labelled)]
    fn labelled(&self, alloc: Global, next: &mut u64) -> Result<Tree, Memory>
        ensures { IfOk result (λ it. it.rows ≡ self.now.rows) }
    {
        let Some(fork) = self.fork() else {
            return Ok(Tree::empty());
        };
        let left = fork.left.labelled(alloc, next)?;
        let twig = fork.twig.labelled(alloc, next)?;
        let right = fork.right.labelled(alloc, next)?;
        Tree::of(alloc, left, twig, right)
    }

    /// The same rows with labels for all entries.
    pub fn with_labels(&self, alloc: Global) -> Result<Tree, Memory>
        ensures { IfOk result (λ it. it.rows ≡ self.now.rows) }
    {
        let mut next = FIRST;
        self.labelled(alloc, &mut next)
    }

    /// The greatest label below a limit among the entries of a number, and else 0.
    fn label_before(&self, number: u32, limit: u64) -> u64 {
        let Some(fork) = self.fork() else {
            return 0;
        };
        let Some(own) = fork.twig.step() else {
            return 0;
        };
        if own.node > number || (own.node == number && fork.twig.label >= limit) {
            return fork.left.label_before(number, limit);
        }
        let found = fork.right.label_before(number, limit);
        if found == 0 && own.node == number {
            return fork.twig.label;
        }
        found
    }

    /// The least label above a limit among the entries of a number, and else 0.
    fn label_after(&self, number: u32, limit: u64) -> u64 {
        let Some(fork) = self.fork() else {
            return 0;
        };
        let Some(own) = fork.twig.step() else {
            return 0;
        };
        if own.node < number || (own.node == number && fork.twig.label <= limit) {
            return fork.right.label_after(number, limit);
        }
        let found = fork.left.label_after(number, limit);
        if found == 0 && own.node == number {
            return fork.twig.label;
        }
        found
    }

    /// The siblings among which a path ends, so many steps below the top, where they are seen at once.
    fn siblings_at(&self, known: &Tree, steps: &[Step], depth: usize) -> Option<&Tree> {
        if depth >= steps.len() || steps.len() - depth <= 1 {
            return Some(self);
        }
        let label = known.label_of(steps, depth);
        let twig = self.likely(steps.get(depth)?, label)?;
        twig.below.siblings_at(known, steps, depth + 1)
    }

    /// The node of a step with a label, where it is seen at once.
    fn likely(&self, asked: &Step, label: u64) -> Option<&Twig> {
        let fork = self.fork()?;
        match fork.guess(asked, label) {
            Ordering::Less => fork.left.likely(asked, label),
            Ordering::Equal => Some(&fork.twig),
            Ordering::Greater => fork.right.likely(asked, label),
        }
    }

    /// A label for a new entry beside a label, and 0 where there is no room for one.
    pub(crate) fn new_label(&self, known: &Tree, steps: &[Step], turn: Turn, beside: u64) -> u64 {
        let Some(siblings) = self.siblings_at(known, steps, 0) else {
            return FIRST;
        };
        let Some(step) = steps.get(steps.len().saturating_sub(1)) else {
            return 0;
        };
        match turn {
            Turn::Kept => 0,
            Turn::First => label_first(siblings.label_after(step.node, 0)),
            Turn::Last => label_last(siblings.label_before(step.node, u64::MAX)),
            Turn::Before => label_before(siblings.label_before(step.node, beside), beside),
            Turn::After => label_after(beside, siblings.label_after(step.node, beside)),
        }
    }
}

fn label_first(high: u64) -> u64 {
    if high == 0 {
        return FIRST;
    }
    if high > APART {
        return high - APART;
    }
    high / 2
}

fn label_last(low: u64) -> u64 {
    if low == 0 {
        return FIRST;
    }
    match low.checked_add(APART) {
        Some(label) => label,
        None => 0,
    }
}

/// A label before another, near to the one before that.
fn label_before(low: u64, high: u64) -> u64 {
    if low == 0 {
        return label_first(high);
    }
    if high <= low || high - low < 2 {
        return 0;
    }
    low + NEAR.min((high - low) / 2)
}

/// A label after another, near to the one after that.
fn label_after(low: u64, high: u64) -> u64 {
    if high == 0 {
        return label_last(low);
    }
    if high <= low || high - low < 2 {
        return 0;
    }
    high - NEAR.min((high - low) / 2)
}
