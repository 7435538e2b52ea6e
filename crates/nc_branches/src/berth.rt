//! Where an entry goes among the others of its list, which the user orders.
ghost use Rattle.std.specs.Prelude.{◌≡◌, IfOk, IfSome, false, true};
ghost use Rattle.nc_schema.specs.Standing as meant;
ghost use Rattle.nc_branches.specs.Branches.{without_block};
ghost use Rattle.nc_branches.specs.Tallies.{IsTallied};
ghost use Rattle.nc_branches.specs.inner.Layings as layings;
ghost use Rattle.nc_branches.specs.inner.Layings.{IsBerth, IsLast};
ghost use Rattle.nc_branches.specs.inner.Turning.{entry_at};

use crate::grow::copied;
use crate::labels::Turn;
use crate::locate::{head, is_entry};
use crate::tree::Tree;
use nc_names::{Copies, Many, Memory, Place, Step, Text, same_keys};
use std::alloc::Global;

/// Whether an entry that stands is to keep its place.
pub(crate) fn keeps(place: &Place, keys: &Many<Text>) -> bool
    ensures { result ≡ layings.keeps place.now keys.now }
{
    match place {
        Place::Kept => true,
        Place::First | Place::Last => false,
        Place::Before(anchor) | Place::After(anchor) => same_keys(anchor, keys),
    }
}

/// Where an entry goes that does not stand.
fn turn_of(place: &Place, keys: &Many<Text>) -> Turn
    ensures { result ≡ layings.turn_of place.now keys.now }
{
    match place {
        Place::Kept | Place::Last => Turn::Last,
        Place::First => Turn::First,
        Place::Before(anchor) => {
            if same_keys(anchor, keys) {
                return Turn::Last;
            }
            Turn::Before
        }
        Place::After(anchor) => {
            if same_keys(anchor, keys) {
                return Turn::Last;
            }
            Turn::After
        }
    }
}

/// The keys of the entry beside which one goes.
fn anchor_of(alloc: Global, place: &Place) -> Result<Many<Text>, Memory>
    ensures { IfOk result (λ it. it ≡ layings.anchor_of place.now) }
{
    match place {
        Place::Before(anchor) | Place::After(anchor) => anchor.copy(),
        Place::Kept | Place::First | Place::Last => Ok(Many::new(alloc)),
    }
}

/// The path of an entry of a list below some steps.
fn path_beside(
    alloc: Global,
    above: &[Step],
    node: u32,
    keys: Many<Text>,
) -> Result<Many<Step>, Memory>
    ensures { IfOk result (λ it. it ≡ entry_at above.now node keys) }
{
    let mut path = copied(alloc, above)?;
    path.push(Step { node, keys })?;
    Ok(path)
}

/// The path of the entry of a list below some steps beside which one goes.
fn beside_of(alloc: Global, above: &[Step], node: u32, place: &Place) -> Result<Many<Step>, Memory>
    ensures { IfOk result (λ it. it ≡ entry_at above.now node (layings.anchor_of place.now)) }
{
    let anchor = anchor_of(alloc, place)?;
    path_beside(alloc, above, node, anchor)
}

/// The step at a depth, where it is the last one.
pub(crate) fn step_at(steps: &[Step], depth: usize) -> Option<&Step>
    ensures { IfSome result (λ last. IsLast steps.now depth last.now) }
{
    if steps.len() <= depth || steps.len() - depth != 1 {
        return None;
    }
    steps.get(depth)
}

/// The labels of the steps of a path.
pub(crate) fn labels_of(alloc: Global, known: &Tree, steps: &[Step]) -> Result<Many<u64>, Memory> {
    let mut labels = Many::new(alloc);
    for at in 0..steps.len() {
        labels.push(known.label_of(steps, at))?;
    }
    Ok(labels)
}

/// The same with another label of the last one.
fn labels_with(
    alloc: Global,
    known: &Tree,
    steps: &[Step],
    last: u64,
) -> Result<Many<u64>, Memory> {
    let mut labels = labels_of(alloc, known, steps)?;
    labels.pop();
    labels.push(last)?;
    Ok(labels)
}

/// Where an entry goes that is moved: the rows without it; on which side of another entry, or at which end,
/// with the path of that; the labels of the steps to that; and its own label, which is 0 where there is none.
#[derive(Drop)]
pub(crate) struct Berth {
    pub(crate) rest: Tree,
    pub(crate) turn: Turn,
    pub(crate) beside: Many<Step>,
    pub(crate) labels: Many<u64>,
    pub(crate) label: u64,
}

impl Tree {
    /// Where an entry goes that is moved, where that is seen.
    pub(crate) fn berth(
        &self,
        alloc: Global,
        known: &Tree,
        steps: &[Step],
        place: &Place,
    ) -> Result<Option<Berth>, Memory>
        requires { IsTallied known.now.rows self.now.rows }
        ensures rest { IfOk result (λ it. IfSome it
            (λ berth. berth.rest.rows ≡ without_block self.now.rows steps.now)) }
        ensures berth { IfOk result (λ it. IfSome it
            (λ berth. IsBerth self.now.rows place.now steps.now berth.turn berth.beside)) }
    {
        let depth = steps.len().saturating_sub(1);
        let Some(last) = step_at(steps, depth) else {
            return Ok(None);
        };
        if !self.is_new(known, steps, place, &last.keys) {
            return Ok(None);
        }
        let turn = turn_of(place, &last.keys);
        let beside = beside_of(alloc, head(steps, depth), last.node, place)?;
        let anchor = known.label_of(beside.as_slice(), depth);
        let labels = labels_with(alloc, known, steps, anchor)?;
        let rest = self.without_known(alloc, known, steps)?;
        let label = rest.new_label(known, steps, turn, anchor);
        Ok(Some(Berth {
            rest,
            turn,
            beside,
            labels,
            label,
        }))
    }

    /// Whether an entry that is to keep its place has no row.
    #[tactic(auto, using(crate::proofs::Locating::row_none, crate::proofs::Tallies::none_known))]
    fn is_new(&self, known: &Tree, steps: &[Step], place: &Place, keys: &Many<Text>) -> bool
        requires { IsTallied known.now.rows self.now.rows }
        ensures { result ≡ true → layings.keeps place.now keys.now ≡ true →
            meant.has_row self.now.rows steps.now ≡ false }
    {
        if !keeps(place, keys) {
            return true;
        }
        if !is_entry(steps) {
            return false;
        }
        match known.get(steps) {
            Some(_) => false,
            None => true,
        }
    }
}
