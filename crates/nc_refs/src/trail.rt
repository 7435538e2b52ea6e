//! Places that were reached, by the steps to them.
ghost use Rattle.std.specs.Prelude.{◌≡◌, ◌++◌, ◌∷◌, ◌+◌, ◌<◌, [], List, Some, length, take, option_map, IfOk, IfSome};
ghost use Rattle.std.specs.BTreeMap.{get};
ghost use Rattle.nc_names.specs.declared.path.Row.{Row};
ghost use Rattle.nc_schema.specs.Places as places;
ghost use Rattle.nc_schema.specs.Tables.{Tables};
ghost use Rattle.nc_defaults.specs.Within.{IsWithin, place_here};
ghost use Rattle.nc_refs.specs.inner.Trails.{IsReached, IsTrail, order};

use crate::branches::Branches;
use nc_defaults::{Here, place_below, top};
use nc_names::{Memory, Step};
use nc_schema::Schema;
use nc_tree::Listed;
use std::alloc::Global;
use std::collections::BTreeMap;

/// Places by the steps to them, with the nodes directly in some of them, so that none is looked for twice.
#[derive(Drop)]
pub(crate) struct Trail<'a> {
    pub(crate) places: BTreeMap<&'a [Step], Option<Here>>,
    pub(crate) branches: BTreeMap<&'a [Step], Branches<'a>>,
}

impl<'a> Trail<'a> {
    /// No place was reached yet. It takes no memory.
    pub(crate) fn new(alloc: Global) -> Trail<'a>
        ensures { (schema : Tables) (rows : List Row) → IsTrail schema rows result }
    {
        Trail {
            places: BTreeMap::new(alloc),
            branches: BTreeMap::new(alloc),
        }
    }

    // The place to which steps lead from another, by the nodes of that one where they are known.
    fn below(
        &self,
        schema: &Schema,
        config: &Listed,
        above: &'a [Step],
        here: Here,
        step: &'a Step,
    ) -> Option<Here>
        requires within { IsWithin config.now here }
        requires trail { IsTrail schema.now config.now self.now }
        ensures place { option_map (place_here config.now (above.now ++ step.now ∷ [])) result
            ≡ places.place_below schema.now (place_here config.now above.now here) step.now }
        ensures within { IfSome result (IsWithin config.now) }
    {
        if let Some(branches) = self.branches.get(&above) {
            if branches.from == here.from && branches.to == here.to {
                return branches.below(schema, config, above, here, step);
            }
        }
        place_below(schema, config, above, here, step)
    }

    // With the nodes directly in a place.
    fn with_branches(
        self,
        alloc: Global,
        config: &'a Listed,
        above: &'a [Step],
        here: Here,
    ) -> Result<Trail<'a>, Memory>
        requires { IsWithin config.now here }
        ensures { IfOk result (λ it. (schema : Tables) → IsTrail schema config.now self.entry
            → IsTrail schema config.now it) }
    {
        let mut trail = self;
        if trail.branches.contains_key(&above) {
            return Ok(trail);
        }
        let branches = Branches::of(alloc, config, above.len(), here)?;
        trail.branches.insert(above, branches)?;
        Ok(trail)
    }

    // With the place to which steps lead.
    fn with_place(self, steps: &'a [Step], found: Option<Here>) -> Result<Trail<'a>, Memory>
        ensures { IfOk result (λ it. (schema : Tables) (rows : List Row) →
            IsTrail schema rows self.entry → IsReached schema rows steps.now found → IsTrail schema rows it) }
    {
        let mut trail = self;
        trail.places.insert(steps, found)?;
        Ok(trail)
    }

    // What is known of the steps: the place to which they lead, or that they lead to none.
    fn known(&self, steps: &'a [Step]) -> Option<Option<Here>>
        ensures { (schema : Tables) (rows : List Row) →
            IsTrail schema rows self.now → IfSome result (IsReached schema rows steps.now) }
    {
        self.places.get(&steps).copied()
    }

    // The place to which one step more leads.
    fn step_down(
        self,
        alloc: Global,
        schema: &Schema,
        config: &'a Listed,
        steps: &'a [Step],
        at: usize,
        here: Here,
    ) -> Result<(Trail<'a>, Option<Here>), Memory>
        requires further { at < length steps.now }
        requires trail { IsTrail schema.now config.now self }
        requires reached { IsReached schema.now config.now (take at steps.now) (Some here) }
        ensures trail { IfOk result (λ it. IsTrail schema.now config.now it.0) }
        ensures reached { IfOk result (λ it. IsReached schema.now config.now (take (at + 1) steps.now) it.1) }
    {
        let key = &steps[..at + 1];
        if let Some(found) = self.known(key) {
            return Ok((self, found));
        }
        let above = &steps[..at];
        let trail = self.with_branches(alloc, config, above, here)?;
        let found = trail.below(schema, config, above, here, &steps[at]);
        let trail = trail.with_place(key, found)?;
        Ok((trail, found))
    }

    /// The place to which steps lead from the top; none where there is no such place.
    pub(crate) fn reach(
        self,
        alloc: Global,
        schema: &Schema,
        config: &'a Listed,
        steps: &'a [Step],
    ) -> Result<(Trail<'a>, Option<Here>), Memory>
        requires { IsTrail schema.now config.now self }
        ensures trail { IfOk result (λ it. IsTrail schema.now config.now it.0) }
        ensures reached { IfOk result (λ it. IsReached schema.now config.now steps.now it.1) }
    {
        let mut trail = self;
        let mut reached = Some(top(config));
        let mut at = 0;
        'step: while at < steps.len() {
            let Some(here) = reached else {
                return Ok((trail, None));
            };
            let (next, found) = trail.step_down(alloc, schema, config, steps, at, here)?;
            trail = next;
            reached = found;
            at += 1;
        }
        Ok((trail, reached))
    }
}
