//! The values to which leafrefs may refer (RFC 7950 9.9).
ghost use Rattle.std.specs.Prelude.{◌≡◌, ◌++◌, ◌∷◌, [], ℕ, ◌≤◌, List, length, take, map, IfOk, IfSome};
ghost use Rattle.nc_names.specs.declared.path.Row.{Row};
ghost use Rattle.nc_schema.specs.Tables.{Tables};
ghost use Rattle.nc_schema.specs.Violations as violations;
ghost use Rattle.nc_refs.specs.inner.Referred.{HasValues, IsKnown};
ghost use Rattle.nc_refs.specs.inner.Trails.{IsTrail};

use crate::trail::Trail;
use nc_defaults::{Children, Spot, Steps, values_below};
use nc_names::{Memory, Step, Text, same_steps};
use nc_schema::Schema;
use nc_tree::Listed;
use std::alloc::Global;
use std::collections::{BTreeMap, BTreeSet};

/// The values of a leafref's target below one place.
#[derive(Drop)]
pub(crate) struct Referred<'a> {
    pub(crate) turning: &'a [Step],
    pub(crate) target: u32,
    pub(crate) values: BTreeSet<&'a Text>,
}

/// What was found in a configuration: places, the children of each data node, once a walk was needed, and
/// of each leafref the values of its target below the place at which its path turned down last.
#[derive(Drop)]
pub(crate) struct Known<'a> {
    pub(crate) trail: Trail<'a>,
    pub(crate) children: Option<Children<'a>>,
    pub(crate) referred: BTreeMap<u32, Referred<'a>>,
}

// How many steps lead down to a data node; all of them where none does.
fn count_down_to(number: u32, steps: &[Step]) -> usize
    ensures within { result ≤ length steps.now }
    ensures steps { take result steps.now ≡ violations.down_to number steps.now }
{
    let mut count = 0;
    for step in steps {
        count += 1;
        if step.node == number {
            return count;
        }
    }
    count
}

// The steps down to a data node; all of them where they do not lead to one.
fn down_to(number: u32, steps: &[Step]) -> &[Step]
    ensures { result.now ≡ violations.down_to number steps.now }
{
    &steps[..count_down_to(number, steps)]
}

/// The steps to the place at which the path of a leafref turns down; none where it is the top.
pub(crate) fn turning_steps(above: Option<u32>, steps: &[Step]) -> &[Step]
    ensures { result.now ≡ violations.turning_steps above steps.now }
{
    match above {
        Some(number) => down_to(number, steps),
        None => &steps[..0],
    }
}

// With a value.
fn with_value<'a>(values: BTreeSet<&'a Text>, value: &'a Text) -> Result<BTreeSet<&'a Text>, Memory>
    ensures { IfOk result (λ it. (before : List (List ℕ)) → HasValues values.entry before
        → HasValues it (before ++ value.now ∷ [])) }
{
    let mut values = values;
    values.insert(value)?;
    Ok(values)
}

// These values.
fn values_of<'a>(alloc: Global, values: &[&'a Text]) -> Result<BTreeSet<&'a Text>, Memory>
    ensures { IfOk result (λ it. HasValues it (map (λ value. value.now) values.now)) }
{
    let mut found = BTreeSet::new(alloc);
    for value in values {
        found = with_value(found, value)?;
    }
    Ok(found)
}

// The children of each data node, which are found once.
fn with_children<'a>(
    alloc: Global,
    schema: &'a Schema,
    children: Option<Children<'a>>,
) -> Result<Children<'a>, Memory>
    requires { IfSome children (λ children. children ≡ schema.now) }
    ensures { IfOk result (λ it. it ≡ schema.now) }
{
    match children {
        Some(children) => Ok(children),
        None => Children::of(alloc, schema),
    }
}

// The values in use of a leaf below the place to which steps lead.
fn values_referred<'a>(
    alloc: Global,
    schema: &'a Schema,
    children: &Children<'a>,
    config: &'a Listed,
    trail: Trail<'a>,
    turning: &'a [Step],
    target: u32,
) -> Result<(Trail<'a>, BTreeSet<&'a Text>), Memory>
    requires children { children.now ≡ schema.now }
    requires trail { IsTrail schema.now config.now trail }
    ensures trail { IfOk result (λ it. IsTrail schema.now config.now it.0) }
    ensures values { IfOk result (λ it. HasValues it.1
        (violations.values_referred schema.now config.now turning.now target)) }
{
    let (trail, reached) = trail.reach(alloc, schema, config, turning)?;
    let Some(here) = reached else {
        return Ok((trail, BTreeSet::new(alloc)));
    };
    let spot = Spot {
        steps: Steps::there(turning),
        here,
    };
    let values = values_below(alloc, children, config, &spot, target)?;
    Ok((trail, values_of(alloc, values.as_slice())?))
}

impl<'a> Known<'a> {
    /// Nothing was looked for yet. It takes no memory.
    pub(crate) fn new(alloc: Global) -> Known<'a>
        ensures { (schema : Tables) (rows : List Row) → IsKnown schema rows result }
    {
        Known {
            trail: Trail::new(alloc),
            children: None,
            referred: BTreeMap::new(alloc),
        }
    }

    // Whether a text is among the values that are known for a leafref; `None` where they are not known.
    fn has(&self, leaf: u32, turning: &[Step], target: u32, text: &'a Text) -> Option<bool>
        ensures { (schema : Tables) (rows : List Row) → IsKnown schema rows self.now →
            IfSome result (λ has. has ≡ violations.has_text text.now
            (violations.values_referred schema rows turning.now target)) }
    {
        let referred = self.referred.get(&leaf)?;
        if referred.target == target && same_steps(referred.turning, turning) {
            Some(referred.values.contains(&text))
        } else {
            None
        }
    }

    /// Whether a text is in use at an instance of a leafref's target below the place at which its path turns
    /// down.
    pub(crate) fn refers(
        self,
        alloc: Global,
        schema: &'a Schema,
        config: &'a Listed,
        leaf: u32,
        turning: &'a [Step],
        target: u32,
        text: &'a Text,
    ) -> Result<(Known<'a>, bool), Memory>
        requires { IsKnown schema.now config.now self }
        ensures known { IfOk result (λ it. IsKnown schema.now config.now it.0) }
        ensures refers { IfOk result (λ it. it.1 ≡ violations.has_text text.now
            (violations.values_referred schema.now config.now turning.now target)) }
    {
        if let Some(has) = self.has(leaf, turning, target, text) {
            return Ok((self, has));
        }
        let Known {
            trail,
            children,
            mut referred,
        } = self;
        let children = with_children(alloc, schema, children)?;
        let (trail, values) = values_referred(
            alloc, schema, &children, config, trail, turning, target,
        )?;
        let has = values.contains(&text);
        let found = Referred {
            turning,
            target,
            values,
        };
        referred.insert(leaf, found)?;
        let children = Some(children);
        Ok((
            Known {
                trail,
                children,
                referred,
            },
            has,
        ))
    }
}
