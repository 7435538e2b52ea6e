//! Types identityref with the same values share one entry of the table of types.
ghost use Rattle.std.specs.Prelude.{◌≡◌, true, Some, slice_get, IfOk, IfSome};
ghost use Rattle.nc_yang_types.specs.declared.planned.Planned.TheVariants.{Bases};
ghost use Rattle.nc_yang_leafs.specs.inner.Firsts as words;

use crate::derives::Derives;
use crate::marks::{is_marked, plan_at};
use crate::named::identity_of;
use crate::site::Site;
use nc_names::{Many, Memory};
use nc_yang_scopes::Scopes;
use nc_yang_types::{Meanings, Planned};
use std::alloc::Global;
use std::collections::BTreeMap;

// The numbers of the identities that `base` statements name; none where one of them names none.
fn identities_of<'a>(
    alloc: Global,
    scopes: &Scopes<'a>,
    bases: &[usize],
) -> Result<Option<Many<usize>>, Memory> {
    let mut identities = Many::new(alloc);
    for base in bases {
        let Some(identity) = identity_of(scopes, *base) else {
            return Ok(None);
        };
        identities.push(identity)?;
    }
    Ok(Some(identities))
}

// The first plan with these identities: this one, if none had them before.
fn first_with(
    seen: &mut BTreeMap<Many<usize>, usize>,
    identities: Many<usize>,
    plan: usize,
) -> Result<usize, Memory> {
    if let Some(first) = seen.get(&identities).copied() {
        return Ok(first);
    }
    seen.insert(identities, plan)?;
    Ok(plan)
}

// The first plan that looks as if it had the values of a plan.
fn first_like<'a>(
    alloc: Global,
    scopes: &Scopes<'a>,
    seen: &mut BTreeMap<Many<usize>, usize>,
    plan: usize,
    planned: &Planned,
) -> Result<usize, Memory> {
    let Planned::Bases(bases) = planned else {
        return Ok(plan);
    };
    match identities_of(alloc, scopes, bases.as_slice())? {
        Some(identities) => first_with(seen, identities, plan),
        None => Ok(plan),
    }
}

// The `base` statements of a plan of a type identityref.
fn bases_of(meanings: &Meanings, plan: usize) -> Option<&[usize]>
    ensures { IfSome result (λ it. slice_get meanings.now.plans plan ≡ Some (Bases it.now)) }
{
    match meanings.plans.get(plan) {
        Some(Planned::Bases(bases)) => Some(bases.as_slice()),
        _ => None,
    }
}

// Whether two plans are of types identityref, and the names for the first are known to be names for the
// other.
fn share_names<D: Derives>(
    meanings: &Meanings,
    marks: &[bool],
    identities: &D,
    first: usize,
    own: usize,
) -> bool
    ensures { result ≡ true → words.ShareNames (D.derived identities.now) (D.located identities.now)
        meanings.now.plans marks.now first own }
{
    let Some(bases) = bases_of(meanings, first) else {
        return false;
    };
    let Some(others) = bases_of(meanings, own) else {
        return false;
    };
    if is_marked(marks, first) {
        return false;
    }
    identities.are_alike(bases, others)
}

// A plan that has an entry for another: that one, if its names are known to be names for the other.
fn checked<D: Derives>(
    meanings: &Meanings,
    marks: &[bool],
    identities: &D,
    first: usize,
    own: usize,
) -> usize
    ensures { words.IsFirst (D.derived identities.now) (D.located identities.now) meanings.now.plans
        marks.now result own }
{
    if share_names(meanings, marks, identities, first, own) {
        first
    } else {
        own
    }
}

/// Of each plan the one that has its entry: the first type identityref with the same values, by what its
/// `base` statements name (RFC 7950 9.10.2), or itself.
pub(crate) fn firsts_of<'a, D: Derives>(
    alloc: Global,
    scopes: &Scopes<'a>,
    meanings: &Meanings,
    marks: &[bool],
    identities: &D,
) -> Result<Many<usize>, Memory>
    ensures { IfOk result (words.AreFirsts (D.derived identities.now) (D.located identities.now)
        meanings.now.plans marks.now) }
{
    let mut seen = BTreeMap::new(alloc);
    let mut firsts = Many::new(alloc);
    let plans = meanings.plans.as_slice();
    for (plan, planned) in plans.iter().enumerate() {
        let like = first_like(alloc, scopes, &mut seen, plan, planned)?;
        firsts.push(checked(meanings, marks, identities, like, plan))?;
    }
    Ok(firsts)
}

// The plan that has an entry for a plan.
fn first_in(firsts: &[usize], plan: usize) -> usize
    ensures { result ≡ words.first_in firsts.now plan }
{
    match firsts.get(plan) {
        Some(first) => *first,
        None => plan,
    }
}

/// The number of the plan that has the entry of the `type` statement of a number, if that has a plan.
pub(crate) fn plan_for(site: &Site, statement: usize) -> Option<usize>
    ensures { result ≡ words.plan_for site.now.meanings.now.findings site.now.firsts.now statement }
{
    match plan_at(site.meanings, statement) {
        Some(plan) => Some(first_in(site.firsts, plan)),
        None => None,
    }
}
