//! The meanings of all `type` statements, in an order in which each comes after the one on which it rests.
ghost use Rattle.std.specs.Prelude.{◌≡◌, ◌<◌, [], length, IfOk};
ghost use Rattle.nc_yang_order.specs.Orders.{EachAfter};
ghost use Rattle.nc_yang_types.specs.Plans.{AreMeanings};
ghost use Rattle.nc_yang_types.specs.inner.Footings.{AreFootings};
ghost use Rattle.nc_yang_types.specs.inner.Planning.{AreSoFar, IsOrdered, IsReady, Steps, blank, footing_at, with_found};

use crate::dependents::{dependents, starts};
use crate::features::Features;
use crate::footing::{Footing, footings};
use crate::found::{Found, look};
use crate::planned::{Finding, Meanings};
use nc_names::{Many, Memory};
use nc_yang_order::Reach;
use nc_yang_scopes::Scopes;
use std::alloc::Global;

/// On what the type of a number rests.
pub(crate) fn footing_of(footings: &[Footing], number: usize) -> Footing
    ensures { result ≡ footing_at footings.now number }
{
    match footings.get(number) {
        Some(footing) => *footing,
        None => Footing::OnNothing,
    }
}

// Nothing is found of so many statements.
fn nothing(alloc: Global, count: usize) -> Result<Meanings, Memory>
    ensures { IfOk result (λ it. it ≡ blank count) }
{
    let mut findings = Many::new(alloc);
    for number in 0..count {
        findings.push(Finding::Nothing)?;
    }
    Ok(Meanings {
        findings,
        plans: Many::new(alloc),
    })
}

impl Meanings {
    // With what was found of a number.
    fn with(self, number: usize, found: Found) -> Result<Meanings, Memory>
        requires { number < length self.findings }
        ensures { IfOk result (λ it. it ≡ with_found self number found) }
    {
        let Meanings {
            mut findings,
            mut plans,
        } = self;
        match found {
            Found::Same(finding) => findings.set(number, finding),
            Found::New(planned) => {
                findings.set(number, Finding::Plan(plans.len()));
                plans.push(planned)?;
            }
        }
        Ok(Meanings { findings, plans })
    }

    // With what is found of the next number.
    fn step<'a, F: Features<'a>>(
        self,
        alloc: Global,
        scopes: &Scopes<'a>,
        features: &F,
        number: usize,
        footing: Footing,
    ) -> Result<Meanings, Memory>
        requires { number < length self.findings }
        ensures { IfOk result (Steps (F.on features.now) scopes.now footing number self) }
    {
        let found = look(alloc, scopes, features, &self, number, footing)?;
        self.with(number, found)
    }

    // With what is found of the numbers of an order.
    fn along<'a, F: Features<'a>>(
        self,
        alloc: Global,
        scopes: &Scopes<'a>,
        features: &F,
        footings: &[Footing],
        order: &[usize],
    ) -> Result<Meanings, Memory>
        requires blank { self ≡ blank (length scopes.now.located) }
        requires footings { AreFootings scopes.now (length scopes.now.located) footings.now }
        requires order { EachAfter (IsReady footings.now) [] order.now }
        ensures { IfOk result (AreSoFar (F.on features.now) scopes.now order.now) }
    {
        let mut meanings = self;
        for number in order {
            let footing = footing_of(footings, *number);
            meanings = meanings.step(alloc, scopes, features, *number, footing)?;
        }
        Ok(meanings)
    }
}

/// The types that lead to a built-in type, each after the one on which it rests.
pub(crate) fn ordered(alloc: Global, footings: &[Footing]) -> Result<Reach, Memory>
    ensures { IfOk result (IsOrdered footings.now) }
{
    let graph = dependents(alloc, footings)?;
    let starts = starts(alloc, footings)?;
    Reach::of(alloc, graph.as_slice(), starts.as_slice())
}

/// What all statements mean as types.
pub(crate) fn table<'a, F: Features<'a>>(
    alloc: Global,
    scopes: &Scopes<'a>,
    features: &F,
) -> Result<Meanings, Memory>
    ensures { IfOk result (AreMeanings (F.on features.now) scopes.now) }
{
    let footings = footings(alloc, scopes)?;
    let list = footings.as_slice();
    let reach = ordered(alloc, list)?;
    let order = reach.found.as_slice();
    let meanings = nothing(alloc, list.len())?;
    meanings.along(alloc, scopes, features, list, order)
}
