//! The features that are on by those that are given.
ghost use Rattle.std.specs.Prelude.{◌≡◌, true, false, Some, slice_get, IfOk, MatchOption};
ghost use Rattle.nc_yang_scopes.specs.Scopes.{Located};
ghost use Rattle.nc_yang_nodes.specs.FeaturesOn.{is_on};
ghost use Rattle.nc_yang_nodes.specs.Supported as words;
ghost use Rattle.nc_yang_nodes.specs.inner.Narrowing.{IsOff, Narrows, TakesAllOff, TakesOff};

use crate::entries::{is_feature_on, is_supported};
use crate::features::Features;
use crate::table::child_of;
use nc_names::{Many, Memory};
use nc_yang_order::{Ordered, is_within, targets_first};
use nc_yang_scopes::Scopes;
use nc_yang_statements::{Keyword, is_same_keyword, kind, name};
use std::alloc::Global;

// Whether the statement of a number defines a feature that is on, and names one that is off.
fn is_unsupported<'a>(scopes: &Scopes<'a>, features: &Features<'a>, number: usize) -> bool
    ensures { (l : Located) → slice_get scopes.now.located number ≡ Some l
        → result ≡ words.is_unsupported scopes.now.texts (is_on features.now) l }
{
    let Some(statement) = scopes.statement(number) else {
        return false;
    };
    if !is_same_keyword(Keyword::Feature, kind(statement)) {
        return false;
    }
    if !is_feature_on(scopes, features, number) {
        return false;
    }
    !is_supported(scopes, features, number, statement)
}

// Whether there is a statement of that number that does so.
fn is_off<'a>(scopes: &Scopes<'a>, features: &Features<'a>, number: usize) -> bool
    ensures off { result ≡ true → IsOff scopes.now (is_on features.now) number }
    ensures kept { result ≡ false → (l : Located) → slice_get scopes.now.located number ≡ Some l
        → words.is_unsupported scopes.now.texts (is_on features.now) l ≡ false }
{
    match scopes.statement(number) {
        Some(_) => is_unsupported(scopes, features, number),
        None => false,
    }
}

// The first statement that defines a feature that is on, and names one that is off.
fn first_unsupported<'a>(scopes: &Scopes<'a>, features: &Features<'a>) -> Option<usize>
    ensures { MatchOption result (words.AreTogether scopes.now (is_on features.now))
        (IsOff scopes.now (is_on features.now)) }
{
    for number in 0..scopes.len() {
        if is_off(scopes, features, number) {
            return Some(number);
        }
    }
    None
}

// Without the feature that the statement of a number defines.
fn taken_off<'a>(scopes: &Scopes<'a>, features: Features<'a>, number: usize) -> Features<'a>
    requires { IsOff scopes.now (is_on features) number }
    ensures { TakesOff scopes.now features.entry result }
{
    let Some(text) = scopes.text(number) else {
        unreachable!();
    };
    let Some(statement) = scopes.statement(number) else {
        unreachable!();
    };
    features.without(text, name(statement))
}

// Without the feature that the statement of a number defines, where one that it names is off.
fn narrowed<'a>(scopes: &Scopes<'a>, features: Features<'a>, number: usize) -> Features<'a>
    ensures { Narrows scopes.now (is_on features.entry) (is_on result) }
{
    if is_off(scopes, &features, number) {
        taken_off(scopes, features, number)
    } else {
        features
    }
}

// The same for statements, one after another.
fn narrowed_by<'a>(scopes: &Scopes<'a>, given: Features<'a>, order: &[u32]) -> Features<'a>
    ensures { Narrows scopes.now (is_on given.entry) (is_on result) }
{
    let mut features = given;
    for number in order {
        features = narrowed(scopes, features, *number as usize);
    }
    features
}

// The feature that the statement in a place in the one of a number names.
fn named_at(scopes: &Scopes, number: usize, place: usize) -> Option<u32> {
    let child = child_of(scopes, number, place)?;
    let statement = scopes.statement(child)?;
    if !is_same_keyword(Keyword::IfFeature, kind(statement)) {
        return None;
    }
    let found = scopes.resolve(Keyword::Feature, child, name(statement))?;
    u32::try_from(found).ok()
}

// The features that the one of a number names.
fn named_in(alloc: Global, scopes: &Scopes, number: usize) -> Result<Many<u32>, Memory> {
    let mut named = Many::new(alloc);
    let Some(statement) = scopes.statement(number) else {
        return Ok(named);
    };
    if !is_same_keyword(Keyword::Feature, kind(statement)) {
        return Ok(named);
    }
    for place in 0..statement.below.len() {
        if let Some(target) = named_at(scopes, number, place) {
            named.push(target)?;
        }
    }
    Ok(named)
}

// For each statement the features that it names, if it defines one.
fn graph(alloc: Global, scopes: &Scopes) -> Result<Many<Many<u32>>, Memory> {
    let mut graph = Many::new(alloc);
    for number in 0..u32::MAX as usize {
        if scopes.statement(number).is_none() {
            return Ok(graph);
        }
        graph.push(named_in(alloc, scopes, number)?)?;
    }
    Ok(graph)
}

// All numbers below a count.
fn ascending(alloc: Global, count: usize) -> Result<Many<u32>, Memory> {
    let mut numbers = Many::new(alloc);
    for number in 0..count {
        if let Ok(next) = u32::try_from(number) {
            numbers.push(next)?;
        }
    }
    Ok(numbers)
}

// The statements in an order in which features come after those that they name, if there is one.
fn order(alloc: Global, scopes: &Scopes) -> Result<Many<u32>, Memory> {
    let graph = graph(alloc, scopes)?;
    if graph.len() > u32::MAX as usize || !is_within(graph.as_slice()) {
        return ascending(alloc, graph.len());
    }
    match targets_first(alloc, graph.as_slice())? {
        Ordered::Order(order) => Ok(order),
        Ordered::Circle { .. } => ascending(alloc, graph.len()),
    }
}

// Those that can be on together: one after another is taken off, until each that they name is on.
fn together<'a>(scopes: &Scopes<'a>, given: Features<'a>) -> Features<'a>
    ensures { TakesAllOff scopes.now (is_on given.entry) (is_on result) }
{
    let mut features = given;
    while let Some(number) = first_unsupported(scopes, &features) {
        features = taken_off(scopes, features, number);
    }
    features
}

/// The features that are on by those that are given: as many of these as can be on together, since one is off
/// where one that it names by `if-feature` is (RFC 7950 7.20.1, 7.20.2). They are looked at in an order in
/// which each comes after those that it names, so that one round is enough.
pub fn features_on<'a>(
    alloc: Global,
    scopes: &Scopes<'a>,
    given: Features<'a>,
) -> Result<Features<'a>, Memory>
    ensures { IfOk result (λ it. words.AreOn scopes.now (is_on given.entry) (is_on it)) }
{
    let order = order(alloc, scopes)?;
    let features = narrowed_by(scopes, given, order.as_slice());
    Ok(together(scopes, features))
}
