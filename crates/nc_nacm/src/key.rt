//! Rules about data nodes by their module and pattern.
ghost use Rattle.std.specs.Prelude.{◌≡◌, map, is_some, IfOk};
ghost use Rattle.std.specs.Cmp.Lexicographic.{slice_cmp};
ghost use Rattle.std.specs.Option.{option_cmp, option_copied};
ghost use Rattle.nc_nacm.specs.inner.Keys as inner;

use nc_model::{Rule, RuleKind};
use nc_names::{Copies, Many, Memory, Step, Text};
use nc_schema::PatternStep;
use std::alloc::Global;
use std::cmp::Ordering;

/// One step of a pattern, in an order.
#[derive(PartialEq, Eq, PartialOrd, Ord, Drop)]
pub(crate) struct KeyStep {
    pub(crate) node: u32,
    pub(crate) keys: Many<Option<Text>>,
}

/// The module and the pattern of a rule about data nodes.
#[derive(PartialEq, Eq, PartialOrd, Ord, Drop)]
pub(crate) struct Key {
    pub(crate) module: Text,
    pub(crate) steps: Many<KeyStep>,
}

fn key_step(step: &PatternStep) -> Result<KeyStep, Memory>
    ensures { IfOk result (λ it. it ≡ inner.key_step step.now) }
{
    Ok(KeyStep {
        node: step.node,
        keys: step.keys.copy()?,
    })
}

fn key_steps(alloc: Global, pattern: &[PatternStep]) -> Result<Many<KeyStep>, Memory>
    ensures { IfOk result (λ it. it ≡ map inner.key_step pattern.now) }
{
    let mut steps = Many::new(alloc);
    for step in pattern {
        steps.push(key_step(step)?)?;
    }
    Ok(steps)
}

/// The key of a rule with that pattern.
pub(crate) fn key_of(alloc: Global, rule: &Rule, pattern: &[PatternStep]) -> Result<Key, Memory>
    ensures { IfOk result (λ it. it ≡ inner.key_of rule.now pattern.now) }
{
    Ok(Key {
        module: rule.module.copy()?,
        steps: key_steps(alloc, pattern)?,
    })
}

/// The pattern of a rule about data nodes.
pub(crate) fn pattern_in(kind: &RuleKind) -> Option<&[PatternStep]>
    ensures { option_copied result ≡ inner.pattern_in kind.now }
{
    match kind {
        RuleKind::OfAll => Some(&[]),
        RuleKind::OfData(pattern) => Some(pattern.steps.as_slice()),
        RuleKind::OfOperation(_) | RuleKind::OfNotification(_) | RuleKind::OfNothing => None,
    }
}

fn given_in(alloc: Global, step: &PatternStep) -> Result<Many<bool>, Memory>
    ensures { IfOk result (λ it. it ≡ map is_some step.now.keys) }
{
    let mut given = Many::new(alloc);
    for key in step.keys.as_slice() {
        given.push(key.is_some())?;
    }
    Ok(given)
}

/// Which keys a pattern gives.
pub(crate) fn shape_of(alloc: Global, pattern: &[PatternStep]) -> Result<Many<Many<bool>>, Memory>
    ensures { IfOk result (λ it. it ≡ inner.shape_of pattern.now) }
{
    let mut shape = Many::new(alloc);
    for step in pattern {
        shape.push(given_in(alloc, step)?)?;
    }
    Ok(shape)
}

fn compare_texts(text: &str, other: &str) -> Ordering
    ensures { result ≡ inner.text_cmp text.now other.now }
{
    text.cmp(other)
}

fn wanted(given: bool, key: Option<&Text>) -> Option<&Text>
    ensures { option_copied result ≡ inner.wanted given (option_copied key.entry) }
{
    if given { key } else { None }
}

fn compare_given(key: Option<&Text>, other: Option<&Text>) -> Ordering
    ensures { result ≡ option_cmp inner.text_cmp (option_copied key.entry) (option_copied other.entry) }
{
    match (key, other) {
        (None, None) => Ordering::Equal,
        (None, Some(_)) => Ordering::Less,
        (Some(_), None) => Ordering::Greater,
        (Some(key), Some(other)) => compare_texts(key.as_str(), other.as_str()),
    }
}

/// The keys of a step of a pattern beside those of a path that a shape gives.
fn compare_keys(keys: &[Option<Text>], given: &[bool], own: &[Text]) -> Ordering
    ensures { result ≡ inner.given_cmp keys.now (inner.masked_keys given.now own.now) }
{
    let mut rest = given;
    for (at, key) in keys.iter().enumerate() {
        let Some((is_given, more)) = rest.split_first() else {
            return Ordering::Greater;
        };
        let order = compare_given(key.as_ref(), wanted(*is_given, own.get(at)));
        if order != Ordering::Equal {
            return order;
        }
        rest = more;
    }
    if rest.is_empty() {
        return Ordering::Equal;
    }
    Ordering::Less
}

fn compare_step(one: &KeyStep, given: &[bool], step: &Step) -> Ordering
    ensures { result ≡ inner.step_cmp one.now
        (record { node = step.now.node; keys = inner.masked_keys given.now step.now.keys }) }
{
    let order = one.node.cmp(&step.node);
    if order != Ordering::Equal {
        return order;
    }
    compare_keys(one.keys.as_slice(), given, step.keys.as_slice())
}

/// A pattern beside the one of a shape that covers a path.
fn compare_steps(pattern: &[KeyStep], shape: &[Many<bool>], steps: &[Step]) -> Ordering
    ensures { result ≡ slice_cmp inner.step_cmp pattern.now (inner.masked shape.now steps.now) }
{
    let mut shapes = shape;
    let mut rest = steps;
    for one in pattern {
        let Some((given, more)) = shapes.split_first() else {
            return Ordering::Greater;
        };
        let Some((step, further)) = rest.split_first() else {
            return Ordering::Greater;
        };
        let order = compare_step(one, given.as_slice(), step);
        if order != Ordering::Equal {
            return order;
        }
        shapes = more;
        rest = further;
    }
    if shapes.is_empty() {
        return Ordering::Equal;
    }
    if rest.is_empty() {
        return Ordering::Equal;
    }
    Ordering::Less
}

/// A key beside the one that is sought for a path.
pub(crate) fn compare(key: &Key, name: &str, shape: &[Many<bool>], steps: &[Step]) -> Ordering
    ensures { result ≡ inner.key_cmp key.now (inner.sought name.now shape.now steps.now) }
{
    let order = compare_texts(key.module.as_str(), name);
    if order != Ordering::Equal {
        return order;
    }
    compare_steps(key.steps.as_slice(), shape, steps)
}
