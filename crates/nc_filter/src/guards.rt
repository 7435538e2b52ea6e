//! Elements by what they ask for of an instance: names, and content matches at their levels (RFC 6241 6.2.5).
ghost use Rattle.std.specs.Prelude.{◌≡◌, ◌∷◌, ◌++◌, [], ◌||◌, ◌+◌, ℕ, true, Bool, List, IfOk, map};
ghost use Rattle.std.specs.List.{list_any};
ghost use Rattle.nc_filter.specs.inner.Runs as inner;
ghost use Rattle.nc_filter.specs.inner.Lists.{AddsOne, IsLast, IsSame};

use crate::instances::asked_in;
use nc_message::Elem;
use nc_names::{Many, Memory};
use std::alloc::Global;

/// Elements that ask for the same of an instance, and what that is.
#[derive(Drop)]
pub(crate) struct Class<'a> {
    pub(crate) keys: Many<Many<u8>>,
    pub(crate) elems: Many<&'a Elem>,
}

fn sorted_keys(keys: Many<Many<u8>>) -> Result<Many<Many<u8>>, Memory>
    ensures { IfOk result (λ it. IsSame keys it) }
{
    let mut items = keys.into_vec();
    items.sort()?;
    Ok(Many::from_vec(items))
}

fn is_last(keys: &Many<Many<u8>>, key: &Many<u8>) -> bool
    ensures { result ≡ true → IsLast keys.now key.now }
{
    match keys.last() {
        Some(last) => last == key,
        None => false,
    }
}

// Some keys and one more, unless it is the last of them.
fn with_once(keys: Many<Many<u8>>, key: Many<u8>) -> Result<Many<Many<u8>>, Memory>
    ensures { IfOk result (λ it. AddsOne keys it key) }
{
    if is_last(&keys, &key) {
        return Ok(keys);
    }
    let mut more = keys;
    more.push(key)?;
    Ok(more)
}

/// Some keys in order, each once.
pub(crate) fn unique(alloc: Global, keys: Many<Many<u8>>) -> Result<Many<Many<u8>>, Memory>
    ensures { IfOk result (λ it. IsSame keys it) }
{
    let mut rest = sorted_keys(keys)?;
    let mut out = Many::new(alloc);
    'keys: while let Some(key) = rest.pop() {
        out = with_once(out, key)?;
    }
    Ok(out)
}

fn class_of<'a>(alloc: Global, upper: Option<usize>, elem: &'a Elem) -> Result<Class<'a>, Memory>
    ensures { IfOk result (λ it. inner.IsClass upper it elem.now) }
{
    let keys = unique(alloc, asked_in(alloc, upper, elem)?)?;
    let mut elems = Many::new(alloc);
    elems.push(elem)?;
    Ok(Class { keys, elems })
}

// A class for each element.
fn class_each<'a>(
    alloc: Global,
    upper: Option<usize>,
    elems: &[&'a Elem],
) -> Result<Many<Class<'a>>, Memory>
    ensures { IfOk result (λ it. inner.AreClasses upper (map (λ elem. elem.now) elems.now) it) }
{
    let mut out = Many::new(alloc);
    for elem in elems {
        out.push(class_of(alloc, upper, elem)?)?;
    }
    Ok(out)
}

fn sorted_classes<'a>(classes: Many<Class<'a>>) -> Result<Many<Class<'a>>, Memory>
    ensures { IfOk result (λ it. IsSame classes.entry it) }
{
    let mut items = classes.into_vec();
    items.sort_by(|one, other| one.keys.cmp(&other.keys))?;
    Ok(Many::from_vec(items))
}

// A class with the elements of another.
fn joined<'a>(class: Class<'a>, other: Class<'a>) -> Result<Class<'a>, Memory>
    ensures { IfOk result (λ it. (it.keys ≡ class.entry.keys)
        × (it.elems ≡ class.entry.elems ++ other.entry.elems)) }
{
    let Class { keys, elems } = class;
    let mut elems = elems;
    elems.append(other.elems)?;
    Ok(Class { keys, elems })
}

fn is_same_class(one: &Class, other: &Class) -> bool
    ensures { result ≡ true → one.now.keys ≡ other.now.keys }
{
    one.keys == other.keys
}

// Classes with one more, whose elements go to the last where that has the same keys.
#[tactic(auto, using(crate::proofs::ClassLemmas::class_joined, crate::proofs::ClassLemmas::class_apart))]
fn with_class<'a>(classes: Many<Class<'a>>, class: Class<'a>) -> Result<Many<Class<'a>>, Memory>
    ensures { IfOk result (λ it. inner.AddsClass classes.entry it class.entry) }
{
    let mut classes = classes;
    let Some(last) = classes.pop() else {
        classes.push(class)?;
        return Ok(classes);
    };
    if is_same_class(&last, &class) {
        classes.push(joined(last, class)?)?;
        return Ok(classes);
    }
    classes.push(last)?;
    classes.push(class)?;
    Ok(classes)
}

/// Some elements by what they ask for, each set of it once.
pub(crate) fn classes<'a>(
    alloc: Global,
    upper: Option<usize>,
    elems: &[&'a Elem],
) -> Result<Many<Class<'a>>, Memory>
    ensures { IfOk result (λ it. inner.AreClasses upper (map (λ elem. elem.now) elems.now) it) }
{
    let each = class_each(alloc, upper, elems)?;
    let mut rest = sorted_classes(each)?;
    let mut out = Many::new(alloc);
    'classes: while let Some(class) = rest.pop() {
        out = with_class(out, class)?;
    }
    Ok(out)
}
