//! What definitions name.
ghost use Rattle.std.specs.Prelude.{◌≡◌, ◌<◌, ◌^◌, length, slice_get, option_and_then, IsTrue, IfOk, OnOk};
ghost use Rattle.nc_yang_scopes.specs.inner.Naming.{HasNumber};
ghost use Rattle.nc_yang_scopes.specs.Scopes as definitions;
ghost use Rattle.nc_yang_scopes.specs.Loops as loops;
ghost use Rattle.nc_yang_scopes.specs.inner.Links as words;

use crate::Scopes;
use crate::kinds::{Defined, defining, naming};
use crate::marks::is_marked;
use crate::references::Link;
use crate::within::{is_of, within};
use nc_names::{Many, Memory};
use nc_yang_statements::{Keyword, built_in_of, is_closed, kind, name};
use nc_yang_words::Statement;
use std::alloc::Global;

// The number of the module that an import names.
fn imported<'a>(scopes: &Scopes<'a>, name: &'a str) -> Option<usize>
    ensures { option_and_then (slice_get scopes.now.located) result
        ≡ option_and_then (definitions.root scopes.now.texts)
        (definitions.text_of scopes.now.texts name.now) }
{
    match scopes.text_of(name) {
        Some(text) => scopes.root(text),
        None => None,
    }
}

// The number of the typedef that a type is.
fn typedef<'a>(scopes: &Scopes<'a>, number: usize, name: &'a str) -> Option<usize>
    ensures { words.Means scopes.now number result (λ l. loops.typedef_of scopes.now.texts name.now l.place) }
{
    if built_in_of(name).is_some() {
        return None;
    }
    scopes.resolve(Keyword::Typedef, number, name)
}

// The number of the definition that a statement names.
fn named<'a>(
    scopes: &Scopes<'a>,
    sort: Defined,
    number: usize,
    statement: &'a Statement,
) -> Option<usize>
    requires { HasNumber scopes.now number statement.now }
    ensures { words.Means scopes.now number result (loops.named scopes.now.texts sort) }
{
    match sort {
        Defined::Modules => imported(scopes, name(statement)),
        Defined::Typedefs => typedef(scopes, number, name(statement)),
        Defined::Groupings => scopes.resolve(Keyword::Grouping, number, name(statement)),
        Defined::Identities => scopes.resolve(Keyword::Identity, number, name(statement)),
        Defined::Features => scopes.resolve(Keyword::Feature, number, name(statement)),
    }
}

// Whether the text in which a statement stands is passed over.
fn is_in_closed(scopes: &Scopes, number: usize) -> bool
    ensures { result ≡ words.is_in_closed scopes.now number }
{
    let Some(text) = scopes.text(number) else {
        return false;
    };
    let Some(root) = scopes.root(text) else {
        return false;
    };
    match scopes.statement(root) {
        Some(statement) => is_closed(kind(statement)),
        None => false,
    }
}

// Whether the statement of a number is seen to be no definition of a text.
fn is_out(scopes: &Scopes, sort: Defined, number: usize) -> bool
    ensures { IsTrue result → words.IsNone scopes.now sort number }
{
    if is_of(scopes, defining(sort), number) {
        is_in_closed(scopes, number)
    } else {
        true
    }
}

// The number, if it is marked.
fn marked(marks: &[bool], number: usize) -> Option<u32>
    requires { length marks.now < 2 ^ 32 }
    ensures { words.Finds marks.now number result }
{
    if number < marks.len() {
        if marks[number] {
            return Some(number as u32);
        }
    }
    None
}

// What the statement of a number names.
fn link_of(
    scopes: &Scopes,
    sort: Defined,
    marks: &[bool],
    number: usize,
) -> Result<Option<Link>, Memory>
    requires few { length marks.now < 2 ^ 32 }
    requires marks { words.AreMarks scopes.now sort marks.now }
    ensures { IfOk result (words.Links scopes.now sort marks.now number) }
{
    if !is_of(scopes, naming(sort), number) {
        return Ok(None);
    }
    let Some(statement) = scopes.statement(number) else {
        return Ok(None);
    };
    let Some(found) = named(scopes, sort, number, statement) else {
        return Ok(None);
    };
    if let Some(target) = marked(marks, found) {
        return Ok(Some(Link {
            reference: number,
            target,
        }));
    }
    if is_out(scopes, sort, found) {
        return Ok(None);
    }
    // Every definition is marked: `resolve` answers the number that was met, and promises one of the same
    // place.
    Err(Memory)
}

// Adds what the statement of a number names.
fn add_link(
    scopes: &Scopes,
    sort: Defined,
    marks: &[bool],
    number: usize,
    links: &mut Many<Link>,
) -> Result<(), Memory>
    requires few { length marks.now < 2 ^ 32 }
    requires marks { words.AreMarks scopes.now sort marks.now }
    ensures { OnOk result (words.AddsLink scopes.now sort marks.now number links.old links.new) }
{
    match link_of(scopes, sort, marks, number)? {
        Some(found) => links.push(found),
        None => Ok(()),
    }
}

// What the statements of numbers name.
fn collected(
    alloc: Global,
    scopes: &Scopes,
    sort: Defined,
    marks: &[bool],
    numbers: &[usize],
) -> Result<Many<Link>, Memory>
    requires few { length marks.now < 2 ^ 32 }
    requires marks { words.AreMarks scopes.now sort marks.now }
    ensures { IfOk result (words.Collects scopes.now sort marks.now numbers.now) }
{
    let mut links = Many::new(alloc);
    for number in numbers {
        add_link(scopes, sort, marks, *number, &mut links)?;
    }
    Ok(links)
}

// What is named in the definition of a number.
fn links_in(
    alloc: Global,
    scopes: &Scopes,
    sort: Defined,
    marks: &[bool],
    number: usize,
) -> Result<Many<Link>, Memory>
    requires few { length marks.now < 2 ^ 32 }
    requires marks { words.AreMarks scopes.now sort marks.now }
    ensures { IfOk result (words.AreLinks scopes.now sort marks.now number) }
{
    if !is_marked(marks, number) {
        return Ok(Many::new(alloc));
    }
    let numbers = within(alloc, scopes, number)?;
    collected(alloc, scopes, sort, marks, numbers.as_slice())
}

/// What is named in each definition, by its number.
pub(crate) fn all_links(
    alloc: Global,
    scopes: &Scopes,
    sort: Defined,
    marks: &[bool],
) -> Result<Many<Many<Link>>, Memory>
    requires few { length marks.now < 2 ^ 32 }
    requires marks { words.AreMarks scopes.now sort marks.now }
    ensures { IfOk result (words.AreAllLinks scopes.now sort marks.now) }
{
    let mut links = Many::new(alloc);
    for number in 0..scopes.len() {
        let own = links_in(alloc, scopes, sort, marks, number)?;
        links.push(own)?;
    }
    Ok(links)
}
