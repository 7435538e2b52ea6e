//! Which statements are definitions.
ghost use Rattle.std.specs.Prelude.{◌≡◌, ◌<◌, ◌+◌, true, false, length, replicate, slice_set, IfOk, OnOk};
ghost use Rattle.nc_yang_scopes.specs.inner.Links as words;

use crate::Scopes;
use crate::kinds::{Defined, defining};
use crate::within::{is_of, within};
use nc_names::{Many, Memory};
use nc_yang_statements::Keyword;
use std::alloc::Global;

// No marks.
fn unmarked(alloc: Global, count: usize) -> Result<Many<bool>, Memory>
    ensures { IfOk result (λ it. it ≡ replicate count false) }
{
    let mut marks = Many::new(alloc);
    for i in 0..count {
        marks.push(false)?;
    }
    Ok(marks)
}

// Marks a number.
fn mark(marks: &mut Many<bool>, number: usize)
    ensures { marks.new ≡ slice_set marks.old number true }
{
    if number < marks.len() {
        marks.set(number, true);
    }
}

// Marks a number if its statement has that keyword.
fn mark_if(scopes: &Scopes, keyword: Keyword, number: usize, marks: &mut Many<bool>)
    ensures { marks.new ≡ words.marked_if (words.is_of scopes.now keyword number) marks.old number }
{
    if is_of(scopes, keyword, number) {
        mark(marks, number);
    }
}

// Marks those of the numbers whose statements have that keyword.
fn mark_all(scopes: &Scopes, keyword: Keyword, numbers: &[usize], marks: &mut Many<bool>)
    ensures { words.Marks scopes.now keyword numbers.now marks.old marks.new }
{
    for number in numbers {
        mark_if(scopes, keyword, *number, marks);
    }
}

// Marks the definitions of a text.
fn mark_text(
    alloc: Global,
    scopes: &Scopes,
    sort: Defined,
    text: usize,
    marks: &mut Many<bool>,
) -> Result<(), Memory>
    requires within { text < length scopes.now.texts }
    requires marks { words.AreMarked scopes.now sort text marks.old }
    ensures { OnOk result (words.AreMarked scopes.now sort (text + 1) marks.new) }
{
    let Some(root) = scopes.root(text) else {
        return Ok(());
    };
    let numbers = within(alloc, scopes, root)?;
    mark_all(scopes, defining(sort), numbers.as_slice(), marks);
    Ok(())
}

/// Whether a number is marked.
pub(crate) fn is_marked(marks: &[bool], number: usize) -> bool
    ensures { result ≡ words.is_marked marks.now number }
{
    if number < marks.len() {
        marks[number]
    } else {
        false
    }
}

/// The marks of all definitions of a sort, by the numbers of statements.
pub(crate) fn marks(alloc: Global, scopes: &Scopes, sort: Defined) -> Result<Many<bool>, Memory>
    ensures { IfOk result (words.AreMarks scopes.now sort) }
{
    let mut marks = unmarked(alloc, scopes.len())?;
    for text in 0..scopes.texts() {
        mark_text(alloc, scopes, sort, text, &mut marks)?;
    }
    Ok(marks)
}
