//! What modules say of themselves.
ghost use Rattle.std.specs.Prelude.{◌≡◌, ◌++◌, ◌∷◌, [], IfOk, OnOk};
ghost use Rattle.nc_yang_data.specs.Modules as modules;
ghost use Rattle.nc_yang_nodes.specs.FeaturesOn.{is_on};

use crate::texts::namespace_in;
use nc_names::{Many, Memory, Module, Text};
use nc_yang_nodes::Features;
use nc_yang_statements::{Keyword, is_same_keyword, kind, name};
use nc_yang_words::Statement;
use std::alloc::Global;
use std::cmp::Ordering;

// Whether a date comes before another.
fn is_earlier(date: &str, other: &str) -> bool
    ensures { result ≡ modules.is_earlier date.now other.now }
{
    match date.cmp(other) {
        Ordering::Less => true,
        _ => false,
    }
}

// The later of a date and that of a `revision` statement.
fn later<'t>(date: &'t str, statement: &'t Statement) -> &'t str
    ensures { result.now ≡ modules.later date.now statement.now }
{
    if is_same_keyword(Keyword::Revision, kind(statement)) && is_earlier(date, name(statement)) {
        name(statement)
    } else {
        date
    }
}

// The latest date of the revisions, or nothing where there is none.
fn latest(among: &[Statement]) -> &str
    ensures { result.now ≡ modules.latest [] among.now }
{
    let mut date = "";
    for statement in among {
        date = later(date, statement);
    }
    date
}

// Puts the name of a feature that is on at the end.
fn push_feature<'a>(
    alloc: Global,
    features: &Features<'a>,
    text: usize,
    found: &mut Many<Text>,
    statement: &'a Statement,
) -> Result<(), Memory>
    ensures { OnOk result (found.new ≡ found.old ++ modules.features_in (is_on features.now) text
        (statement.now ∷ [])) }
{
    if is_same_keyword(Keyword::Feature, kind(statement)) && features.is_on(text, name(statement)) {
        found.push(Text::from_text(alloc, name(statement))?)?;
    }
    Ok(())
}

// The features of a module that are on.
fn features_in<'a>(
    alloc: Global,
    features: &Features<'a>,
    text: usize,
    among: &'a [Statement],
) -> Result<Many<Text>, Memory>
    ensures { IfOk result (λ it. it ≡ modules.features_in (is_on features.now) text among.now) }
{
    let mut found = Many::new(alloc);
    for statement in among {
        push_feature(alloc, features, text, &mut found, statement)?;
    }
    Ok(found)
}

/// The module of a text.
pub(crate) fn module_of<'a>(
    alloc: Global,
    features: &Features<'a>,
    text: usize,
    root: &'a Statement,
) -> Result<Module, Memory>
    ensures { IfOk result (λ it. it ≡ modules.module_of (is_on features.now) text root.now) }
{
    let among = root.below.as_slice();
    Ok(Module {
        name: Text::from_text(alloc, name(root))?,
        space: Text::from_text(alloc, namespace_in(root))?,
        revision: Text::from_text(alloc, latest(among))?,
        features: features_in(alloc, features, text, among)?,
    })
}
