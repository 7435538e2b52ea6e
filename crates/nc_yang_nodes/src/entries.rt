//! What each statement gives.
ghost use Rattle.std.specs.Prelude.{◌≡◌, Some, slice_get, IfOk};
ghost use Rattle.nc_yang_scopes.specs.Scopes.{Located};
ghost use Rattle.nc_yang_nodes.specs.FeaturesOn.{is_on};
ghost use Rattle.nc_yang_nodes.specs.Roles as roles;
ghost use Rattle.nc_yang_nodes.specs.inner.Tables as tables;

use crate::denial::denial;
use crate::features::Features;
use crate::role::{Role, role_of};
use crate::table::{Entry, child_of};
use nc_names::{Many, Memory};
use nc_yang_scopes::{Scopes, is_state};
use nc_yang_statements::{Keyword, is_same_keyword, kind, name};
use nc_yang_words::Statement;
use std::alloc::Global;

/// Whether the feature that the statement of a number defines is on.
pub(crate) fn is_feature_on<'a>(scopes: &Scopes<'a>, features: &Features<'a>, number: usize) -> bool
    ensures { result ≡ tables.on_at (is_on features.now) (slice_get scopes.now.located number) }
{
    let Some(text) = scopes.text(number) else {
        return false;
    };
    let Some(statement) = scopes.statement(number) else {
        return false;
    };
    features.is_on(text, name(statement))
}

// Whether the feature that the statement of a number names is on.
fn is_met<'a>(scopes: &Scopes<'a>, features: &Features<'a>, number: usize) -> bool
    ensures { (l : Located) → slice_get scopes.now.located number ≡ Some l
        → result ≡ roles.is_met scopes.now.texts (is_on features.now) l }
{
    let Some(statement) = scopes.statement(number) else {
        return false;
    };
    match scopes.resolve(Keyword::Feature, number, name(statement)) {
        Some(found) => is_feature_on(scopes, features, found),
        None => false,
    }
}

// Whether the statement of a number is no `if-feature`, or names a feature that is on.
fn allows<'a>(scopes: &Scopes<'a>, features: &Features<'a>, number: usize) -> bool
    ensures { (l : Located) → slice_get scopes.now.located number ≡ Some l
        → result ≡ tables.allows scopes.now.texts (is_on features.now) l }
{
    let Some(statement) = scopes.statement(number) else {
        return false;
    };
    if is_same_keyword(Keyword::IfFeature, kind(statement)) {
        is_met(scopes, features, number)
    } else {
        true
    }
}

// The same of the one in a place in the statement of a number.
fn allows_at<'a>(scopes: &Scopes<'a>, features: &Features<'a>, number: usize, place: usize) -> bool
    ensures { (l : Located) → slice_get (tables.children_at scopes.now number) place ≡ Some l
        → result ≡ tables.allows scopes.now.texts (is_on features.now) l }
{
    match child_of(scopes, number, place) {
        Some(child) => allows(scopes, features, child),
        None => false,
    }
}

/// Whether no `if-feature` in the statement of a number names a feature that is off.
pub(crate) fn is_supported<'a>(
    scopes: &Scopes<'a>,
    features: &Features<'a>,
    number: usize,
    statement: &'a Statement,
) -> bool
    requires { tables.HasNumber scopes.now number statement.now }
    ensures { (l : Located) → slice_get scopes.now.located number ≡ Some l
        → result ≡ roles.is_supported scopes.now.texts (is_on features.now) l }
{
    for place in 0..statement.below.len() {
        if !allows_at(scopes, features, number, place) {
            return false;
        }
    }
    true
}

/// Whether no `if-feature` in the statement of a number names a feature that is off (RFC 7950 7.20.2).
pub fn is_supported_at<'a>(scopes: &Scopes<'a>, features: &Features<'a>, number: usize) -> bool
    ensures { (l : Located) → slice_get scopes.now.located number ≡ Some l
        → result ≡ roles.is_supported scopes.now.texts (is_on features.now) l }
{
    match scopes.statement(number) {
        Some(statement) => is_supported(scopes, features, number, statement),
        None => false,
    }
}

/// What the statement of a number gives.
pub(crate) fn role_at<'a>(
    scopes: &Scopes<'a>,
    features: &Features<'a>,
    number: usize,
    statement: &'a Statement,
) -> Option<Role>
    requires { tables.HasNumber scopes.now number statement.now }
    ensures { (l : Located) → slice_get scopes.now.located number ≡ Some l
        → result ≡ roles.role scopes.now.texts (is_on features.now) l }
{
    if is_state(statement) {
        return None;
    }
    if is_supported(scopes, features, number, statement) {
        role_of(denial(scopes, number, statement), kind(statement))
    } else {
        None
    }
}

// What is known of the statement of a number.
fn entry_of<'a>(
    scopes: &Scopes<'a>,
    features: &Features<'a>,
    number: usize,
    statement: &'a Statement,
) -> Entry
    requires { tables.HasNumber scopes.now number statement.now }
    ensures { (l : Located) → slice_get scopes.now.located number ≡ Some l
        → tables.IsStored scopes.now (is_on features.now) l result }
{
    let role = role_at(scopes, features, number, statement);
    let block = match role {
        Some(Role::Uses(_)) => scopes.resolve(Keyword::Grouping, number, name(statement)),
        _ => Some(number),
    };
    Entry { role, block }
}

/// What is known of each statement.
pub(crate) fn entries_of<'a>(
    alloc: Global,
    scopes: &Scopes<'a>,
    features: &Features<'a>,
) -> Result<Many<Entry>, Memory>
    ensures { IfOk result (tables.AreStored scopes.now (is_on features.now)) }
{
    let mut entries = Many::new(alloc);
    for number in 0..scopes.len() {
        let Some(statement) = scopes.statement(number) else {
            return Ok(entries);
        };
        entries.push(entry_of(scopes, features, number, statement))?;
    }
    Ok(entries)
}
