//! The cases of a choice by their names.
ghost use Rattle.std.specs.Prelude.{◌≡◌, Some, None, slice_get, if◌then◌else◌};
ghost use Rattle.nc_yang_scopes.specs.Scopes.{Located};
ghost use Rattle.nc_yang_nodes.specs.Cases as words;
ghost use Rattle.nc_yang_nodes.specs.FeaturesOn.{is_on};
ghost use Rattle.nc_yang_nodes.specs.inner.Seen.{Sees};
ghost use Rattle.nc_yang_nodes.specs.inner.Tables.{children_at};

use crate::entries::role_at;
use crate::features::Features;
use crate::table::child_of;
use nc_yang_scopes::Scopes;
use nc_yang_statements::name;

// Whether the statement of a number has that name, if it gives something.
fn seen<'a>(scopes: &Scopes<'a>, features: &Features<'a>, number: usize, word: &str) -> Option<bool>
    ensures { (l : Located) → slice_get scopes.now.located number ≡ Some l
        → Sees scopes.now.texts (is_on features.now) word.now l result }
{
    let statement = scopes.statement(number)?;
    if role_at(scopes, features, number, statement).is_some() {
        Some(name(statement) == word)
    } else {
        None
    }
}

// The same of the one in a place in the statement of a number.
fn seen_at<'a>(
    scopes: &Scopes<'a>,
    features: &Features<'a>,
    number: usize,
    place: usize,
    word: &str,
) -> Option<bool>
    ensures { (l : Located) → slice_get (children_at scopes.now number) place ≡ Some l
        → Sees scopes.now.texts (is_on features.now) word.now l result }
{
    seen(scopes, features, child_of(scopes, number, place)?, word)
}

/// The number of the case of a name in the choice that the statement of a number defines, or `None` where it
/// has none that is there (RFC 7950 7.9.2, 7.9.3). It takes no memory.
pub fn case_of<'a>(
    scopes: &Scopes<'a>,
    features: &Features<'a>,
    choice: usize,
    word: &str,
) -> Option<usize>
    ensures { (l : Located) → slice_get scopes.now.located choice ≡ Some l
        → result ≡ words.case_of scopes.now.texts (is_on features.now) word.now l }
{
    let statement = scopes.statement(choice)?;
    let mut count = 0;
    for place in 0..statement.below.len() {
        match seen_at(scopes, features, choice, place, word) {
            Some(true) => return Some(count),
            Some(false) => count += 1,
            None => {}
        }
    }
    None
}
