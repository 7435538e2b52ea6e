//! The features that lines name.
ghost use Rattle.std.specs.Prelude.{◌≡◌, ◌||◌, ℕ, true, List, IfOk, MatchOption};
ghost use Rattle.std.specs.List.{All};
ghost use Rattle.nc_yang_nodes.specs.FeaturesOn.{is_on};
ghost use Rattle.nc_yang.specs.Features as words;

use crate::supported::feature_at;
use nc_names::{Memory, Text};
use nc_yang_nodes::Features;
use nc_yang_scopes::{Scopes, split_reference};
use std::alloc::Global;

// With the feature that a line names.
fn with_line<'a>(
    scopes: &Scopes<'a>,
    features: Features<'a>,
    line: &'a Text,
) -> Result<Features<'a>, Memory>
    ensures { IfOk result (λ it. (text : ℕ) (feature : List ℕ) → is_on it text feature
        ≡ (words.names_it scopes.now.texts text feature line.now || is_on features.entry text feature)) }
{
    let Some((name, feature)) = split_reference(line.as_str()) else {
        return Ok(features);
    };
    match scopes.text_of(name) {
        Some(text) => features.with(text, feature),
        None => Ok(features),
    }
}

/// The features that lines name, each `module:feature` (RFC 7950 7.20.1).
pub(crate) fn given<'a>(
    alloc: Global,
    scopes: &Scopes<'a>,
    lines: &'a [Text],
) -> Result<Features<'a>, Memory>
    ensures { IfOk result (λ it. (text : ℕ) (feature : List ℕ) → is_on it text feature
        ≡ words.is_given scopes.now.texts lines.now text feature) }
{
    let mut features = Features::new(alloc);
    for line in lines {
        features = with_line(scopes, features, line)?;
    }
    Ok(features)
}

// Whether the module of a text defines a feature.
fn has_feature<'a>(scopes: &Scopes<'a>, feature: &'a str, text: usize) -> bool
    ensures { result ≡ words.has_feature scopes.now.texts feature.now text }
{
    if split_reference(feature).is_some() {
        return false;
    }
    feature_at(scopes, text, feature).is_some()
}

// Whether a line names a feature of one of the modules.
fn is_feature<'a>(scopes: &Scopes<'a>, line: &'a Text) -> bool
    ensures { result ≡ words.is_feature scopes.now.texts line.now }
{
    let Some((name, feature)) = split_reference(line.as_str()) else {
        return false;
    };
    match scopes.text_of(name) {
        Some(text) => has_feature(scopes, feature, text),
        None => false,
    }
}

/// The place of the first line that names no feature of the modules, each `module:feature` (RFC 7950 7.20.1),
/// or `None` where each names one.
pub(crate) fn first_unknown<'a>(scopes: &Scopes<'a>, lines: &'a [Text]) -> Option<usize>
    ensures { MatchOption result (All (λ line. words.is_feature scopes.now.texts line ≡ true) lines.now)
        (words.IsFirstOther scopes.now.texts lines.now) }
{
    for (place, line) in lines.iter().enumerate() {
        if !is_feature(scopes, line) {
            return Some(place);
        }
    }
    None
}
