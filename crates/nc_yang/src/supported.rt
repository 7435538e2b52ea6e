//! Which `if-feature` statements hold in the texts of modules.
ghost use Rattle.std.specs.Prelude.{◌≡◌, ◌<◌, length, slice_get, option_and_then, IfSome};
ghost use Rattle.nc_yang_leafs.specs.Conditions as conditions;
ghost use Rattle.nc_yang_nodes.specs.FeaturesOn.{is_on};
ghost use Rattle.nc_yang_scopes.specs.Scopes as names;
ghost use Rattle.nc_yang_statements.specs.declared.keyword.Keyword.TheVariants.{Feature as FeatureWord};
ghost use Rattle.nc_yang.specs.Features.{at_top};
ghost use Rattle.nc_yang.specs.inner.Conditions.{is_on_at};

use nc_yang_nodes::Features;
use nc_yang_scopes::Scopes;
use nc_yang_statements::{Keyword, name};
use nc_yang_types::Features as Conditions;

/// The number of the feature to which a reference leads at the top of a text.
pub(crate) fn feature_at<'a>(scopes: &Scopes<'a>, text: usize, reference: &'a str) -> Option<usize>
    ensures value { option_and_then (slice_get scopes.now.located) result
        ≡ names.resolved scopes.now.texts FeatureWord reference.now (at_top scopes.now.texts text) }
    ensures there { IfSome result (λ number. number < length scopes.now.located) }
{
    let root = scopes.root(text)?;
    let statement = scopes.statement(root)?;
    if statement.below.is_empty() {
        return None;
    }
    let first = scopes.child(root, 0);
    scopes.resolve(Keyword::Feature, first, reference)
}

/// The `if-feature` statements of the texts, with the features that are on.
pub(crate) struct Supported<'b, 'a> {
    pub scopes: &'b Scopes<'a>,
    pub features: &'b Features<'a>,
}

impl<'b, 'a> Drop for Supported<'b, 'a> {
    fn drop(self) {
        let Supported {
            scopes: _,
            features: _,
        } = self;
    }
}

// Whether the feature that the statement of a number defines is on.
fn is_feature_on<'a>(scopes: &Scopes<'a>, features: &Features<'a>, number: usize) -> bool
    ensures { result ≡ is_on_at (is_on features.now) (slice_get scopes.now.located number) }
{
    match (scopes.text(number), scopes.statement(number)) {
        (Some(text), Some(statement)) => features.is_on(text, name(statement)),
        _ => false,
    }
}

// Whether an `if-feature` of that argument holds in a text.
fn holds<'a>(scopes: &Scopes<'a>, features: &Features<'a>, text: usize, argument: &'a str) -> bool
    ensures { result ≡ conditions.holds scopes.now.texts (is_on features.now) text argument.now }
{
    match feature_at(scopes, text, argument) {
        Some(number) => is_feature_on(scopes, features, number),
        None => false,
    }
}

impl<'b, 'a> Conditions<'a> for Supported<'b, 'a> {
    ghost on = { λ s. conditions.holds s.scopes.now.texts (is_on s.features.now) };

    fn is_on(&self, text: usize, reference: &'a str) -> bool {
        holds(self.scopes, self.features, text, reference)
    }
}
