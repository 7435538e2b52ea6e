//! What stands there under features (RFC 7950 7.20.2).
ghost use Rattle.std.specs.Prelude.{◌≡◌};
ghost use Rattle.nc_yang_types.specs.Features as definitions;

use crate::Conditions;
use nc_yang_statements::{Keyword, is_same_keyword, kind, name};
use nc_yang_words::Statement;

/// Which `if-feature` statements hold (RFC 7950 5.6.2, 7.20.2).
pub trait Features<'a> {
    ghost use Rattle.std.specs.Prelude.{ℕ, Bool, List};

    ghost on: { Self → ℕ → List ℕ → Bool };

    /// Whether the feature is on to which the argument of an `if-feature` leads in the text of that number.
    fn is_on(&self, text: usize, reference: &'a str) -> bool
        ensures { result ≡ on self.now text reference.now };
}

// Whether a statement is no `if-feature`, or holds.
fn lets<'a, F: Features<'a>>(features: &F, text: usize, statement: &'a Statement) -> bool
    ensures { result ≡ definitions.lets (F.on features.now) text statement.now }
{
    if is_same_keyword(Keyword::IfFeature, kind(statement)) {
        features.is_on(text, name(statement))
    } else {
        true
    }
}

/// Whether all holds that is said by `if-feature` directly in a statement of a text.
pub(crate) fn stands<'a, F: Features<'a>>(
    features: &F,
    text: usize,
    statement: &'a Statement,
) -> bool
    ensures { result ≡ definitions.stands (F.on features.now) text statement.now }
{
    for below in statement.below.as_slice() {
        if !lets(features, text, below) {
            return false;
        }
    }
    true
}

/// Which names are there in the types of a text.
pub(crate) struct InText<'b, F> {
    pub features: &'b F,
    pub text: usize,
}

impl<'b, F> Drop for InText<'b, F> {
    fn drop(self) {
        let InText {
            features: _,
            text: _,
        } = self;
    }
}

impl<'a, 'b, F: Features<'a>> Conditions<'a> for InText<'b, F> {
    ghost stands = { λ c. definitions.stands (F.on c.features.now) c.text };

    fn holds(&self, statement: &'a Statement) -> bool {
        stands(self.features, self.text, statement)
    }
}
