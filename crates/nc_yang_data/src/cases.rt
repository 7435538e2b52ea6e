//! The cases of choices by their names (RFC 7950 7.9.2).
ghost use Rattle.std.specs.Prelude.{◌≡◌, ◌==◌, ◌+◌, false, slice_get};
ghost use Rattle.std.specs.Option.{option_map_or};
ghost use Rattle.nc_yang_nodes.specs.FeaturesOn.{is_on};
ghost use Rattle.nc_yang_data.specs.Leafs as leafs;
ghost use Rattle.nc_yang_data.specs.inner.Cases.{case_test};

use nc_names::{Many, Text};
use nc_schema::Case;
use nc_yang_nodes::{Features, Plan, case_of};
use nc_yang_scopes::Scopes;
use nc_yang_statements::name;

/// Which case has which name, by the statements that define the choices.
#[derive(Drop)]
pub(crate) struct Cases<'b, 'a> {
    pub scopes: &'b Scopes<'a>,
    pub features: &'b Features<'a>,
    pub plan: &'b Plan,
}

// Whether the case of a number is of that name, in the choice that the statement of a number defines.
fn is_case_of<'a>(
    scopes: &Scopes<'a>,
    features: &Features<'a>,
    at: usize,
    number: u32,
    choice: &str,
    word: &str,
) -> bool
    ensures { result ≡ option_map_or
        (leafs.is_case_of scopes.now.texts (is_on features.now) number choice.now word.now)
        (slice_get scopes.now.located at) false }
{
    let Some(statement) = scopes.statement(at) else {
        return false;
    };
    if name(statement) != choice {
        return false;
    }
    case_of(scopes, features, at, word) == Some(number as usize)
}

// Whether there are two names to each case.
fn are_pairs(names: usize, cases: usize) -> bool
    ensures { result ≡ (names == cases + cases) }
{
    cases <= names && names - cases == cases
}

impl<'b, 'a> Cases<'b, 'a> {
    // Whether a case is that of a name, in a choice of a name.
    fn is_named(&self, case: Case, choice: &str, word: &str) -> bool
        ensures { result ≡ case_test self.now case choice.now word.now }
    {
        let Some(planned) = self.plan.choices.get(case.choice as usize) else {
            return false;
        };
        is_case_of(
            self.scopes,
            self.features,
            planned.statement,
            case.case,
            choice,
            word,
        )
    }

    // Whether names, one after another, lead through these cases: two of them through each.
    fn are_each_named(&self, cases: &[Case], names: &Many<Text>) -> bool
        ensures { result ≡ leafs.are_named (case_test self.now) cases.now names.now }
    {
        let count = names.len();
        let mut at = 0;
        for case in cases {
            let Some(choice) = names.get(at) else {
                return false;
            };
            let Some(word) = names.get(at + 1) else {
                return false;
            };
            if !self.is_named(*case, choice.as_str(), word.as_str()) {
                return false;
            }
            at += 2;
        }
        at == count
    }

    /// Whether names lead through these cases: two of them through each. Where there are more names or fewer
    /// none is compared.
    pub(crate) fn are_named(&self, cases: &[Case], names: &Many<Text>) -> bool
        ensures { result ≡ leafs.are_named (case_test self.now) cases.now names.now }
    {
        if !are_pairs(names.len(), cases.len()) {
            return false;
        }
        self.are_each_named(cases, names)
    }
}
