//! Choices by the statements that define them.
ghost use Rattle.std.specs.Prelude.{◌≡◌, ◌++◌, [], Some, length, map, slice_get, IfOk, OnOk};
ghost use Rattle.std.specs.Prelude.{◌+◌, ◌<◌, ◌^◌};
ghost use Rattle.nc_yang_scopes.specs.Scopes.{Located};
ghost use Rattle.nc_yang_statements.specs.Statements.{below};
ghost use Rattle.nc_yang_nodes.specs.FeaturesOn.{is_on};
ghost use Rattle.nc_yang_data.specs.Drafts as drafts;

use crate::draft::is_mandatory;
use nc_names::{Copies, Memory};
use nc_schema::{Choice, Schema};
use nc_yang_nodes::{Features, PlannedChoice, case_of};
use nc_yang_scopes::Scopes;
use nc_yang_statements::{Keyword, name, part};
use nc_yang_words::Statement;

// The number of a case in 32 bits.
fn as_case(case: Option<usize>) -> Result<Option<u32>, Memory>
    ensures { IfOk result (λ it. it ≡ case) }
{
    match case {
        // no text has as many statements
        Some(number) if number > u32::MAX as usize => Err(Memory),
        Some(number) => Ok(Some(number as u32)),
        None => Ok(None),
    }
}

// The number of the case that the choice which the statement of a number defines has by default.
fn default_case<'a>(
    scopes: &Scopes<'a>,
    features: &Features<'a>,
    number: usize,
    among: &'a [Statement],
) -> Result<Option<u32>, Memory>
    ensures { IfOk result (λ it. (l : Located) → slice_get scopes.now.located number ≡ Some l
        → among.now ≡ below l.statement → it ≡ drafts.default_case scopes.now.texts (is_on features.now) l) }
{
    match part(among, Keyword::Default) {
        Some(found) => as_case(case_of(scopes, features, number, name(found))),
        None => Ok(None),
    }
}

// A planned choice by the statement that defines it.
fn choice_in<'a>(
    scopes: &Scopes<'a>,
    features: &Features<'a>,
    planned: &PlannedChoice,
) -> Result<Choice, Memory>
    ensures { IfOk result (λ it. it ≡ drafts.choice_in scopes.now (is_on features.now) planned.now) }
{
    let mut choice = Choice {
        parent: planned.parent,
        mandatory: false,
        default_case: None,
        within: planned.within.copy()?,
    };
    if let Some(statement) = scopes.statement(planned.statement) {
        let among = statement.below.as_slice();
        choice.mandatory = is_mandatory(among);
        choice.default_case = default_case(scopes, features, planned.statement, among)?;
    }
    Ok(choice)
}

/// Adds planned choices.
pub(crate) fn add_choices<'a>(
    scopes: &Scopes<'a>,
    features: &Features<'a>,
    planned: &[PlannedChoice],
    schema: &mut Schema,
) -> Result<(), Memory>
    requires { length schema.old.choices + length planned.now < 2 ^ 32 }
    ensures { OnOk result (schema.new ≡ record schema.old {
      choices
          = schema.old.choices ++ map (drafts.choice_in scopes.now (is_on features.now)) planned.now;
    }) }
{
    for choice in planned {
        schema.add_choice(choice_in(scopes, features, choice)?)?;
    }
    Ok(())
}
