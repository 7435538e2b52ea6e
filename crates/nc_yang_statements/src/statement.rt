//! The parts of a statement (RFC 7950 6.3).
ghost use Rattle.std.specs.Prelude.{◌≡◌};
ghost use Rattle.std.specs.Option.{option_copied};
ghost use Rattle.nc_yang_statements.specs.Statements as statements;

use crate::Keyword;
use crate::keyword::{is_same_keyword, keyword_of};
use nc_yang_words::Statement;

/// The keyword of a statement (RFC 7950 6.3).
pub fn kind(statement: &Statement) -> Keyword
    ensures { result ≡ statements.kind statement.now }
{
    keyword_of(statement.keyword.as_str())
}

/// The argument of a statement, or the empty text where it has none (RFC 7950 6.3).
pub fn name(statement: &Statement) -> &str
    ensures { result.now ≡ statements.name statement.now }
{
    match &statement.argument {
        Some(text) => text.as_str(),
        None => "",
    }
}

/// Whether one of the statements has that keyword.
pub fn has(among: &[Statement], keyword: Keyword) -> bool
    ensures { result ≡ statements.has keyword among.now }
{
    among
        .iter()
        .any(|statement| is_same_keyword(keyword, kind(statement)))
}

/// The first of the statements that has that keyword.
pub fn part(among: &[Statement], keyword: Keyword) -> Option<&Statement>
    ensures { option_copied result ≡ statements.part keyword among.now }
{
    for statement in among {
        if is_same_keyword(keyword, kind(statement)) {
            return Some(statement);
        }
    }
    None
}
