//! The names of enumerations and of bits, and their numbers (RFC 7950 9.6.4, 9.7.4).
ghost use Rattle.std.specs.Prelude.{◌≡◌};
ghost use Rattle.std.specs.Option.{option_copied};
ghost use Rattle.nc_yang_statements.specs.Statements as statements;
ghost use Rattle.nc_yang_types.specs.Members as members;

use nc_names::Text;
use nc_schema::read_number;
use nc_yang_statements::{Keyword, has, is_same_keyword, kind, name, part};
use nc_yang_words::Statement;

/// What a type lists names of.
#[derive(Clone, Copy, PartialEq, Eq)]
pub(crate) enum Listed {
    /// `enum` statements (RFC 7950 9.6.4).
    Enums,
    /// `bit` statements (RFC 7950 9.7.4).
    Flags,
}

/// A name that a type lists, with its value or position (RFC 7950 9.6.4.2, 9.7.4.2).
#[derive(Drop, PartialEq, Eq)]
pub struct Named {
    /// The name.
    pub name: Text,
    /// Its value or position.
    pub number: i128,
    /// Whether an `if-feature` stands below it, in this type or in one on which it rests, whether the feature
    /// is on or off (RFC 7950 7.20.2).
    pub conditional: bool,
}

/// The statement of a name.
pub(crate) fn member_word(listed: Listed) -> Keyword
    ensures { result ≡ members.member_word listed }
{
    match listed {
        Listed::Enums => Keyword::EnumName,
        Listed::Flags => Keyword::Bit,
    }
}

// The statement below it that gives the number.
fn number_word(listed: Listed) -> Keyword
    ensures { result ≡ members.number_word listed }
{
    match listed {
        Listed::Enums => Keyword::Value,
        Listed::Flags => Keyword::Position,
    }
}

// The lowest number.
fn least(listed: Listed) -> i128
    ensures { result ≡ members.least listed }
{
    match listed {
        Listed::Enums => -2_147_483_648,
        Listed::Flags => 0,
    }
}

// The highest number.
fn most(listed: Listed) -> i128
    ensures { result ≡ members.most listed }
{
    match listed {
        Listed::Enums => 2_147_483_647,
        Listed::Flags => 4_294_967_295,
    }
}

/// Whether the statement gives a name.
pub(crate) fn is_member(listed: Listed, statement: &Statement) -> bool
    ensures { result ≡ members.is_member listed statement.now }
{
    is_same_keyword(member_word(listed), kind(statement))
}

/// Whether an `if-feature` stands below the statement of a name.
pub(crate) fn is_guarded(statement: &Statement) -> bool
    ensures { result ≡ members.is_guarded statement.now }
{
    has(statement.below.as_slice(), Keyword::IfFeature)
}

/// The statement that gives the number of a name, where one does.
pub(crate) fn number_part(listed: Listed, statement: &Statement) -> Option<&Statement>
    ensures { option_copied result
        ≡ statements.part (members.number_word listed) (statements.below statement.now) }
{
    part(statement.below.as_slice(), number_word(listed))
}

// A number that is written, where there is such a number.
fn in_bounds(listed: Listed, number: Option<i128>) -> Option<i128>
    ensures { result ≡ members.in_bounds listed number }
{
    let number = number?;
    if least(listed) <= number && number <= most(listed) {
        Some(number)
    } else {
        None
    }
}

// One more than the highest number before.
fn next_number(listed: Listed, high: Option<i128>) -> Option<i128>
    ensures { result ≡ members.next_number listed high }
{
    match high {
        Some(high) => {
            if high < most(listed) {
                Some(high + 1)
            } else {
                None
            }
        }
        None => Some(0),
    }
}

/// The number of a name: the one that it is given, or the next.
pub(crate) fn number_at(listed: Listed, high: Option<i128>, statement: &Statement) -> Option<i128>
    ensures { result ≡ members.number_at listed high statement.now }
{
    match number_part(listed, statement) {
        Some(given) => in_bounds(listed, read_number(name(given))),
        None => next_number(listed, high),
    }
}

/// The higher of the highest before and of one more.
pub(crate) fn higher(high: Option<i128>, number: Option<i128>) -> Option<i128>
    ensures { result ≡ members.higher high number }
{
    let Some(number) = number else {
        return high;
    };
    let Some(high) = high else {
        return Some(number);
    };
    if high <= number {
        Some(number)
    } else {
        Some(high)
    }
}
