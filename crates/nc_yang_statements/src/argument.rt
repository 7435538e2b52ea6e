//! The arguments that statements may have (RFC 7950 14).
ghost use Rattle.std.specs.Prelude.{◌≡◌, ◌==◌, ◌||◌, not, length, count_by};
ghost use Rattle.std.specs.List.{list_all, list_any, slice_split};
ghost use Rattle.nc_names.specs.Identifiers as identifiers;
ghost use Rattle.nc_names.specs.Signs as signs;
ghost use Rattle.nc_yang_statements.specs.Arguments as arguments;

use crate::built_in::built_in_of;
use crate::keyword::is_refused;
use crate::number::{is_at_most, is_between};
use crate::path::why_path;
use crate::{Keyword, ModuleWhy};
use nc_names::{Text, is_identifier, is_white};

// Whether an identifier stands before, between and after the colons.
fn are_identifiers(text: &[u8]) -> bool
    ensures { result ≡ list_all identifiers.is_identifier (slice_split (λ c. c == signs.colon) text.now) }
{
    text.split(|byte| *byte == b':')
        .all(|part| is_identifier(part))
}

// How many colons there are.
fn colons(text: &[u8]) -> usize
    ensures { result ≡ count_by (λ c. c == signs.colon) text.now }
{
    text.iter().filter(|byte| **byte == b':').count()
}

// Whether it is an identifier, perhaps after a prefix and a colon.
fn is_reference(text: &[u8]) -> bool
    ensures { result ≡ arguments.is_reference text.now }
{
    are_identifiers(text) && colons(text) <= 1
}

// Whether there is a character that is not white space.
fn is_visible(text: &[u8]) -> bool
    ensures { result ≡ arguments.is_visible text.now }
{
    text.iter().any(|byte| !is_white(*byte))
}

// Whether it is nothing or a name.
fn is_name_at_most(text: &[u8]) -> bool
    ensures { result ≡ (arguments.is_nothing text.now || arguments.is_reference text.now) }
{
    text.is_empty() || is_reference(text)
}

// Whether nothing but names stands between white space.
fn names_alone(text: &[u8]) -> bool
    ensures { result ≡ list_all (λ part. arguments.is_nothing part || arguments.is_reference part)
        (slice_split signs.is_white text.now) }
{
    text.split(|byte| is_white(*byte))
        .all(|part| is_name_at_most(part))
}

// Whether names stand between white space.
fn are_references(text: &[u8]) -> bool
    ensures { result ≡ arguments.are_references text.now }
{
    is_visible(text) && names_alone(text)
}

/// Whether names stand between slashes.
pub(crate) fn is_descendant(text: &[u8]) -> bool
    ensures { result ≡ arguments.is_descendant text.now }
{
    text.split(|byte| *byte == b'/')
        .all(|part| is_reference(part))
}

// Whether it is nothing or names between slashes.
fn is_descendant_at_most(text: &[u8]) -> bool
    ensures { result ≡ (arguments.is_nothing text.now || arguments.is_descendant text.now) }
{
    text.is_empty() || is_descendant(text)
}

// Whether nothing but names between slashes stands between white space.
fn descendants_alone(text: &[u8]) -> bool
    ensures { result ≡ list_all (λ part. arguments.is_nothing part || arguments.is_descendant part)
        (slice_split signs.is_white text.now) }
{
    text.split(|byte| is_white(*byte))
        .all(|part| is_descendant_at_most(part))
}

// Whether such names stand between white space.
fn are_descendants(text: &[u8]) -> bool
    ensures { result ≡ arguments.are_descendants text.now }
{
    is_visible(text) && descendants_alone(text)
}

// Whether the character may stand in that place of a date.
fn fits_date(place: usize, byte: u8) -> bool
    ensures { result ≡ arguments.fits_date place byte }
{
    if place == 4 || place == 7 {
        byte == b'-'
    } else {
        byte.is_ascii_digit()
    }
}

// Whether each character may stand in its place of a date.
fn are_of_date(text: &[u8]) -> bool
    ensures { result ≡ arguments.are_of_date 0 text.now }
{
    for (place, byte) in text.iter().enumerate() {
        if !fits_date(place, *byte) {
            return false;
        }
    }
    true
}

// Whether it is a date.
fn is_date(text: &[u8]) -> bool
    ensures { result ≡ arguments.is_date text.now }
{
    text.len() == 10 && are_of_date(text)
}

/// Whether it is `true`.
#[tactic(auto, unfolding(crate::specs::Arguments::is_true_text))]
pub(crate) fn is_true_text(text: &str) -> bool
    ensures { result ≡ arguments.is_true_text text.now }
{
    text == "true"
}

#[tactic(auto, unfolding(crate::specs::Arguments::is_false_text))]
// Whether it is `false`.
fn is_false_text(text: &str) -> bool
    ensures { result ≡ arguments.is_false_text text.now }
{
    text == "false"
}

#[tactic(auto, unfolding(crate::specs::Arguments::is_unbounded))]
// Whether it is `unbounded`.
fn is_unbounded(text: &str) -> bool
    ensures { result ≡ arguments.is_unbounded text.now }
{
    text == "unbounded"
}

#[tactic(auto, unfolding(crate::specs::Arguments::is_order))]
// Whether it says who orders entries.
fn is_order(text: &str) -> bool
    ensures { result ≡ arguments.is_order text.now }
{
    text == "user" || text == "system"
}

#[tactic(auto, unfolding(crate::specs::Arguments::is_version))]
// Whether it is a version of YANG.
fn is_version(text: &str) -> bool
    ensures { result ≡ arguments.is_version text.now }
{
    text == "1" || text == "1.1"
}

// Whether it is `true` or `false`.
fn is_boolean(text: &str) -> bool
    ensures { result ≡ arguments.is_boolean text.now }
{
    is_true_text(text) || is_false_text(text)
}

// Whether it says how many entries there may be.
fn is_most(text: &str) -> bool
    ensures { result ≡ arguments.is_most text.now }
{
    is_unbounded(text) || is_between(1, 18_446_744_073_709_551_615, text)
}

// Whether `xml` stands first, in letters of any case.
fn begins_xml(text: &[u8]) -> bool
    ensures { result ≡ arguments.begins_xml text.now }
{
    text.len() >= 3
        && (text[0] == b'x' || text[0] == b'X')
        && (text[1] == b'm' || text[1] == b'M')
        && (text[2] == b'l' || text[2] == b'L')
}

// Whether a module may have that name.
fn is_module_name(text: &[u8]) -> bool
    ensures { result ≡ arguments.is_module_name text.now }
{
    is_identifier(text) && !begins_xml(text)
}

// Whether a typedef may have that name.
fn is_type_name(text: &str) -> bool
    ensures { result ≡ arguments.is_type_name text.now }
{
    is_identifier(text.as_bytes()) && built_in_of(text).is_none()
}

// Whether a character that is not white space stands in that place.
fn is_visible_at(text: &[u8], place: usize) -> bool
    ensures { result ≡ arguments.is_visible_at text.now place }
{
    match text.get(place) {
        Some(byte) => !is_white(*byte),
        None => false,
    }
}

// Whether a name of an enumeration may be so.
fn is_enum_name(text: &[u8]) -> bool
    ensures { result ≡ arguments.is_enum_name text.now }
{
    is_visible_at(text, 0) && is_visible_at(text, text.len().saturating_sub(1))
}

// Whether the keyword's statement may have this argument.
fn suits(keyword: Keyword, text: &str) -> bool
    ensures { result ≡ arguments.suits keyword text.now }
{
    let bytes = text.as_bytes();
    match keyword {
        Keyword::Module => is_module_name(bytes),
        Keyword::YangVersion => is_version(text),
        Keyword::Namespace => !text.is_empty(),
        Keyword::RevisionDate | Keyword::Revision => is_date(bytes),
        Keyword::Typedef => is_type_name(text),
        Keyword::Prefix
        | Keyword::Import
        | Keyword::Grouping
        | Keyword::Container
        | Keyword::List
        | Keyword::Leaf
        | Keyword::LeafList
        | Keyword::Choice
        | Keyword::Case
        | Keyword::Identity
        | Keyword::Feature
        | Keyword::Bit => is_identifier(bytes),
        Keyword::Uses | Keyword::Base | Keyword::TypeName => is_reference(bytes),
        Keyword::Key => are_references(bytes),
        Keyword::Unique => are_descendants(bytes),
        Keyword::Mandatory | Keyword::Config | Keyword::RequireInstance => is_boolean(text),
        Keyword::OrderedBy => is_order(text),
        Keyword::MaxElements => is_most(text),
        Keyword::EnumName => is_enum_name(bytes),
        _ => suits_number(keyword, text),
    }
}

// Whether a statement whose argument is a number may have this one; true of others.
fn suits_number(keyword: Keyword, text: &str) -> bool
    ensures { result ≡ arguments.suits_number keyword text.now }
{
    match keyword {
        Keyword::MinElements => is_at_most(18_446_744_073_709_551_615, text),
        Keyword::FractionDigits => is_between(1, 18, text),
        Keyword::Value => is_between(-2_147_483_648, 2_147_483_647, text),
        Keyword::Position => is_at_most(4_294_967_295, text),
        _ => true,
    }
}

// Why a statement may not have that argument.
fn why_argument(keyword: Keyword, text: &str) -> Option<ModuleWhy>
    ensures { result ≡ arguments.why_argument keyword text.now }
{
    match keyword {
        Keyword::IfFeature => why_unless(is_reference(text.as_bytes()), ModuleWhy::Unsupported),
        Keyword::Path => why_path(text.as_bytes()),
        _ => why_unless(suits(keyword, text), ModuleWhy::BadArgument),
    }
}

// The reason, unless the test is passed.
fn why_unless(passed: bool, why: ModuleWhy) -> Option<ModuleWhy>
    ensures { result ≡ arguments.why_unless passed why }
{
    if passed { None } else { Some(why) }
}

// Whether nothing is asked of the statement.
fn is_free(keyword: Keyword) -> bool
    ensures { result ≡ arguments.is_free keyword }
{
    match keyword {
        Keyword::Prefixed | Keyword::Unknown => true,
        _ => is_refused(keyword),
    }
}

/// Why the keyword's statement may not have that argument, or may not be without one.
pub(crate) fn why_misfit(keyword: Keyword, argument: &Option<Text>) -> Option<ModuleWhy>
    ensures { result ≡ arguments.why_misfit keyword argument.now }
{
    if is_free(keyword) {
        return None;
    }
    match argument {
        Some(text) => why_argument(keyword, text.as_str()),
        None => Some(ModuleWhy::BadArgument),
    }
}
