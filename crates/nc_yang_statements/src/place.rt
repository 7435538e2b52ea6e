//! Which statements may stand below which, and how often (RFC 7950 7, 14).
ghost use Rattle.std.specs.Prelude.{◌≡◌};
ghost use Rattle.nc_yang_statements.specs.Places as places;

use crate::Keyword;

/// How often a statement may stand below another.
#[derive(Clone, Copy, PartialEq, Eq)]
pub enum Count {
    /// It may not stand there.
    Never,
    /// Once or not at all.
    Optional,
    /// Exactly once.
    Once,
    /// As often as wanted.
    Any,
}

// The first count, or the second where it may not stand there by the first.
fn or_else(first: Count, second: Count) -> Count
    ensures { result ≡ places.or_else first second }
{
    match first {
        Count::Never => second,
        _ => first,
    }
}

// How often it may stand there: a description and a reference (RFC 7950 7.21.3, 7.21.4).
fn documented(keyword: Keyword) -> Count
    ensures { result ≡ places.documented keyword }
{
    match keyword {
        Keyword::Description | Keyword::Reference => Count::Optional,
        _ => Count::Never,
    }
}

// How often it may stand there: a condition and a status besides (RFC 7950 7.20.2, 7.21.2).
fn guarded(keyword: Keyword) -> Count
    ensures { result ≡ places.guarded keyword }
{
    match keyword {
        Keyword::IfFeature => Count::Any,
        Keyword::Status => Count::Optional,
        _ => documented(keyword),
    }
}

// How often it may stand there: definitions of data nodes but for `uses` (RFC 7950 14, `data-def-stmt`).
fn node_definitions(keyword: Keyword) -> Count
    ensures { result ≡ places.node_definitions keyword }
{
    match keyword {
        Keyword::Container | Keyword::Leaf | Keyword::LeafList | Keyword::List | Keyword::Choice =>
            Count::Any,
        _ => Count::Never,
    }
}

// How often it may stand there: definitions of data nodes (RFC 7950 14, `data-def-stmt`).
fn data_definitions(keyword: Keyword) -> Count
    ensures { result ≡ places.data_definitions keyword }
{
    match keyword {
        Keyword::Uses => Count::Any,
        _ => node_definitions(keyword),
    }
}

// How often it may stand there: types and groupings besides.
fn scoped_definitions(keyword: Keyword) -> Count
    ensures { result ≡ places.scoped_definitions keyword }
{
    match keyword {
        Keyword::Typedef | Keyword::Grouping => Count::Any,
        _ => data_definitions(keyword),
    }
}

// How often it may stand there: actions and notifications (RFC 7950 7.15, 7.16).
fn operations(keyword: Keyword) -> Count
    ensures { result ≡ places.operations keyword }
{
    match keyword {
        Keyword::Action | Keyword::Notification => Count::Any,
        _ => scoped_definitions(keyword),
    }
}

// How often it may stand there: what may stand in a module (RFC 7950 7.1.1).
fn in_module(keyword: Keyword) -> Count
    ensures { result ≡ places.in_module keyword }
{
    match keyword {
        Keyword::Namespace | Keyword::Prefix => Count::Once,
        Keyword::YangVersion | Keyword::Organization | Keyword::Contact => Count::Optional,
        Keyword::Import
        | Keyword::Revision
        | Keyword::Extension
        | Keyword::Feature
        | Keyword::Identity
        | Keyword::Rpc
        | Keyword::Notification => Count::Any,
        _ => or_else(scoped_definitions(keyword), documented(keyword)),
    }
}

// How often it may stand there: what may stand in an import (RFC 7950 7.1.5).
fn in_import(keyword: Keyword) -> Count
    ensures { result ≡ places.in_import keyword }
{
    match keyword {
        Keyword::Prefix => Count::Once,
        Keyword::RevisionDate => Count::Optional,
        _ => documented(keyword),
    }
}

// How often it may stand there: what may stand in a typedef (RFC 7950 7.3.1).
fn in_typedef(keyword: Keyword) -> Count
    ensures { result ≡ places.in_typedef keyword }
{
    match keyword {
        Keyword::TypeName => Count::Once,
        Keyword::Default | Keyword::Units | Keyword::Status => Count::Optional,
        _ => documented(keyword),
    }
}

// How often it may stand there: what may stand in a type (RFC 7950 7.4, 14).
fn in_type(keyword: Keyword) -> Count
    ensures { result ≡ places.in_type keyword }
{
    match keyword {
        Keyword::FractionDigits
        | Keyword::Length
        | Keyword::Path
        | Keyword::Range
        | Keyword::RequireInstance => Count::Optional,
        Keyword::Base | Keyword::Bit | Keyword::EnumName | Keyword::Pattern | Keyword::TypeName =>
            Count::Any,
        _ => Count::Never,
    }
}

// How often it may stand there: what may stand in a container (RFC 7950 7.5.2).
fn in_container(keyword: Keyword) -> Count
    ensures { result ≡ places.in_container keyword }
{
    match keyword {
        Keyword::Presence | Keyword::Config => Count::Optional,
        _ => or_else(operations(keyword), guarded(keyword)),
    }
}

// How often it may stand there: what may stand in a leaf (RFC 7950 7.6.2).
fn in_leaf(keyword: Keyword) -> Count
    ensures { result ≡ places.in_leaf keyword }
{
    match keyword {
        Keyword::TypeName => Count::Once,
        Keyword::Config | Keyword::Default | Keyword::Mandatory | Keyword::Units => Count::Optional,
        _ => guarded(keyword),
    }
}

// How often it may stand there: what may stand in a leaf-list (RFC 7950 7.7.3).
fn in_leaf_list(keyword: Keyword) -> Count
    ensures { result ≡ places.in_leaf_list keyword }
{
    match keyword {
        Keyword::TypeName => Count::Once,
        Keyword::Config
        | Keyword::MinElements
        | Keyword::MaxElements
        | Keyword::OrderedBy
        | Keyword::Units => Count::Optional,
        Keyword::Default => Count::Any,
        _ => guarded(keyword),
    }
}

// How often it may stand there: what may stand in a list (RFC 7950 7.8.1).
fn in_list(keyword: Keyword) -> Count
    ensures { result ≡ places.in_list keyword }
{
    match keyword {
        Keyword::Key
        | Keyword::Config
        | Keyword::MinElements
        | Keyword::MaxElements
        | Keyword::OrderedBy => Count::Optional,
        Keyword::Unique => Count::Any,
        _ => or_else(operations(keyword), guarded(keyword)),
    }
}

// How often it may stand there: what may stand in a choice (RFC 7950 7.9.1).
fn in_choice(keyword: Keyword) -> Count
    ensures { result ≡ places.in_choice keyword }
{
    match keyword {
        Keyword::Case => Count::Any,
        Keyword::Config | Keyword::Default | Keyword::Mandatory => Count::Optional,
        _ => or_else(node_definitions(keyword), guarded(keyword)),
    }
}

// How often it may stand there: what may stand in a case (RFC 7950 7.9.2.1).
fn in_case(keyword: Keyword) -> Count
    ensures { result ≡ places.in_case keyword }
{
    or_else(data_definitions(keyword), guarded(keyword))
}

// How often it may stand there: what may stand in a grouping (RFC 7950 7.12.1).
fn in_grouping(keyword: Keyword) -> Count
    ensures { result ≡ places.in_grouping keyword }
{
    match keyword {
        Keyword::Status => Count::Optional,
        _ => or_else(operations(keyword), documented(keyword)),
    }
}

// How often it may stand there: what may stand in an identity (RFC 7950 7.18.1).
fn in_identity(keyword: Keyword) -> Count
    ensures { result ≡ places.in_identity keyword }
{
    match keyword {
        Keyword::Base => Count::Any,
        _ => guarded(keyword),
    }
}

// How often it may stand there: what may stand in a range, a length or a pattern, but for a modifier
// (RFC 7950 9.2.4, 9.4.4, 9.4.5.1).
fn in_restriction(keyword: Keyword) -> Count
    ensures { result ≡ places.in_restriction keyword }
{
    match keyword {
        Keyword::ErrorMessage | Keyword::ErrorAppTag => Count::Optional,
        _ => documented(keyword),
    }
}

// How often it may stand there: what may stand in an enum (RFC 7950 9.6.4.1).
fn in_enum(keyword: Keyword) -> Count
    ensures { result ≡ places.in_enum keyword }
{
    match keyword {
        Keyword::Value => Count::Optional,
        _ => guarded(keyword),
    }
}

// How often it may stand there: what may stand in a bit (RFC 7950 9.7.4.1).
fn in_bit(keyword: Keyword) -> Count
    ensures { result ≡ places.in_bit keyword }
{
    match keyword {
        Keyword::Position => Count::Optional,
        _ => guarded(keyword),
    }
}

/// How often the second statement may stand directly below the first.
pub fn count_of(above: Keyword, keyword: Keyword) -> Count
    ensures { result ≡ places.count_of above keyword }
{
    match above {
        Keyword::Module => in_module(keyword),
        Keyword::Import => in_import(keyword),
        Keyword::Revision => documented(keyword),
        Keyword::Typedef => in_typedef(keyword),
        Keyword::TypeName => in_type(keyword),
        Keyword::Container => in_container(keyword),
        Keyword::Leaf => in_leaf(keyword),
        Keyword::LeafList => in_leaf_list(keyword),
        Keyword::List => in_list(keyword),
        Keyword::Choice => in_choice(keyword),
        Keyword::Case => in_case(keyword),
        Keyword::Grouping => in_grouping(keyword),
        Keyword::Uses | Keyword::Feature => guarded(keyword),
        Keyword::Identity => in_identity(keyword),
        Keyword::Range | Keyword::Length | Keyword::Pattern => in_restriction(keyword),
        Keyword::EnumName => in_enum(keyword),
        Keyword::Bit => in_bit(keyword),
        _ => Count::Never,
    }
}

/// Whether it may stand there once at most.
pub fn is_single(count: Count) -> bool
    ensures { result ≡ places.is_single count }
{
    matches!(count, Count::Optional | Count::Once)
}

/// Whether it may not stand there.
pub fn is_never(count: Count) -> bool
    ensures { result ≡ places.is_never count }
{
    matches!(count, Count::Never)
}

/// Whether it has to stand there.
pub fn is_once(count: Count) -> bool
    ensures { result ≡ places.is_once count }
{
    matches!(count, Count::Once)
}
