//! What modules define in terms of each other.
ghost use Rattle.std.specs.Prelude.{◌≡◌};
ghost use Rattle.nc_yang_scopes.specs.Loops as loops;

use nc_yang_statements::Keyword;

/// What is defined in terms of others of its sort.
#[derive(Clone, Copy)]
pub enum Defined {
    /// Modules, by their imports (RFC 7950 5.1).
    Modules,
    /// Typedefs, by the types in them (RFC 7950 7.3).
    Typedefs,
    /// Groupings, by the `uses` in them (RFC 7950 7.12).
    Groupings,
    /// Identities, by their bases (RFC 7950 7.18.2).
    Identities,
    /// Features, by their conditions (RFC 7950 7.20.2).
    Features,
}

/// All sorts.
#[tactic(auto, unfolding(crate::specs::Loops::all_defined))]
pub(crate) fn all_defined() -> &'static [Defined]
    ensures { result.now ≡ loops.all_defined }
{
    &[
        Defined::Modules,
        Defined::Typedefs,
        Defined::Groupings,
        Defined::Identities,
        Defined::Features,
    ]
}

/// The keyword of such definitions.
pub(crate) fn defining(sort: Defined) -> Keyword
    ensures { result ≡ loops.defining sort }
{
    match sort {
        Defined::Modules => Keyword::Module,
        Defined::Typedefs => Keyword::Typedef,
        Defined::Groupings => Keyword::Grouping,
        Defined::Identities => Keyword::Identity,
        Defined::Features => Keyword::Feature,
    }
}

/// The keyword of the statements by which they name one another.
pub(crate) fn naming(sort: Defined) -> Keyword
    ensures { result ≡ loops.naming sort }
{
    match sort {
        Defined::Modules => Keyword::Import,
        Defined::Typedefs => Keyword::TypeName,
        Defined::Groupings => Keyword::Uses,
        Defined::Identities => Keyword::Base,
        Defined::Features => Keyword::IfFeature,
    }
}
