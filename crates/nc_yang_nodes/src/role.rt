//! What statements give.
ghost use Rattle.std.specs.Prelude.{◌≡◌};
ghost use Rattle.nc_yang_nodes.specs.Roles.{role_of};

use nc_schema::Deny;
use nc_yang_statements::Keyword;

/// What a statement gives to the data model of its module, and what access control denies there without a
/// rule, by the statement alone (RFC 8341 3.5.2).
#[derive(Clone, Copy)]
pub(crate) enum Role {
    /// A data node (RFC 7950 7.5 to 7.8).
    Node(Deny),
    /// A choice (RFC 7950 7.9).
    Choice(Deny),
    /// A case of a choice (RFC 7950 7.9.2).
    Case(Deny),
    /// What a grouping gives (RFC 7950 7.13).
    Uses(Deny),
}

/// What a statement of that keyword gives, where it denies this.
pub(crate) fn role_of(deny: Deny, keyword: Keyword) -> Option<Role>
    ensures { result ≡ role_of deny keyword }
{
    match keyword {
        Keyword::Container | Keyword::Leaf | Keyword::LeafList | Keyword::List => {
            Some(Role::Node(deny))
        }
        Keyword::Choice => Some(Role::Choice(deny)),
        Keyword::Case => Some(Role::Case(deny)),
        Keyword::Uses => Some(Role::Uses(deny)),
        _ => None,
    }
}
