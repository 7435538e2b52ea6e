//! Which names stand under conditions that hold (RFC 7950 7.20.2).
ghost use Rattle.std.specs.Prelude.{◌≡◌, true};
ghost use Rattle.nc_yang_types.specs.Members as members;

use crate::member::is_guarded;
use nc_yang_words::Statement;

/// Whether the `if-feature` statements of an `enum` or a `bit` all hold, so that it is there (RFC 7950
/// 7.20.2).
pub trait Conditions<'a> {
    ghost use Rattle.std.specs.Prelude.{Bool};
    ghost use Rattle.nc_yang_words.specs.declared.statement.Statement.{Statement};

    ghost stands: { Self → Statement → Bool };

    /// Whether the name of the statement is there.
    fn holds(&self, statement: &'a Statement) -> bool
        ensures { result ≡ stands self.now statement.now };
}

/// All names are there.
#[derive(Clone, Copy)]
pub struct Always;

impl<'a> Conditions<'a> for Always {
    ghost stands = { λ _ _. true };

    fn holds(&self, statement: &'a Statement) -> bool {
        true
    }
}

/// Those names are there that an `if-feature` makes conditional.
#[derive(Clone, Copy)]
pub(crate) struct Guarded;

impl<'a> Conditions<'a> for Guarded {
    ghost stands = { λ _. members.is_guarded };

    fn holds(&self, statement: &'a Statement) -> bool {
        is_guarded(statement)
    }
}
