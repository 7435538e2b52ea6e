//! Statements whose end is still to come.
ghost use Rattle.std.specs.Prelude.{◌≡◌, IfOk};
ghost use Rattle.nc_yang_words.specs.inner.Grammar.{closed, with_child};

use crate::statement::Statement;
use nc_names::{Many, Memory, Text};

/// A statement whose end is still to come, with what stands below it so far.
#[derive(Drop)]
pub(crate) struct Begun {
    pub keyword: Text,
    pub argument: Option<Text>,
    pub line: u32,
    pub below: Many<Statement>,
}

impl Begun {
    /// The statement, at its end.
    pub(crate) fn close(self) -> Statement
        ensures { result ≡ closed self }
    {
        Statement {
            keyword: self.keyword,
            argument: self.argument,
            line: self.line,
            below: self.below,
        }
    }

    /// The same with one more statement below it.
    pub(crate) fn with_child(self, child: Statement) -> Result<Begun, Memory>
        ensures { IfOk result (λ it. it ≡ with_child self child) }
    {
        let Begun {
            keyword,
            argument,
            line,
            mut below,
        } = self;
        below.push(child)?;
        Ok(Begun {
            keyword,
            argument,
            line,
            below,
        })
    }
}
