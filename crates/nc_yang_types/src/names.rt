//! Names that stand twice (RFC 7950 9.6.4, 9.7.4).
ghost use Rattle.std.specs.Prelude.{◌≡◌, ◌∷◌, ◌++◌, [], List, true, IfOk};
ghost use Rattle.nc_yang_words.specs.declared.statement.Statement.{Statement as Seen};
ghost use Rattle.nc_yang_statements.specs.Rules as rules;
ghost use Rattle.nc_yang_statements.specs.Statements as statements;
ghost use Rattle.nc_yang_types.specs.Members as members;
ghost use Rattle.nc_yang_types.specs.inner.Known.{HasNames};

use crate::member::{Listed, is_member};
use crate::part::fault;
use nc_names::Memory;
use nc_yang_statements::{Fault, ModuleWhy, name};
use nc_yang_words::Statement;
use std::alloc::Global;
use std::collections::BTreeSet;

// The names with that of a statement that gives one.
fn with_name<'a>(
    listed: Listed,
    names: BTreeSet<&'a str>,
    statement: &'a Statement,
) -> Result<BTreeSet<&'a str>, Memory>
    ensures { IfOk result (λ it. (before : List Seen) → HasNames listed names.entry before →
        members.is_member listed statement.now ≡ true → HasNames listed it (before ++ statement.now ∷ [])) }
{
    let mut names = names;
    names.insert(name(statement))?;
    Ok(names)
}

/// The first name that a statement before gives too.
pub(crate) fn renamed(
    alloc: Global,
    listed: Listed,
    below: &[Statement],
) -> Result<Option<Fault>, Memory>
    ensures { IfOk result (λ it. it ≡ rules.first (members.renamed listed [] below.now)) }
{
    let mut names = BTreeSet::new(alloc);
    for statement in below {
        if !is_member(listed, statement) {
            continue;
        }
        if names.contains(name(statement)) {
            return Ok(Some(fault(statement, ModuleWhy::Twice)));
        }
        names = with_name(listed, names, statement)?;
    }
    Ok(None)
}
