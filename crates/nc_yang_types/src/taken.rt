//! Defaults of typedefs that leafs and leaf-lists take over (RFC 7950 7.6.1, 7.7.2), and that name an enum or
//! bit which is conditional in the type of the leaf (RFC 7950 7.6.4).
ghost use Rattle.std.specs.Prelude.{◌≡◌, IfOk};
ghost use Rattle.nc_yang_scopes.specs.inner.Naming.{HasNumber};
ghost use Rattle.nc_yang_statements.specs.Arguments as arguments;
ghost use Rattle.nc_yang_statements.specs.Rules.{says_true};
ghost use Rattle.nc_yang_statements.specs.Statements as statements;
ghost use Rattle.nc_yang_statements.specs.declared.keyword.Keyword.TheVariants.{Mandatory as MandatoryWord};
ghost use Rattle.nc_yang_types.specs.Defaults.{AreDefaults};
ghost use Rattle.nc_yang_types.specs.Faults as faults;
ghost use Rattle.nc_yang_types.specs.inner.Judging as words;
ghost use Rattle.nc_yang_types.specs.inner.Nested.{member_graph};

use crate::conditional::{fault, takes_at};
use crate::defaults::kept;
use crate::planned::Meanings;
use nc_names::{Many, Memory};
use nc_yang_scopes::{Scopes, part_of};
use nc_yang_statements::{Fault, Keyword, has, kind, name, part};
use nc_yang_words::Statement;
use std::alloc::Global;

// Whether the text is `true`.
#[tactic(auto, unfolding(nc_yang_statements::specs::Arguments::is_true_text))]
fn is_true_text(text: &str) -> bool
    ensures { result ≡ arguments.is_true_text text.now }
{
    text == "true"
}

// Whether it is `0`.
#[tactic(auto, unfolding(crate::specs::Faults::is_zero_text))]
fn is_zero_text(text: &str) -> bool
    ensures { result ≡ faults.is_zero_text text.now }
{
    text == "0"
}

// Whether a leaf with these statements has to be there (RFC 7950 7.6.5).
fn is_mandatory(among: &[Statement]) -> bool
    ensures { result ≡ says_true (statements.part MandatoryWord among.now) }
{
    match part(among, Keyword::Mandatory) {
        Some(found) => is_true_text(name(found)),
        None => false,
    }
}

// Whether a leaf-list with these has to have an entry (RFC 7950 7.7.5).
fn asks_entries(among: &[Statement]) -> bool
    ensures { result ≡ faults.asks_entries among.now }
{
    match part(among, Keyword::MinElements) {
        Some(found) => !is_zero_text(name(found)),
        None => false,
    }
}

// Whether a statement of a keyword with these takes the default over that its type brings.
fn may_take(keyword: Keyword, among: &[Statement]) -> bool
    ensures { result ≡ faults.takes_over keyword among.now }
{
    match keyword {
        Keyword::Leaf => !has(among, Keyword::Default) && !is_mandatory(among),
        Keyword::LeafList => !has(among, Keyword::Default) && !asks_entries(among),
        _ => false,
    }
}

// Whether a statement does.
fn takes_over(statement: &Statement) -> bool
    ensures { result ≡ faults.takes_over (statements.kind statement.now) (statements.below statement.now) }
{
    may_take(kind(statement), statement.below.as_slice())
}

// Whether the default that the type of a number brings names what is conditional in it.
fn is_taken(
    alloc: Global,
    scopes: &Scopes,
    meanings: &Meanings,
    graph: &[Many<usize>],
    defaults: &[Option<usize>],
    of_type: usize,
) -> Result<bool, Memory>
    requires { graph.now ≡ member_graph meanings.now }
    ensures { IfOk result (words.TellsTaken scopes.now meanings.now defaults.now of_type) }
{
    let Some(default) = kept(defaults, of_type) else {
        return Ok(false);
    };
    let Some(found) = scopes.statement(default) else {
        return Ok(false);
    };
    takes_at(alloc, meanings, graph, of_type, name(found))
}

/// The fault of the statement of a number, where it is a leaf or leaf-list that takes such a default over.
pub(crate) fn taken_over(
    alloc: Global,
    scopes: &Scopes,
    meanings: &Meanings,
    graph: &[Many<usize>],
    defaults: &[Option<usize>],
    number: usize,
    statement: &Statement,
) -> Result<Option<Fault>, Memory>
    requires statement { HasNumber scopes.now number statement.now }
    requires defaults { AreDefaults scopes.now defaults.now }
    requires graph { graph.now ≡ member_graph meanings.now }
    ensures { IfOk result (words.JudgesTaken scopes.now meanings.now number) }
{
    if !takes_over(statement) {
        return Ok(None);
    }
    let Some(of_type) = part_of(scopes, number, Keyword::TypeName) else {
        return Ok(None);
    };
    let taken = is_taken(alloc, scopes, meanings, graph, defaults, of_type)?;
    if taken {
        return Ok(Some(fault(statement)));
    }
    Ok(None)
}
