//! Modules that share their name or their namespace.
ghost use Rattle.std.specs.Prelude.{◌≡◌, [], option_map, IfOk};
ghost use Rattle.nc_yang_statements.specs.Rules as rules;
ghost use Rattle.nc_yang_scopes.specs.Modules as words;

use crate::naming::TextFault;
use crate::table::Table;
use nc_names::Memory;
use nc_yang_statements::{Fault, Keyword, ModuleWhy, name, part};
use nc_yang_words::Statement;
use std::alloc::Global;

/// What no two modules share.
#[derive(Clone, Copy)]
pub enum Title {
    /// The name of a module.
    OfName,
    /// Its namespace.
    OfNamespace,
}

// The name of a module, or its namespace.
fn word_of(by: Title, statement: &Statement) -> Option<&str>
    ensures { option_map (λ word. word.now) result ≡ words.title_of by statement.now }
{
    match by {
        Title::OfName => Some(name(statement)),
        Title::OfNamespace => match part(statement.below.as_slice(), Keyword::Namespace) {
            Some(found) => Some(name(found)),
            None => None,
        },
    }
}

// The first text with the title of one before.
fn second(alloc: Global, by: Title, texts: &[Statement]) -> Result<Option<TextFault>, Memory>
    ensures { IfOk result (λ it. it ≡ rules.first (words.seconds by 0 [] texts.now)) }
{
    let mut titles = Table::new(alloc);
    for (text, statement) in texts.iter().enumerate() {
        if let Some(word) = word_of(by, statement) {
            if titles.get(0, word).is_some() {
                let fault = Fault {
                    line: statement.line,
                    why: ModuleWhy::Twice,
                };
                return Ok(Some(TextFault { text, fault }));
            }
            titles = titles.with(0, word, text)?;
        }
    }
    Ok(None)
}

/// The first text whose module has the name of one before, or else the first one that has the namespace of
/// one before; `None` where no two share either (RFC 7950 5.1, 5.3).
#[tactic(auto, using(nc_yang_statements::proofs::Firsts::first_some, nc_yang_statements::proofs::Firsts::first_none))]
pub fn first_twin(alloc: Global, texts: &[Statement]) -> Result<Option<TextFault>, Memory>
    ensures { IfOk result (λ it. it ≡ rules.first (words.twins texts.now)) }
{
    if let Some(found) = second(alloc, Title::OfName, texts)? {
        return Ok(Some(found));
    }
    second(alloc, Title::OfNamespace, texts)
}
