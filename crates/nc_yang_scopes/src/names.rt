//! Tables of what is looked up by name in module texts.
ghost use Rattle.std.specs.Prelude.{◌≡◌, ℕ, List, Some, None, false, if◌then◌else◌, IfOk};
ghost use Rattle.std.specs.List.{position_from};
ghost use Rattle.std.specs.Option.{option_map_or};
ghost use Rattle.nc_names.specs.Same.{is_same_text};
ghost use Rattle.nc_yang_scopes.specs.Scopes as scopes;
ghost use Rattle.nc_yang_scopes.specs.inner.Frames as entries;
ghost use Rattle.nc_yang_scopes.specs.inner.Names.{AreNames, IsModules};
ghost use Rattle.nc_yang_scopes.specs.Tables.{either, is_key, number_at};

use crate::frames::{Frame, Frames};
use crate::table::Table;
use nc_names::Memory;
use nc_yang_statements::{Keyword, is_same_keyword, kind, name, part};
use nc_yang_words::Statement;
use std::alloc::Global;

// The prefix that a module or an import has.
fn prefix(statement: &Statement) -> Option<&str>
    ensures { (wanted : List ℕ) →
        scopes.has_prefix wanted statement.now ≡ option_map_or
        (λ word. is_same_text word.now wanted) result false }
{
    match part(statement.below.as_slice(), Keyword::Prefix) {
        Some(found) => Some(name(found)),
        None => None,
    }
}

/// Whether a module or an import has that prefix.
pub(crate) fn has_prefix(statement: &Statement, wanted: &str) -> bool
    ensures { result ≡ scopes.has_prefix wanted.now statement.now }
{
    match prefix(statement) {
        Some(found) => found == wanted,
        None => false,
    }
}

// The word by which a statement of a keyword is looked up.
fn word(keyword: Keyword, statement: &Statement) -> Option<&str>
    ensures { (wanted : List ℕ) → entries.is_called keyword wanted statement.now
        ≡ option_map_or (λ word. is_same_text word.now wanted) result false }
{
    match keyword {
        Keyword::Import => prefix(statement),
        _ => Some(name(statement)),
    }
}

// Where a statement of a keyword is looked up, and by which word.
fn key<'a>(keyword: Keyword, frame: Frame<'a>) -> Option<(usize, &'a str)>
    ensures { (block : ℕ) (wanted : List ℕ) → entries.is_known keyword block wanted
        (entries.entry_of frame.entry)
        ≡ option_map_or (λ key. is_key key.0 key.1.now block wanted) result false }
{
    let Some(block) = frame.outer else {
        return None;
    };
    if !is_same_keyword(keyword, kind(frame.statement)) {
        return None;
    }
    match word(keyword, frame.statement) {
        Some(word) => Some((block, word)),
        None => None,
    }
}

// The table with one statement more.
fn with_frame<'a>(
    table: Table<'a>,
    keyword: Keyword,
    number: usize,
    frame: Frame<'a>,
) -> Result<Table<'a>, Memory>
    ensures { IfOk result (λ it. (block : ℕ) (wanted : List ℕ) → number_at it block wanted
        ≡ either (number_at table.entry block wanted)
        (if entries.is_known keyword block wanted (entries.entry_of frame.entry) then Some number
        else None)) }
{
    match key(keyword, frame) {
        Some((block, word)) => table.with(block, word, number),
        None => Ok(table),
    }
}

// The statements of a keyword.
fn table_of<'a>(alloc: Global, keyword: Keyword, frames: &Frames<'a>) -> Result<Table<'a>, Memory>
    ensures { IfOk result (entries.IsTable keyword frames.now) }
{
    let mut table = Table::new(alloc);
    for number in 0..frames.len() {
        if let Some(frame) = frames.get(number) {
            table = with_frame(table, keyword, number, frame)?;
        }
    }
    Ok(table)
}

// The modules by their names.
fn modules<'a>(alloc: Global, texts: &'a [Statement]) -> Result<Table<'a>, Memory>
    ensures { IfOk result (IsModules texts.now) }
{
    let mut table = Table::new(alloc);
    for (text, statement) in texts.iter().enumerate() {
        table = table.with(0, name(statement), text)?;
    }
    Ok(table)
}

/// What is looked up by name in module texts.
#[derive(Drop)]
pub(crate) struct Names<'a> {
    pub typedefs: Table<'a>,
    pub groupings: Table<'a>,
    pub identities: Table<'a>,
    pub features: Table<'a>,
    pub imports: Table<'a>,
    pub revisions: Table<'a>,
    pub modules: Table<'a>,
}

impl<'a> Names<'a> {
    /// What the statements of texts define.
    pub(crate) fn of(
        alloc: Global,
        texts: &'a [Statement],
        frames: &Frames<'a>,
    ) -> Result<Names<'a>, Memory>
        ensures { IfOk result (AreNames texts.now frames.now) }
    {
        Ok(Names {
            typedefs: table_of(alloc, Keyword::Typedef, frames)?,
            groupings: table_of(alloc, Keyword::Grouping, frames)?,
            identities: table_of(alloc, Keyword::Identity, frames)?,
            features: table_of(alloc, Keyword::Feature, frames)?,
            imports: table_of(alloc, Keyword::Import, frames)?,
            revisions: table_of(alloc, Keyword::Revision, frames)?,
            modules: modules(alloc, texts)?,
        })
    }
}
