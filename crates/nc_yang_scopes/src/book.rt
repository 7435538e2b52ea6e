//! Module texts, their statements under numbers, and what is looked up by name.
ghost use Rattle.std.specs.Prelude.{◌≡◌, ◌<◌, ◌+◌, ◌∷◌, [], false, IsTrue, IsSome, length, slice_get, option_map, option_and_then, IfOk};
ghost use Rattle.std.specs.Option.{option_copied, option_map_or};
ghost use Rattle.nc_yang_statements.specs.Statements as statements;
ghost use Rattle.nc_yang_scopes.specs.Scopes as scopes;
ghost use Rattle.nc_yang_scopes.specs.Names.{is_defined_out};
ghost use Rattle.nc_yang_scopes.specs.inner.Books.{Gives, IsBook, IsBookOf, across, near};
ghost use Rattle.nc_yang_scopes.specs.Numbers.{located};
ghost use Rattle.nc_yang_scopes.specs.inner.Frames.{IsTable};

use crate::names::{Names, has_prefix};
use crate::numbering::Numbering;
use crate::table::Table;
use nc_names::Memory;
use nc_yang_statements::{Keyword, name};
use nc_yang_words::Statement;
use std::alloc::Global;

/// Texts with their statements under numbers, and what is looked up by name.
#[derive(Drop)]
pub(crate) struct Book<'a> {
    pub texts: &'a [Statement],
    pub numbering: Numbering<'a>,
    pub names: Names<'a>,
}

/// The prefix of a reference, and the name after it, or `None` where it has no prefix (RFC 7950 6.4.1).
pub fn split_reference(reference: &str) -> Option<(&str, &str)>
    ensures { scopes.SplitsReference reference.now result }
{
    reference.split_once(':')
}

impl<'a> Book<'a> {
    /// The statements of texts.
    pub(crate) fn of(alloc: Global, texts: &'a [Statement]) -> Result<Book<'a>, Memory>
        ensures { IfOk result (IsBookOf texts.now) }
    {
        let numbering = Numbering::of(alloc, texts)?;
        let names = Names::of(alloc, texts, &numbering.frames)?;
        Ok(Book {
            texts,
            numbering,
            names,
        })
    }

    /// How many statements there are.
    pub(crate) fn len(&self) -> usize
        ensures { result ≡ length (located self.now.numbering.frames) }
    {
        self.numbering.frames.len()
    }

    /// The number of a text's statement `module`.
    pub(crate) fn root(&self, text: usize) -> Option<usize>
        requires { IsBook self.now }
        ensures { option_and_then (slice_get (located self.now.numbering.frames)) result
            ≡ scopes.root self.now.texts.now text }
    {
        if text < self.texts.len() {
            Some(text)
        } else {
            None
        }
    }

    // A number that a statement has.
    fn number(&self, first: usize, place: usize) -> usize
        requires { first + place < length self.now.numbering.frames }
        ensures { result ≡ first + place }
    {
        let _count = self.numbering.frames.len();
        first + place
    }

    /// The number of the statement in a place directly in the one of a number.
    pub(crate) fn child(&self, number: usize, place: usize) -> usize
        requires book { IsBook self.now }
        requires there { IsSome (option_and_then (scopes.child place)
            (slice_get (located self.now.numbering.frames) number)) }
        ensures { slice_get (located self.now.numbering.frames) result
            ≡ option_and_then (scopes.child place) (slice_get (located self.now.numbering.frames) number) }
    {
        match self.numbering.firsts.get(number) {
            Some(first) => self.number(*first, place),
            // each statement has a first
            None => number,
        }
    }

    /// The statement of a number.
    pub(crate) fn statement(&self, number: usize) -> Option<&'a Statement>
        requires { IsBook self.now }
        ensures { option_copied result
            ≡ option_map (λ l. l.statement) (slice_get (located self.now.numbering.frames) number) }
    {
        match self.numbering.frames.get(number) {
            Some(frame) => Some(frame.statement),
            None => None,
        }
    }

    /// The text in which the statement of a number stands.
    pub(crate) fn text(&self, number: usize) -> Option<usize>
        requires { IsBook self.now }
        ensures { result ≡ option_map (λ l. l.place.text) (slice_get
            (located self.now.numbering.frames) number) }
    {
        match self.numbering.frames.get(number) {
            Some(frame) => Some(frame.text),
            None => None,
        }
    }

    /// Whether a text's module has a revision of a date.
    pub(crate) fn has_revision(&self, text: usize, date: &'a str) -> bool
        requires { IsBook self.now }
        ensures { result ≡ scopes.has_revision self.now.texts.now text date.now }
    {
        if text < self.texts.len() {
            self.names.revisions.get(text, date).is_some()
        } else {
            false
        }
    }

    // Whether it is the prefix of the text's own module.
    fn is_own(&self, text: usize, prefix: &str) -> bool
        ensures { result ≡ scopes.is_own self.now.texts.now text prefix.now }
    {
        match self.texts.get(text) {
            Some(root) => has_prefix(root, prefix),
            None => false,
        }
    }

    // The name of the module that is imported with a prefix.
    fn imported(&self, text: usize, prefix: &'a str) -> Option<&'a str>
        requires { IsBook self.now }
        ensures { option_map (λ word. word.now) result
            ≡ option_map statements.name (scopes.import_of prefix.now (scopes.top self.now.texts.now text)) }
    {
        if text >= self.texts.len() {
            return None;
        }
        let Some(import) = self.names.imports.get(text, prefix) else {
            return None;
        };
        let Some(frame) = self.numbering.frames.get(import) else {
            return None;
        };
        Some(name(frame.statement))
    }

    /// The first text of a module's name.
    pub(crate) fn text_of(&self, name: &'a str) -> Option<usize>
        requires { IsBook self.now }
        ensures { result ≡ scopes.text_of self.now.texts.now name.now }
    {
        self.names.modules.get(0, name)
    }

    /// The text for which a prefix stands in a text.
    pub(crate) fn text_of_prefix(&self, text: usize, prefix: &'a str) -> Option<usize>
        requires { IsBook self.now }
        ensures { result ≡ scopes.text_of_prefix self.now.texts.now text prefix.now }
    {
        if self.is_own(text, prefix) {
            return Some(text);
        }
        match self.imported(text, prefix) {
            Some(name) => self.text_of(name),
            None => None,
        }
    }

    // What is looked up for a keyword.
    fn table(&self, keyword: Keyword) -> &Table<'a>
        requires book { IsBook self.now }
        requires keyword { IsTrue (scopes.is_defining keyword) }
        ensures { IsTable keyword self.now.numbering.frames result.now }
    {
        match keyword {
            Keyword::Typedef => &self.names.typedefs,
            Keyword::Grouping => &self.names.groupings,
            Keyword::Identity => &self.names.identities,
            _ => &self.names.features,
        }
    }

    // The number of the statement in which another stands.
    fn outer(&self, number: usize) -> Option<usize>
        ensures { result ≡ option_and_then (λ e. e.outer) (slice_get self.now.numbering.frames number) }
    {
        match self.numbering.frames.get(number) {
            Some(frame) => frame.outer,
            None => None,
        }
    }

    // The definition in the nearest block round the statement of a number.
    fn nearest(&self, keyword: Keyword, number: usize, word: &'a str) -> Option<usize>
        requires book { IsBook self.now }
        requires keyword { IsTrue (scopes.is_defining keyword) }
        ensures { Gives (located self.now.numbering.frames) result
            (near (located self.now.numbering.frames) keyword word.now number) }
    {
        let table = self.table(keyword);
        let mut at = number;
        while let Some(block) = self.outer(at) {
            if let Some(found) = table.get(block, word) {
                return Some(found);
            }
            at = block;
        }
        None
    }

    /// Whether a definition of a name stands further out than in the block of the statement of a number.
    pub(crate) fn is_defined_out(&self, keyword: Keyword, number: usize, word: &'a str) -> bool
        requires book { IsBook self.now }
        requires keyword { IsTrue (scopes.is_defining keyword) }
        ensures { result ≡ option_map_or (λ l. is_defined_out keyword word.now l.place)
            (slice_get (located self.now.numbering.frames) number) false }
    {
        match self.outer(number) {
            Some(block) => self.nearest(keyword, block, word).is_some(),
            None => false,
        }
    }

    // The definition at the top of a text.
    fn topmost(&self, keyword: Keyword, text: usize, word: &'a str) -> Option<usize>
        requires book { IsBook self.now }
        requires keyword { IsTrue (scopes.is_defining keyword) }
        ensures { Gives (located self.now.numbering.frames) result
            (scopes.found keyword word.now text (scopes.top self.now.texts.now text ∷ [])) }
    {
        if text < self.texts.len() {
            self.table(keyword).get(text, word)
        } else {
            None
        }
    }

    // The definition to which a name with a prefix leads where the statement of a number stands.
    fn prefixed(
        &self,
        keyword: Keyword,
        number: usize,
        prefix: &'a str,
        word: &'a str,
    ) -> Option<usize>
        requires book { IsBook self.now }
        requires keyword { IsTrue (scopes.is_defining keyword) }
        ensures { Gives (located self.now.numbering.frames) result
            (across self.now.texts.now (located self.now.numbering.frames) keyword prefix.now word.now number) }
    {
        let Some(frame) = self.numbering.frames.get(number) else {
            return None;
        };
        let Some(text) = self.text_of_prefix(frame.text, prefix) else {
            return None;
        };
        if text == frame.text {
            self.nearest(keyword, number, word)
        } else {
            self.topmost(keyword, text, word)
        }
    }

    /// The definition to which a reference leads where the statement of a number stands.
    pub(crate) fn resolve(
        &self,
        keyword: Keyword,
        number: usize,
        reference: &'a str,
    ) -> Option<usize>
        requires book { IsBook self.now }
        requires keyword { IsTrue (scopes.is_defining keyword) }
        ensures { Gives (located self.now.numbering.frames) result
            (option_and_then (λ l. scopes.resolved self.now.texts.now keyword reference.now l.place)
            (slice_get (located self.now.numbering.frames) number)) }
    {
        match split_reference(reference) {
            None => self.nearest(keyword, number, reference),
            Some((prefix, word)) => self.prefixed(keyword, number, prefix, word),
        }
    }
}
