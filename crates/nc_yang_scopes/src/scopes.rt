//! What names mean in module texts.
ghost use Rattle.std.specs.Prelude.{◌≡◌, ◌<◌, false, IfSome, IsTrue, IsSome, length, slice_get, option_map, option_and_then, IfOk};
ghost use Rattle.std.specs.Option.{option_copied, option_map_or};
ghost use Rattle.nc_yang_scopes.specs.Scopes as scopes;
ghost use Rattle.nc_yang_scopes.specs.Names.{is_defined_out};
ghost use Rattle.nc_yang_scopes.specs.Numbers.{IsScoping};

use crate::book::Book;
use nc_names::Memory;
use nc_yang_statements::Keyword;
use nc_yang_words::Statement;
use std::alloc::Global;
use std::marker::Model;

/// The statements of module texts, each with a number under which its place is known, and what names mean
/// there. A text is its statement `module`, and that one has the text's number.
#[derive(Drop)]
pub struct Scopes<'a> {
    book: Book<'a>,
}

impl<'a> Model for Scopes<'a> {
    ghost use Rattle.nc_yang_scopes.specs.Scopes.{Scoping};
    ghost use Rattle.nc_yang_scopes.specs.inner.Books.{IsBook};
    ghost use Rattle.nc_yang_scopes.specs.Numbers.{located};
    ghost use Rattle.std.specs.Coded.{codes};
    ghost use Rattle.nc_yang_words.specs.contracts.statement.Statement as statements;

    ghost Value = { Scoping };

    ghost coded = { Prim.hlevel (codes, statements.the_row.coded) };

    ghost view = { λ s. record { texts = s.book.texts.now; located = located s.book.numbering.frames } };

    ghost invariant = { λ s. IsBook s.book };
}

impl<'a> Scopes<'a> {
    /// The statements of texts, of which each is a module. Time and memory grow with the number of
    /// statements.
    pub fn of(alloc: Global, texts: &'a [Statement]) -> Result<Scopes<'a>, Memory>
        ensures texts { IfOk result (λ it. it.texts ≡ texts.now) }
        ensures numbers { IfOk result IsScoping }
    {
        Ok(Scopes {
            book: Book::of(alloc, texts)?,
        })
    }

    /// How many texts there are.
    pub fn texts(&self) -> usize
        ensures { result ≡ length self.now.texts }
    {
        self.book.texts.len()
    }

    /// How many statements there are. Their numbers are those below it.
    pub fn len(&self) -> usize
        ensures { result ≡ length self.now.located }
    {
        self.book.len()
    }

    /// Whether a definition of a name stands further out than in the block of the statement of a number.
    pub(crate) fn is_defined_out(&self, keyword: Keyword, number: usize, word: &'a str) -> bool
        requires { IsTrue (scopes.is_defining keyword) }
        ensures { result ≡ option_map_or (λ l. is_defined_out keyword word.now l.place)
            (slice_get self.now.located number) false }
    {
        self.book.is_defined_out(keyword, number, word)
    }

    /// The number of a text's statement `module`, or `None` past the last text.
    pub fn root(&self, text: usize) -> Option<usize>
        ensures { option_and_then (slice_get self.now.located) result ≡ scopes.root self.now.texts text }
    {
        self.book.root(text)
    }

    /// The number of the statement that stands in a place directly in the one of a number.
    pub fn child(&self, number: usize, place: usize) -> usize
        requires { IsSome (option_and_then (scopes.child place) (slice_get self.now.located number)) }
        ensures { slice_get self.now.located result
            ≡ option_and_then (scopes.child place) (slice_get self.now.located number) }
    {
        self.book.child(number, place)
    }

    /// The statement of a number.
    pub fn statement(&self, number: usize) -> Option<&'a Statement>
        ensures { option_copied result ≡ option_map (λ l. l.statement) (slice_get self.now.located number) }
    {
        self.book.statement(number)
    }

    /// The text in which the statement of a number stands.
    pub fn text(&self, number: usize) -> Option<usize>
        ensures { result ≡ option_map (λ l. l.place.text) (slice_get self.now.located number) }
    {
        self.book.text(number)
    }

    /// The first text of a module's name.
    pub fn text_of(&self, name: &'a str) -> Option<usize>
        ensures { result ≡ scopes.text_of self.now.texts name.now }
    {
        self.book.text_of(name)
    }

    /// Whether a text's module has a revision of a date (RFC 7950 7.1.9).
    pub fn has_revision(&self, text: usize, date: &'a str) -> bool
        ensures { result ≡ scopes.has_revision self.now.texts text date.now }
    {
        self.book.has_revision(text, date)
    }

    /// The text for which a prefix stands in a text (RFC 7950 7.1.4, 7.1.5).
    pub fn text_of_prefix(&self, text: usize, prefix: &'a str) -> Option<usize>
        ensures { result ≡ scopes.text_of_prefix self.now.texts text prefix.now }
    {
        self.book.text_of_prefix(text, prefix)
    }

    /// The number of the definition to which a reference leads where the statement of a number stands: of a
    /// type or a grouping by scope, of an identity or a feature by module (RFC 7950 5.5, 6.2.1).
    pub fn resolve(&self, keyword: Keyword, number: usize, reference: &'a str) -> Option<usize>
        requires { IsTrue (scopes.is_defining keyword) }
        ensures value { option_and_then (slice_get self.now.located) result ≡ option_and_then
            (λ l. scopes.resolved self.now.texts keyword reference.now l.place)
            (slice_get self.now.located number) }
        ensures there { IfSome result (λ found. found < length self.now.located) }
    {
        self.book.resolve(keyword, number, reference)
    }
}
