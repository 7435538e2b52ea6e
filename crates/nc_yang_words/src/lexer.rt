//! The tokens of a module text, one after another (RFC 7950 6.1).
ghost use Rattle.std.specs.Prelude.{◌≡◌, ◌≤◌, ◌<◌, ◌+◌, IfOk, MatchOption, true, false, length, take, drop};
ghost use Rattle.nc_yang_words.specs.Places.{passed};
ghost use Rattle.nc_yang_words.specs.Tokens.{tokens, tokens_of};
ghost use Rattle.nc_yang_words.specs.inner.Lexing.{left, ahead, Leads};
ghost use Rattle.nc_yang_words.specs.Pieces.{is_last};

use crate::piece::{Piece, read_piece};
use crate::place::Place;
use crate::token::{Kind, Token};
use nc_names::Memory;
use std::alloc::Global;

/// A text of which the first tokens are read.
#[derive(Drop)]
pub(crate) struct Lexer<'a> {
    alloc: Global,
    rest: &'a [char],
    place: Place,
}

impl<'a> Lexer<'a> {
    /// The tokens of a text.
    pub(crate) fn new(alloc: Global, signs: &'a [char]) -> Lexer<'a>
        ensures { left result ≡ tokens_of signs.now }
    {
        Lexer {
            alloc,
            rest: signs,
            place: Place { line: 1, column: 0 },
        }
    }

    /// Passes over characters.
    fn pass(&mut self, count: usize)
        requires { count ≤ length self.old.rest.now }
        ensures rest { self.new.rest.now ≡ drop count self.old.rest.now }
        ensures place { self.new.place ≡ passed self.old.place (take count self.old.rest.now) }
    {
        let (front, rest) = self.rest.split_at(count);
        self.place = self.place.passed(front);
        self.rest = rest;
    }

    /// Passes over white space or a comment, or takes the next token. `apart` says whether white space
    /// or a comment stands just before.
    fn step(&mut self, apart: bool) -> Result<Option<Token>, Memory>
        ensures step { IfOk result (λ step. MatchOption step
            (tokens 0 apart self.old.place self.old.rest.now ≡ tokens 0 true self.new.place self.new.rest.now)
            (λ token. Leads token self.new (tokens 0 apart self.old.place self.old.rest.now))) }
        ensures keeps { ahead self.new ≤ ahead self.old }
        ensures shorter { IfOk result (λ step. MatchOption step
            (ahead self.new < ahead self.old)
            (λ token. is_last token.kind ≡ false → ahead self.new < ahead self.old)) }
    {
        let line = self.place.line;
        let Some((sign, rest)) = self.rest.split_first() else {
            return Ok(Some(Token {
                line,
                apart,
                kind: Kind::End,
            }));
        };
        let width = self.place.after(*sign).column;
        match read_piece(self.alloc, width, *sign, rest)? {
            Piece::Gap(more) => {
                self.pass(more + 1);
                Ok(None)
            }
            Piece::Whole(kind, more) => {
                self.pass(more + 1);
                Ok(Some(Token { line, apart, kind }))
            }
            Piece::Torn => Ok(Some(Token {
                line,
                apart,
                kind: Kind::Torn,
            })),
        }
    }

    /// The next token: the end of the text after the last, and what is no whole token where there is
    /// none.
    pub(crate) fn next_token(&mut self) -> Result<Token, Memory>
        ensures token { IfOk result (λ token. Leads token self.new (left self.old)) }
        ensures keeps { ahead self.new ≤ ahead self.old }
        ensures shorter { IfOk result (λ token.
            is_last token.kind ≡ false → ahead self.new < ahead self.old) }
    {
        let mut apart = false;
        loop {
            if let Some(token) = self.step(apart)? {
                return Ok(token);
            }
            apart = true;
        }
    }
}
