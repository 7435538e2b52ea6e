//! The tree of statements that the tokens of a text spell (RFC 7950 6.3).
ghost use Rattle.std.specs.Prelude.{◌≡◌, ◌<◌, ◌≤◌, ℕ, List, [], ◌∷◌, Option, Some, None, Bool, Ok, IfOk, IfNone, MatchResult, MatchOption, IfErr, length, reverse, if◌then◌else◌};
ghost use Rattle.std.specs.Str.{chars};
ghost use Rattle.nc_yang_words.specs.inner.Lexing.{left, ahead};
ghost use Rattle.nc_yang_words.specs.inner.Grammar.{reads, reading, state, at_end, begun, ended, Faults, entered, Enters, Moves, Stops, risen, word_token, Expect, Begins, Argues, Joins, Ends, Done};
ghost use Rattle.nc_yang_words.specs.Faults.{IsFaultOf};
ghost use Rattle.nc_yang_words.specs.Spelling.{TextSpells};
ghost use Rattle.nc_yang_words.specs.declared.begun.Begun.{Begun as TheBegun};

use crate::begun::Begun;
use crate::fault::WordFault;
use crate::keyword::{is_keyword, is_plus};
use crate::lexer::Lexer;
use crate::statement::Statement;
use crate::token::{Kind, Token};
use nc_names::{Many, Memory, Text};
use std::alloc::Global;

/// How many statements may stand inside one another.
const MOST_DEPTH: usize = 64;

/// A statement up to its `;` or `{`.
#[derive(Drop)]
struct Head {
    begun: Begun,
    /// Whether its block begins.
    opens: bool,
}

impl Head {
    fn new(alloc: Global, keyword: Text, argument: Option<Text>, line: u32, opens: bool) -> Head
        ensures begun { result.begun ≡ begun keyword argument line }
        ensures opens { result.opens ≡ opens }
    {
        let begun = Begun {
            keyword,
            argument,
            line,
            below: Many::new(alloc),
        };
        Head { begun, opens }
    }
}

/// Whether the token begins a block or ends a statement. `None` where it does neither.
fn opens(kind: Kind) -> Option<bool>
    ensures { MatchOption result
        ((begun : TheBegun) (above : List TheBegun) → at_end begun above kind ≡ None)
        (λ opens. (begun : TheBegun) (above : List TheBegun)
        → at_end begun above kind ≡ Some (entered begun opens above)) }
{
    match kind {
        Kind::Semicolon => Some(false),
        Kind::Open => Some(true),
        _ => None,
    }
}

/// Whether the next token begins a block or ends a statement, after an unquoted argument.
fn read_end(lexer: &mut Lexer<'_>) -> Result<bool, WordFault>
    ensures end { MatchResult result
        (λ opens. (keyword argument : List ℕ) (line : ℕ)
        → Enters (Ends keyword argument line) (left lexer.old)
        (begun keyword (Some argument) line) opens (left lexer.new))
        (λ fault. (keyword argument : List ℕ) (line : ℕ)
        → Stops (Ends keyword argument line) (left lexer.old) fault) }
    ensures keeps { ahead lexer.new ≤ ahead lexer.old }
{
    let Token { line, kind, .. } = lexer.next_token()?;
    opens(kind).ok_or(WordFault::Bad { line })
}

/// After a quoted string: puts the string after a `+` to its end, or says whether the next token
/// begins a block or ends a statement (RFC 7950 6.1.3).
fn read_join(lexer: &mut Lexer<'_>, text: &mut Text) -> Result<Option<bool>, WordFault>
    ensures join { MatchResult result
        (λ opens. MatchOption opens
        ((keyword : List ℕ) (line : ℕ)
        → Moves (Joins keyword text.old line) (left lexer.old)
        (Joins keyword text.new line) (left lexer.new))
        (λ opens. (keyword : List ℕ) (line : ℕ)
        → Enters (Joins keyword text.old line) (left lexer.old)
        (begun keyword (Some text.new) line) opens (left lexer.new)))
        (λ fault. (keyword : List ℕ) (line : ℕ)
        → Stops (Joins keyword text.old line) (left lexer.old) fault) }
    ensures keeps { ahead lexer.new ≤ ahead lexer.old }
    ensures shorter { IfOk result (λ opens. IfNone opens (ahead lexer.new < ahead lexer.old)) }
{
    let Token { line, kind, .. } = lexer.next_token()?;
    match kind {
        Kind::Word(word) => {
            if !is_plus(word.as_str().as_bytes()) {
                return Err(WordFault::Bad { line });
            }
            let Token { line, kind, .. } = lexer.next_token()?;
            let Kind::Quoted(part) = kind else {
                return Err(WordFault::Bad { line });
            };
            text.push_str(part.as_str())?;
            Ok(None)
        }
        Kind::Semicolon => Ok(Some(false)),
        Kind::Open => Ok(Some(true)),
        _ => Err(WordFault::Bad { line }),
    }
}

/// Reads what follows a quoted string of an argument, which the strings after `+` are put to
/// (RFC 7950 6.1.3).
fn read_joined(lexer: &mut Lexer<'_>, text: &mut Text) -> Result<bool, WordFault>
    ensures joined { MatchResult result
        (λ opens. (keyword : List ℕ) (line : ℕ)
        → Enters (Joins keyword text.old line) (left lexer.old)
        (begun keyword (Some text.new) line) opens (left lexer.new))
        (λ fault. (keyword : List ℕ) (line : ℕ)
        → Stops (Joins keyword text.old line) (left lexer.old) fault) }
    ensures keeps { ahead lexer.new ≤ ahead lexer.old }
{
    loop {
        if let Some(opens) = read_join(lexer, text)? {
            return Ok(opens);
        }
    }
}

/// Reads the rest of a statement up to its `;` or `{`, after its keyword.
fn read_head(
    alloc: Global,
    lexer: &mut Lexer<'_>,
    keyword: Text,
    line: u32,
) -> Result<Head, WordFault>
    ensures head { MatchResult result
        (λ head. Enters (Argues keyword line) (left lexer.old) head.begun head.opens (left lexer.new))
        (λ fault. Stops (Argues keyword line) (left lexer.old) fault) }
    ensures keeps { ahead lexer.new ≤ ahead lexer.old }
{
    let Token {
        line: place,
        apart,
        kind,
    } = lexer.next_token()?;
    match kind {
        Kind::Word(argument) => {
            let opens = read_end(lexer)?;
            Ok(Head::new(alloc, keyword, Some(argument), line, opens))
        }
        Kind::Quoted(mut text) => {
            if !apart {
                return Err(WordFault::Bad { line: place });
            }
            let opens = read_joined(lexer, &mut text)?;
            Ok(Head::new(alloc, keyword, Some(text), line, opens))
        }
        Kind::Semicolon => Ok(Head::new(alloc, keyword, None, line, false)),
        Kind::Open => Ok(Head::new(alloc, keyword, None, line, true)),
        _ => Err(WordFault::Bad { line: place }),
    }
}

/// The statements that are begun, and the tokens after.
#[derive(Drop)]
struct Parser<'a> {
    alloc: Global,
    lexer: Lexer<'a>,
    /// The statements whose `}` is to come, the nearest last.
    above: Many<Begun>,
}

impl Parser<'_> {
    /// Ends a statement. The root, where it is the root.
    fn end(&mut self, begun: Begun) -> Result<Option<Statement>, Memory>
        ensures end { IfOk result (λ root.
            ended begun (reverse self.old.above) ≡ risen root (reverse self.new.above)) }
        ensures lexer { self.new.lexer ≡ self.old.lexer }
    {
        let done = begun.close();
        match self.above.pop() {
            None => Ok(Some(done)),
            Some(parent) => {
                self.above.push(parent.with_child(done)?)?;
                Ok(None)
            }
        }
    }

    /// Begins a statement at its keyword, up to its `;` or `{`. The root, where it ends the root.
    fn begin(&mut self, keyword: Text, line: u32) -> Result<Option<Statement>, WordFault>
        ensures begin { MatchResult result
            (λ root. (apart : Bool)
            → reads (state Begins (reverse self.old.above))
            (word_token line apart keyword ∷ left self.old.lexer)
            ≡ reads (risen root (reverse self.new.above)) (left self.new.lexer))
            (λ fault. (apart : Bool)
            → Faults fault (reads (state Begins (reverse self.old.above))
            (word_token line apart keyword ∷ left self.old.lexer))) }
        ensures keeps { ahead self.new.lexer ≤ ahead self.old.lexer }
    {
        if self.above.len() >= MOST_DEPTH || !is_keyword(keyword.as_str().as_bytes()) {
            return Err(WordFault::Bad { line });
        }
        let head = read_head(self.alloc, &mut self.lexer, keyword, line)?;
        if head.opens {
            self.above.push(head.begun)?;
            return Ok(None);
        }
        Ok(self.end(head.begun)?)
    }

    /// Reads on from where a statement may begin or end, up to the next such place. The root, where
    /// it has ended.
    fn turn(&mut self) -> Result<Option<Statement>, WordFault>
        ensures turn { MatchResult result
            (λ root. reads (state Begins (reverse self.old.above)) (left self.old.lexer)
            ≡ reads (risen root (reverse self.new.above)) (left self.new.lexer))
            (λ fault. Faults fault (reads (state Begins (reverse self.old.above)) (left self.old.lexer))) }
        ensures shorter { IfOk result (λ root. IfNone root (ahead self.new.lexer < ahead self.old.lexer)) }
    {
        let Token { line, kind, .. } = self.lexer.next_token()?;
        match kind {
            Kind::Word(keyword) => self.begin(keyword, line),
            Kind::Close => {
                let Some(begun) = self.above.pop() else {
                    return Err(WordFault::Bad { line });
                };
                Ok(self.end(begun)?)
            }
            _ => Err(WordFault::Bad { line }),
        }
    }

    /// Reads up to the end of the root.
    fn read_root(&mut self) -> Result<Statement, WordFault>
        ensures { MatchResult result
            (λ root. reads (state Begins (reverse self.old.above)) (left self.old.lexer)
            ≡ reads (state (Done root) []) (left self.new.lexer))
            (λ fault. Faults fault (reads (state Begins (reverse self.old.above)) (left self.old.lexer))) }
    {
        loop {
            if let Some(root) = self.turn()? {
                return Ok(root);
            }
        }
    }
}

/// The characters of a text.
fn signs_of(alloc: Global, text: &str) -> Result<Vec<char>, Memory>
    ensures { IfOk result (λ signs. signs.items ≡ chars text.now) }
{
    Ok(text.chars().collect(alloc)?)
}

/// The tree that a text spells, or its fault.
fn read_text(alloc: Global, text: &str) -> Result<Statement, WordFault>
    ensures { MatchResult result
        (λ root. reading (chars text.now) ≡ Ok root)
        (λ fault. Faults fault (reading (chars text.now))) }
{
    let signs = signs_of(alloc, text)?;
    let mut parser = Parser {
        alloc,
        lexer: Lexer::new(alloc, &signs),
        above: Many::new(alloc),
    };
    let root = parser.read_root()?;
    let Token { line, kind, .. } = parser.lexer.next_token()?;
    match kind {
        Kind::End => Ok(root),
        _ => Err(WordFault::Bad { line }),
    }
}

/// The one tree of statements that a module text spells (RFC 7950 6.1 to 6.3), at most 64 of them
/// inside one another. A fault names the line, counted from 1, at which the first token begins that
/// is not whole or that no statement text has after the tokens before it, or the line of the end of
/// a text that ends too early.
pub fn statements(alloc: Global, text: &str) -> Result<Statement, WordFault>
    ensures spells { IfOk result (λ root. TextSpells (chars text.now) root) }
    ensures fault { IfErr result (λ fault. IsFaultOf (chars text.now) fault) }
{
    read_text(alloc, text)
}
