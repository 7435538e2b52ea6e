//! How things stand between two tokens.
ghost use Rattle.std.specs.Prelude.{◌≡◌, ◌+◌, ◌<◌, ◌≤◌, ◌^◌, ℕ, length};
ghost use Rattle.nc_patterns.specs.inner.Lengths.{IsUpTo};
ghost use Rattle.nc_patterns.specs.Tokens.{one_character, outside};

use crate::class::inside;
use crate::count::counted;
use crate::escape::escape;
use crate::slices::char_at;
use crate::token::{Front, Token};

/// How deep groups may nest.
const DEEPEST_GROUP: u64 = 60;

/// Where a token stands.
#[derive(Clone, Copy, PartialEq, Eq)]
pub enum Place {
    /// Outside classes.
    Outside,
    /// First in a class.
    ClassStart,
    /// Later in a class.
    Class,
}

/// How things stand between two tokens.
#[derive(Clone, Copy)]
pub struct State {
    /// How many groups are open.
    pub depth: u64,
    /// Whether what stands before may be repeated.
    pub repeatable: bool,
    /// Where the next token stands.
    pub place: Place,
}

/// What a character is outside classes, where it is a token alone.
#[tactic(auto, unfolding(crate::specs::Tokens::one_character))]
fn one_character(c: char) -> Token
    ensures { result ≡ one_character c }
{
    match c {
        '.' => Token::Any,
        '(' => Token::Opens,
        ')' => Token::Closes,
        '|' => Token::Bar,
        '?' | '*' | '+' => Token::Repeats,
        _ => Token::Ordinary(c),
    }
}

/// The token at the front outside classes, as if each were allowed.
#[tactic(auto, unfolding(crate::specs::Tokens::outside))]
fn outside(text: &[char]) -> Front
    requires { length text.now < 2 ^ 61 }
    ensures value { result ≡ outside text.now }
    ensures bound { IsUpTo (length text.now) result }
{
    let Some((c, rest)) = text.split_first() else {
        return Front::Bad;
    };
    match *c {
        '\\' => escape(rest),
        '[' if char_at(rest, 0) == '^' => Front::Fits(Token::ClassOpens, 2),
        '[' => Front::Fits(Token::ClassOpens, 1),
        '{' => counted(rest),
        ']' | '}' => Front::Bad,
        _ => Front::Fits(one_character(*c), 1),
    }
}

impl State {
    ghost use Rattle.nc_patterns.specs.Reading.{start, allowed, front, next, may_end};

    /// Before the first token.
    pub(crate) fn start() -> State
        ensures { result ≡ start }
    {
        State {
            depth: 0,
            repeatable: false,
            place: Place::Outside,
        }
    }

    /// What stands at the front, where groups may be opened, closed and repeated as far as this
    /// state allows.
    #[tactic(auto, unfolding(crate::specs::Reading::allowed))]
    fn allowed(self, found: Front) -> Front
        ensures value { result ≡ allowed self found }
        ensures bound { (most : ℕ) → IsUpTo most found → IsUpTo most result }
    {
        match found {
            Front::Fits(Token::Opens, _) if self.depth >= DEEPEST_GROUP => Front::Unsupported,
            Front::Fits(Token::Closes, _) if self.depth == 0 => Front::Bad,
            Front::Fits(Token::Repeats, _) if !self.repeatable => Front::Bad,
            _ => found,
        }
    }

    /// The token at the front of a text.
    #[tactic(auto, unfolding(crate::specs::Reading::front_at))]
    pub(crate) fn front(self, text: &[char]) -> Front
        requires { length text.now < 2 ^ 61 }
        ensures value { result ≡ front self text.now }
        ensures bound { IsUpTo (length text.now) result }
    {
        match self.place {
            Place::Outside => self.allowed(outside(text)),
            Place::ClassStart => inside(true, text),
            Place::Class => inside(false, text),
        }
    }

    /// How things stand after a token.
    #[tactic(auto, unfolding(crate::specs::Reading::next))]
    pub(crate) fn next(self, token: Token) -> State
        requires { self.depth < 2 ^ 62 }
        ensures value { result ≡ next self token }
        ensures rises { result.depth ≤ self.depth + 1 }
    {
        let (depth, repeatable, place) = match (token, self.place) {
            (Token::Opens, _) => (self.depth + 1, false, Place::Outside),
            (Token::Closes, _) => (self.depth.saturating_sub(1), true, Place::Outside),
            (Token::Bar | Token::Repeats, place) => (self.depth, false, place),
            (Token::ClassOpens, _) => (self.depth, self.repeatable, Place::ClassStart),
            (Token::ClassCloses, _) => (self.depth, true, Place::Outside),
            (_, Place::Outside) => (self.depth, true, Place::Outside),
            (_, Place::ClassStart | Place::Class) => (self.depth, true, Place::Class),
        };
        State {
            depth,
            repeatable,
            place,
        }
    }

    /// Whether the pattern may end here: no group and no class is open.
    #[tactic(auto, unfolding(crate::specs::Reading::may_end))]
    pub(crate) fn may_end(self) -> bool
        ensures { result ≡ may_end self }
    {
        self.depth == 0 && matches!(self.place, Place::Outside)
    }
}
