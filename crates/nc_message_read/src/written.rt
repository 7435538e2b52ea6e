//! The tokens of a message as they are written.
use nc_names::Many;
use std::marker::Model;

/// Some bytes of a message.
#[derive(Drop)]
pub(crate) struct Span<'a> {
    pub(crate) bytes: &'a [u8],
}

impl<'a> Model for Span<'a> {
    ghost use Rattle.std.specs.Prelude.{List, ℕ};

    ghost Value = { List ℕ };

    ghost view = { λ s. s.bytes.now };
}

/// Some characters of a message.
#[derive(Drop)]
pub(crate) struct Word<'a> {
    pub(crate) chars: &'a str,
}

impl<'a> Model for Word<'a> {
    ghost use Rattle.std.specs.Prelude.{List, ℕ};

    ghost Value = { List ℕ };

    ghost view = { λ s. s.chars.now };
}

/// A name as it is written.
#[derive(Drop)]
pub(crate) struct Name<'a> {
    pub(crate) prefix: Word<'a>,
    pub(crate) local: Word<'a>,
}

impl<'a> Model for Name<'a> {
    ghost use Rattle.nc_message.specs.Tokens.{Name as TheName};

    ghost Value = { TheName };

    ghost view = { λ n. record { prefix = n.prefix; local = n.local } };
}

/// An attribute as it is written.
#[derive(Drop)]
pub(crate) struct Attribute<'a> {
    pub(crate) name: Name<'a>,
    pub(crate) value: Span<'a>,
}

impl<'a> Model for Attribute<'a> {
    ghost use Rattle.nc_message.specs.Tokens.{Attribute as TheAttribute};

    ghost Value = { TheAttribute };

    ghost view = { λ a. record { name = a.name; value = a.value } };
}

/// A start tag; `alone` where it closes its element too.
#[derive(Drop)]
pub(crate) struct Tag<'a> {
    pub(crate) name: Name<'a>,
    pub(crate) attributes: Many<Attribute<'a>>,
    pub(crate) alone: bool,
}

impl<'a> Model for Tag<'a> {
    ghost use Rattle.nc_message.specs.Tokens.{Tag as TheTag};

    ghost Value = { TheTag };

    ghost view = { λ t. record { name = t.name; attributes = t.attributes; alone = t.alone } };
}

/// A token of a message.
#[derive(Drop)]
pub(crate) enum Token<'a> {
    Start(Tag<'a>),
    End(Name<'a>),
    Run(Span<'a>),
    Section(Span<'a>),
    Comment(Span<'a>),
    Instruction(Span<'a>),
    Declaration,
}
