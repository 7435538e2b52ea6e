//! The statements of texts under numbers.
ghost use Rattle.std.specs.Prelude.{◌≡◌, [], ◌∷◌, ◌++◌, ◌<◌, length, slice_get, option_map, IfOk, OnOk, OnSome};
ghost use Rattle.nc_yang_scopes.specs.Numbers.{children, roots};
ghost use Rattle.nc_yang_scopes.specs.inner.Frames.{entry_of};

use nc_names::{Many, Memory};
use nc_yang_words::Statement;
use std::alloc::Global;
use std::marker::Model;

/// A statement, the number of its text, and the number of the statement in which it stands.
#[derive(Clone, Copy)]
pub(crate) struct Frame<'a> {
    pub statement: &'a Statement,
    pub text: usize,
    pub outer: Option<usize>,
}

/// Statements, each under its number.
#[derive(Drop)]
pub(crate) struct Frames<'a> {
    list: Many<Frame<'a>>,
}

impl<'a> Model for Frames<'a> {
    ghost use Rattle.std.specs.Prelude.{List, map};
    ghost use Rattle.nc_yang_scopes.specs.Numbers.{Entry};
    ghost use Rattle.nc_yang_scopes.specs.inner.Frames.{entry_of};
    ghost use Rattle.std.specs.Coded.{codes};
    ghost use Rattle.nc_yang_words.specs.contracts.statement.Statement as statements;

    ghost Value = { List Entry };

    ghost coded = { Prim.hlevel (codes, statements.the_row.coded) };

    ghost view = { λ f. map entry_of f.list };
}

impl<'a> Frames<'a> {
    // No statements. It takes no memory.
    fn new(alloc: Global) -> Frames<'a>
        ensures { result ≡ [] }
    {
        Frames {
            list: Many::new(alloc),
        }
    }

    /// The statements of the texts, which stand in no other.
    pub(crate) fn roots(alloc: Global, texts: &'a [Statement]) -> Result<Frames<'a>, Memory>
        ensures { IfOk result (λ it. it ≡ roots 0 texts.now) }
    {
        let mut frames = Frames::new(alloc);
        for (text, statement) in texts.iter().enumerate() {
            frames.push(Frame {
                statement,
                text,
                outer: None,
            })?;
        }
        Ok(frames)
    }

    /// How many there are.
    pub(crate) fn len(&self) -> usize
        ensures { result ≡ length self.now }
    {
        self.list.len()
    }

    /// The statement of a number, if there is one.
    pub(crate) fn get(&self, number: usize) -> Option<Frame<'a>>
        ensures value { option_map entry_of result ≡ slice_get self.now number }
        ensures within { OnSome result (number < length self.now) }
    {
        self.list.get(number).copied()
    }

    // Gives a statement the next number.
    fn push(&mut self, frame: Frame<'a>) -> Result<(), Memory>
        ensures { OnOk result (self.new ≡ self.old ++ entry_of frame.entry ∷ []) }
    {
        self.list.push(frame)
    }

    /// Gives numbers to what stands directly in the statement of a number.
    pub(crate) fn push_below(&mut self, number: usize, frame: Frame<'a>) -> Result<(), Memory>
        ensures { OnOk result (self.new ≡ self.old ++ children number (entry_of frame.entry)) }
    {
        for statement in frame.statement.below.as_slice() {
            self.push(Frame {
                statement,
                text: frame.text,
                outer: Some(number),
            })?;
        }
        Ok(())
    }
}
