//! The statements of texts under numbers, with what stands in each.
ghost use Rattle.std.specs.Prelude.{IfOk};
ghost use Rattle.nc_yang_scopes.specs.inner.Frames.{IsWhole, entry_of};
ghost use Rattle.nc_yang_scopes.specs.inner.Numberings.{Opens};

use crate::frames::{Frame, Frames};
use nc_names::{Many, Memory};
use nc_yang_words::Statement;
use std::alloc::Global;

/// The statements of texts, and for each the number of the first that stands in it.
#[derive(Drop)]
pub(crate) struct Numbering<'a> {
    pub frames: Frames<'a>,
    pub firsts: Many<usize>,
}

impl<'a> Numbering<'a> {
    // Gives numbers to what stands directly in the next statement.
    fn open(self, number: usize, frame: Frame<'a>) -> Result<Numbering<'a>, Memory>
        ensures { IfOk result (Opens self.entry number (entry_of frame.entry)) }
    {
        let Numbering {
            mut frames,
            mut firsts,
        } = self;
        firsts.push(frames.len())?;
        frames.push_below(number, frame)?;
        Ok(Numbering { frames, firsts })
    }

    /// The statements of texts: first those of the texts themselves, then what stands directly in the first,
    /// in the second, and so on.
    pub(crate) fn of(alloc: Global, texts: &'a [Statement]) -> Result<Numbering<'a>, Memory>
        ensures { IfOk result (λ it. IsWhole texts.now it.frames it.firsts) }
    {
        let mut numbering = Numbering {
            frames: Frames::roots(alloc, texts)?,
            firsts: Many::new(alloc),
        };
        for number in 0..usize::MAX {
            let Some(frame) = numbering.frames.get(number) else {
                return Ok(numbering);
            };
            numbering = numbering.open(number, frame)?;
        }
        Err(Memory)
    }
}
