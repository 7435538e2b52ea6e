//! The prefixes that are in force in an element, bound to the marks of their namespaces. They stand beside
//! the bindings where a message declares long namespaces.
ghost use Rattle.std.specs.Prelude.{◌≡◌, [], false, List, map, IfOk};
ghost use Rattle.nc_names.specs.declared.name.Bound.{Bound};
ghost use Rattle.nc_message.specs.Bindings.{Declared, inside};
ghost use Rattle.nc_message_read.specs.inner.Marks.{IsBeside, marked_bound, prefixed};

use crate::marks::Marks;
use nc_message::{Bounds, Level};
use nc_names::{Bound, Copies, Memory, Shared};
use std::alloc::Global;

/// Prefixes that are bound to marks, and the numbers of the long namespaces. To copy them copies no binding.
#[derive(Drop)]
pub(crate) struct Marked {
    pub(crate) bounds: Bounds,
    pub(crate) marks: Shared<Marks>,
}

impl Marked {
    /// No prefixes, in a message whose long namespaces have these numbers.
    pub(crate) fn new(marks: Shared<Marks>) -> Marked
        ensures { result.bounds ≡ [] }
    {
        Marked {
            bounds: Bounds::new(),
            marks,
        }
    }

    /// The prefixes in an element below, whose start tag binds `own` to namespaces.
    pub(crate) fn below(&self, alloc: Global, own: &[Bound]) -> Result<Marked, Memory>
        ensures { (outer : List Bound) (said : Declared) → IsBeside outer self.now
            → own.now ≡ prefixed said.own → IfOk result (IsBeside (inside outer said)) }
    {
        let marks = self.marks.copy()?;
        let level = marked_level(alloc, marks.get(), own)?;
        Ok(Marked {
            bounds: self.bounds.below(alloc, level)?,
            marks,
        })
    }
}

impl Copies for Marked {
    fn copy(&self) -> Result<Marked, Memory> {
        Ok(Marked {
            bounds: self.bounds.copy()?,
            marks: self.marks.copy()?,
        })
    }
}

// A tag that declares the same prefixes for the marks.
fn marked_level(alloc: Global, marks: &Marks, own: &[Bound]) -> Result<Level, Memory>
    ensures own { IfOk result (λ it. it.own ≡ map (marked_bound marks.now) own.now) }
    ensures undeclares { IfOk result (λ it. it.undeclares ≡ false) }
{
    let mut level = Level::new(alloc);
    for bound in own {
        level = level.declare(bound.prefix.copy()?, marks.mark(alloc, &bound.space)?)?;
    }
    Ok(level)
}
