//! The bindings that were made last: values with the same module names as prefixes share them.
ghost use Rattle.std.specs.Prelude.{◌≡◌, ◌↔◌, IfOk, IsTrue};

use nc_message::Bounds;
use nc_names::{Bound, Copies, Many, Memory};
use std::alloc::Global;
use std::marker::Model;

/// Bindings, with the list of which they were made.
#[derive(Drop)]
pub(crate) struct Latest {
    names: Many<Bound>,
    made: Bounds,
}

impl Model for Latest {
    ghost use Rattle.std.specs.Prelude.{◌≡◌, List};
    ghost use Rattle.nc_names.specs.declared.name.Bound.{Bound};

    ghost Value = { List Bound };

    ghost view = { λ l. l.made };

    ghost invariant = { λ l. l.made ≡ l.names };
}

// Whether two lists of bindings are the same.
fn same_names(names: &[Bound], others: &[Bound]) -> bool
    ensures { IsTrue result ↔ (names.now ≡ others.now) }
{
    names == others
}

impl Latest {
    /// No bindings. It takes no memory.
    pub(crate) fn new(alloc: Global) -> Latest {
        Latest {
            names: Many::new(alloc),
            made: Bounds::new(),
        }
    }

    /// These bindings: the ones that were made last, where they are the same.
    pub(crate) fn bounds_of(&mut self, alloc: Global, names: Many<Bound>) -> Result<Bounds, Memory>
        ensures { IfOk result (λ it. it ≡ names) }
    {
        if same_names(self.names.as_slice(), names.as_slice()) {
            return self.made.copy();
        }
        let made = Bounds::from_many(alloc, &names)?;
        let shared = made.copy()?;
        *self = Latest { names, made };
        Ok(shared)
    }
}
