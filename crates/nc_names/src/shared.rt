//! A value that several owners share, and that contracts see as the value.
ghost use Rattle.std.specs.Prelude.{◌≡◌, IfOk};

use crate::{Copies, Memory};
use std::alloc::Global;
use std::marker::Model;
use std::sync::Arc;

/// An `Arc` that contracts see as what it holds. A copy is another owner of the one value, so it takes
/// no memory.
#[derive(Debug, Drop)]
pub struct Shared<T> {
    inner: Arc<T, Global>,
}

impl<T> Model for Shared<T> {
    ghost Value = { T };

    ghost coded = { T.code };

    ghost view = { λ b. b.inner.value };
}

impl<T: Drop> Shared<T> {
    /// Moves a value to where it is shared.
    pub fn new(alloc: Global, value: T) -> Result<Shared<T>, Memory>
        ensures { IfOk result (λ b. b ≡ value) }
    {
        Ok(Shared {
            inner: Arc::new(alloc, value)?,
        })
    }
}

impl<T> Shared<T> {
    /// What it holds.
    pub fn get(&self) -> &T
        ensures { result.now ≡ self.now }
    {
        &self.inner
    }
}

impl<T: Drop> Copies for Shared<T> {
    fn copy(&self) -> Result<Shared<T>, Memory> {
        Ok(Shared {
            inner: Arc::try_clone(&self.inner)?,
        })
    }
}

impl<T: PartialEq> PartialEq for Shared<T> {
    ghost use Rattle.std.specs.Cmp.Rules.{comparing};
    ghost use Rattle.std.proofs.Common.{rules};

    ghost eq = { T.eq };

    ghost laws = { Prim.search (comparing, rules) };

    fn eq(&self, other: &Shared<T>) -> bool {
        self.get() == other.get()
    }
}

impl<T: Eq> Eq for Shared<T> {
    ghost use Rattle.std.specs.Cmp.Rules.{comparing};
    ghost use Rattle.std.proofs.Common.{rules};

    ghost laws = { Prim.search (comparing, rules) };
}
