//! What gives the canonical texts of keys within a value.
ghost use Rattle.std.specs.Prelude.{◌≡◌, Some, None, IfOk, IfErr};
ghost use Rattle.nc_types.specs.inner.Faults.{OnNotInType};

use crate::fault::TypeFault;
use nc_names::{Binds, Text};
use nc_schema::Schema;
use std::alloc::Global;

/// Gives the canonical text of a text at a data node.
pub(crate) trait Gives {
    ghost use Rattle.std.specs.Prelude.{List, ℕ, Option};
    ghost use Rattle.nc_names.specs.declared.name.Bound.{Bound};
    ghost use Rattle.nc_schema.specs.Tables.{Tables};

    ghost gives: { Tables → List Bound → ℕ → List ℕ → Option (List ℕ) };

    /// The canonical text of a text at the data node of that number.
    fn give<B: Binds>(
        &self,
        alloc: Global,
        schema: &Schema,
        bounds: &B,
        number: u32,
        text: &str,
    ) -> Result<Text, TypeFault>
        ensures ok { IfOk result (λ it. gives schema.now (B.bound bounds.now) number text.now ≡ Some it) }
        ensures refused { IfErr result (λ fault. OnNotInType fault (gives schema.now (B.bound bounds.now)
            number text.now ≡ None)) };
}

/// Gives none.
#[derive(Drop)]
pub(crate) struct Nothing;

impl Gives for Nothing {
    ghost gives = { λ tables bounds number text. None };

    fn give<B: Binds>(
        &self,
        alloc: Global,
        schema: &Schema,
        bounds: &B,
        number: u32,
        text: &str,
    ) -> Result<Text, TypeFault> {
        Err(TypeFault::NotInType)
    }
}
