//! The bindings with which a text is read.
ghost use Rattle.nc_types.specs.inner.Scopes.{scoped};

use nc_names::{Binds, Bound, Many, Memory, Text};
use nc_schema::Schema;
use std::alloc::Global;

/// The bindings that were given, or the names of the modules.
#[derive(Drop)]
pub(crate) enum Scope<'a, B> {
    Given(&'a B),
    Names(&'a Schema),
}

impl<'a, B: Binds> Binds for Scope<'a, B> {
    ghost use Rattle.nc_types.specs.inner.Scopes.{scoped};

    ghost bound = { λ scope. scoped B.bound scope };

    fn space_of(&self, prefix: &Text) -> Option<&Text> {
        match self {
            Scope::Given(bounds) => bounds.space_of(prefix),
            Scope::Names(schema) => schema.space_of(prefix),
        }
    }

    fn to_many(&self, alloc: Global) -> Result<Many<Bound>, Memory> {
        match self {
            Scope::Given(bounds) => bounds.to_many(alloc),
            Scope::Names(schema) => schema.to_many(alloc),
        }
    }
}
