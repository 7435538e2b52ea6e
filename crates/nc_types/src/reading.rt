//! With what a text is read, whatever its type.
ghost use Rattle.std.specs.Prelude.{◌≡◌};
ghost use Rattle.nc_types.specs.inner.Scopes.{scoped};
ghost use Rattle.nc_types.specs.inner.Readings.{in_force};

use crate::scope::Scope;
use nc_names::Binds;
use nc_schema::Schema;
use std::alloc::Global;

/// With what a text is read.
#[derive(Drop)]
pub(crate) struct Reading<'a, K, B> {
    /// Gives the canonical texts of keys within values that are paths.
    pub(crate) keys: &'a K,
    pub(crate) alloc: Global,
    pub(crate) schema: &'a Schema,
    /// The prefixes where the text stands.
    pub(crate) bounds: &'a B,
    /// Whether the names of the modules count in their place, as they do in canonical texts.
    pub(crate) by_names: bool,
}

impl<'a, K, B: Binds> Reading<'a, K, B> {
    /// The names of the modules, or else the bindings that were given.
    pub(crate) fn scope(&self) -> Scope<'a, B>
        ensures { scoped B.bound result ≡ in_force B.bound self.now }
    {
        if self.by_names {
            Scope::Names(self.schema)
        } else {
            Scope::Given(self.bounds)
        }
    }
}
