//! The names of modules as prefixes (RFC 7950 9.10.2, 9.13).

use crate::Schema;
use nc_names::{Binds, Bound, Copies, Many, Memory, Text};
use std::alloc::Global;

/// The bindings of canonical texts: the name of each module of the schema stands for its namespace.
impl Binds for Schema {
    ghost use Rattle.nc_schema.specs.Bindings.{module_bounds};

    ghost bound = { module_bounds };

    fn space_of(&self, prefix: &Text) -> Option<&Text> {
        for found in self.modules() {
            if *prefix == found.name {
                return Some(&found.space);
            }
        }
        None
    }

    fn to_many(&self, alloc: Global) -> Result<Many<Bound>, Memory> {
        let mut bounds = Many::new(alloc);
        for found in self.modules() {
            bounds.push(Bound {
                prefix: found.name.copy()?,
                space: found.space.copy()?,
            })?;
        }
        Ok(bounds)
    }
}
