//! What prefixes stand for (Namespaces in XML 1.0, 3).
ghost use Rattle.std.specs.Prelude.{◌≡◌, IfOk};
ghost use Rattle.std.specs.Option.{option_copied};
ghost use Rattle.nc_names.specs.Bindings as bindings;

use crate::{Bound, Copies, Many, Memory, Text};
use std::alloc::Global;

/// The bindings in force where a text stands, as a list, however they are kept (Namespaces in XML 1.0, 3).
pub trait Binds {
    ghost use Rattle.std.specs.Prelude.{List};
    ghost use Rattle.nc_names.specs.declared.name.Bound.{Bound};

    ghost bound: { Self → List Bound };

    /// The namespace to which a prefix is bound; of two bindings of one prefix the first counts. The empty
    /// prefix is the default namespace.
    fn space_of(&self, prefix: &Text) -> Option<&Text>
        ensures { option_copied result ≡ bindings.space_of prefix.now (bound self.now) };

    /// A list of the bindings, made anew: for what has to look at each of them.
    fn to_many(&self, alloc: Global) -> Result<Many<Bound>, Memory>
        ensures { IfOk result (λ it. it ≡ bound self.now) };
}

/// It looks at one binding after another, so it is for few.
impl Binds for Many<Bound> {
    ghost bound = { λ bounds. bounds };

    fn space_of(&self, prefix: &Text) -> Option<&Text> {
        for bound in self.as_slice() {
            if *prefix == bound.prefix {
                return Some(&bound.space);
            }
        }
        None
    }

    fn to_many(&self, alloc: Global) -> Result<Many<Bound>, Memory> {
        self.copy()
    }
}
