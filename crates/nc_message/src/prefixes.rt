//! The prefixes that were seen in one start tag.
ghost use Rattle.std.specs.Prelude.{[], IfOk};
ghost use Rattle.nc_message.specs.inner.Declaring.{AreSeen, IsAdded};

use nc_names::{Copies, Memory, Text};
use std::alloc::Global;
use std::collections::BTreeSet;

/// The prefixes that were seen, of those that have to be declared.
#[derive(Drop)]
pub(crate) struct Prefixes {
    pub(crate) seen: BTreeSet<Text>,
}

impl Prefixes {
    /// No prefixes. It takes no memory.
    pub(crate) fn new(alloc: Global) -> Prefixes
        ensures { AreSeen result.seen [] }
    {
        Prefixes {
            seen: BTreeSet::new(alloc),
        }
    }

    /// Adds a prefix, and answers whether it is new.
    pub(crate) fn add(&mut self, prefix: &Text) -> Result<bool, Memory>
        ensures { IfOk result (λ added. IsAdded self.old.seen self.new.seen prefix.now added) }
    {
        let added = self.seen.insert(prefix.copy()?)?;
        Ok(added)
    }
}
