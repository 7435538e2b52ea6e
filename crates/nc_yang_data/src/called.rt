//! Choices by their parents and names.
ghost use Rattle.std.specs.Prelude.{◌≡◌, List, ℕ, None, IfOk};
ghost use Rattle.nc_yang_data.specs.declared.siblings.Parent.{Parent as TheParent};
ghost use Rattle.nc_yang_data.specs.inner.Called.{CallsOneMore, called_at};

use crate::siblings::Parent;
use nc_names::Memory;
use nc_yang_scopes::Table;
use std::alloc::Global;

/// The number of the first choice of each name in each parent.
#[derive(Drop)]
pub(crate) struct Called<'a> {
    pub in_choices: Table<'a>,
    pub in_nodes: Table<'a>,
    pub at_top: Table<'a>,
}

impl<'a> Called<'a> {
    /// No choices. It takes no memory.
    pub(crate) fn new(alloc: Global) -> Called<'a>
        ensures { (parent : TheParent) (word : List ℕ) → called_at result parent word ≡ None }
    {
        Called {
            in_choices: Table::new(alloc),
            in_nodes: Table::new(alloc),
            at_top: Table::new(alloc),
        }
    }

    /// With the number of a choice of that name there, unless there is one.
    pub(crate) fn with(
        self,
        parent: Parent,
        word: &'a str,
        number: usize,
    ) -> Result<Called<'a>, Memory>
        ensures { IfOk result (λ it. CallsOneMore self.entry parent word.now number it) }
    {
        let Called {
            in_choices,
            in_nodes,
            at_top,
        } = self;
        match parent {
            Parent::InChoice(at) => Ok(Called {
                in_choices: in_choices.with(at as usize, word, number)?,
                in_nodes,
                at_top,
            }),
            Parent::InNode(at) => Ok(Called {
                in_choices,
                in_nodes: in_nodes.with(at as usize, word, number)?,
                at_top,
            }),
            Parent::AtTop(text) => Ok(Called {
                in_choices,
                in_nodes,
                at_top: at_top.with(text, word, number)?,
            }),
        }
    }

    /// The number of the first choice of that name there.
    pub(crate) fn get(&self, parent: Parent, word: &'a str) -> Option<usize>
        ensures { result ≡ called_at self.now parent word.now }
    {
        match parent {
            Parent::InChoice(at) => self.in_choices.get(at as usize, word),
            Parent::InNode(at) => self.in_nodes.get(at as usize, word),
            Parent::AtTop(text) => self.at_top.get(text, word),
        }
    }
}
