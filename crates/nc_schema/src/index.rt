//! An index of data nodes by their parents and names, which finds a child without a walk.
ghost use Rattle.std.specs.Prelude.{OnOk};
ghost use Rattle.nc_schema.specs.inner.Index.{HasEntry};

use crate::Node;
use nc_names::{Copies, Memory, QName};
use std::alloc::Global;
use std::collections::BTreeMap;

/// The numbers of data nodes by their parents and names. Of two nodes of one name in one parent it
/// has the first.
#[derive(Drop)]
pub(crate) struct Index {
    /// The nodes at the top.
    pub(crate) top: BTreeMap<QName, u32>,
    /// The nodes in each node, by its number.
    pub(crate) below: Vec<BTreeMap<QName, u32>>,
}

impl Index {
    ghost use Rattle.std.specs.Prelude.{◌≡◌, ◌<◌, ◌^◌, ◌++◌, [], ◌∷◌, length, List, IfSome, IfOk, OnOk};
    ghost use Rattle.nc_schema.specs.declared.node.Node.{Node};
    ghost use Rattle.nc_schema.specs.Children.{IsListOfNodes};
    ghost use Rattle.nc_schema.specs.inner.Index.{IsIndexOf, known_child};

    /// The index of no nodes.
    pub(crate) fn new(alloc: Global) -> Index
        ensures { IsIndexOf [] result }
    {
        Index {
            top: BTreeMap::new(alloc),
            below: Vec::new(alloc),
        }
    }

    /// The index of these nodes.
    pub(crate) fn of(alloc: Global, nodes: &[Node]) -> Result<Index, Memory>
        requires { IsListOfNodes nodes.now }
        ensures { IfOk result (IsIndexOf nodes.now) }
    {
        let mut index = Index::new(alloc);
        for node in nodes {
            index.add(node)?;
        }
        Ok(index)
    }

    /// The number of the child of that name in that parent.
    pub(crate) fn child(&self, parent: Option<u32>, name: &QName) -> Option<u32>
        ensures { result ≡ known_child self.now parent name.now }
    {
        let names = match parent {
            None => &self.top,
            Some(above) => self.below.get(above as usize)?,
        };
        names.get(name).copied()
    }

    /// Adds the next node. Where memory is wanting, the index is of no use any more.
    pub(crate) fn add(&mut self, node: &Node) -> Result<(), Memory>
        requires few { length self.old.below.items < 2 ^ 32 }
        requires above { IfSome node.now.parent (λ above. above < length self.old.below.items) }
        ensures { OnOk result ((nodes : List Node) → IsIndexOf nodes self.old →
            IsIndexOf (nodes ++ node.now ∷ []) self.new) }
    {
        let alloc = *self.below.allocator();
        let number = self.below.len() as u32;
        match node.parent {
            None => enter(&mut self.top, &node.name, number)?,
            Some(above) => enter(&mut self.below[above as usize], &node.name, number)?,
        }
        self.below.push(BTreeMap::new(alloc))?;
        Ok(())
    }
}

/// Enters a number under a name that has none.
fn enter(names: &mut BTreeMap<QName, u32>, name: &QName, number: u32) -> Result<(), Memory>
    ensures { OnOk result (HasEntry names.old names.new name.now number) }
{
    if names.contains_key(name) {
        return Ok(());
    }
    names.insert(name.copy()?, number)?;
    Ok(())
}
