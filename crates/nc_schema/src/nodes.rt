//! The data nodes of a schema, with an index from a parent and a name to the node.
ghost use Rattle.std.specs.Prelude.{◌≡◌, ◌<◌, ◌^◌, ◌↔◌, false, [], ◌∷◌, ◌++◌, length, slice_get, slice_set, IsTrue, OnOk, OnErr};
ghost use Rattle.std.specs.Option.{option_copied};
ghost use Rattle.std.specs.Bool.{OnTrue};
ghost use Rattle.nc_schema.specs.inner.Index.{IsIndexOf, KeepsName};
ghost use Rattle.nc_schema.specs.Children.{IsChild, IsFirstChild, IsAbove, HasLowerParents, HasRoom, IsListOfNodes};

use crate::Node;
use crate::index::Index;
use nc_names::{Many, Memory, QName, same_name};
use std::alloc::Global;
use std::marker::Model;

/// The data nodes by their numbers.
#[derive(Drop)]
pub(crate) struct Nodes {
    items: Many<Node>,
    index: Index,
    /// Whether a node may have got another name or parent since the index was made.
    stale: bool,
}

impl Model for Nodes {
    ghost use Rattle.std.specs.Prelude.{List};
    ghost use Rattle.nc_schema.specs.declared.node.Node.{Node};

    ghost Value = { List Node };

    ghost use Rattle.nc_schema.specs.inner.Index.{IsIndexed};

    ghost view = { λ n. n.items };

    ghost invariant = { λ n. IsIndexed n.items n.index n.stale };
}

impl Nodes {
    /// No nodes.
    pub(crate) fn new(alloc: Global) -> Nodes
        ensures { result ≡ [] }
    {
        Nodes {
            items: Many::new(alloc),
            index: Index::new(alloc),
            stale: false,
        }
    }

    /// The node of a number.
    pub(crate) fn get(&self, number: u32) -> Option<&Node>
        ensures { option_copied result ≡ slice_get self.now number }
    {
        self.items.get(number as usize)
    }

    /// How many nodes there are.
    pub(crate) fn len(&self) -> u32
        ensures number { result ≡ length self.now }
        ensures lower { HasLowerParents self.now }
    {
        self.items.len() as u32
    }

    /// The number of the first node of that name in that parent.
    pub(crate) fn child(&self, parent: Option<u32>, name: &QName) -> Option<u32>
        ensures { IsFirstChild self.now parent name.now result }
    {
        if self.stale {
            first_child(self.items.as_slice(), parent, name)
        } else {
            self.index.child(parent, name)
        }
    }

    /// Puts a node behind the others.
    pub(crate) fn push(&mut self, node: Node) -> Result<(), Memory>
        requires room { HasRoom self.old }
        requires above { IsAbove node.parent (length self.old) }
        ensures ok { OnOk result (self.new ≡ self.old ++ node ∷ []) }
        ensures err { OnErr result (self.new ≡ self.old) }
    {
        let stale = self.stale;
        self.stale = true;
        refresh(&mut self.index, stale, self.items.as_slice())?;
        self.index.add(&node)?;
        self.items.push(node)?;
        self.stale = false;
        Ok(())
    }

    /// Puts a node in the place of another.
    pub(crate) fn set(&mut self, number: u32, node: Node)
        requires given { number < length self.old }
        requires above { IsAbove node.parent number }
        ensures { self.new ≡ slice_set self.old number node }
    {
        let kept = keeps_name(self.items.as_slice(), number, &node);
        self.stale = self.stale || !kept;
        self.items.set(number as usize, node);
    }
}

/// Makes the index anew where it is stale.
fn refresh(index: &mut Index, stale: bool, nodes: &[Node]) -> Result<(), Memory>
    requires list { IsListOfNodes nodes.now }
    requires fresh { stale ≡ false → IsIndexOf nodes.now index.old }
    ensures { OnOk result (IsIndexOf nodes.now index.new) }
{
    if stale {
        let alloc = *index.below.allocator();
        *index = Index::of(alloc, nodes)?;
    }
    Ok(())
}

/// Whether the node has the name and the parent of the one in that place.
fn keeps_name(nodes: &[Node], number: u32, node: &Node) -> bool
    ensures { OnTrue result (KeepsName nodes.now number node.now) }
{
    match nodes.get(number as usize) {
        Some(old) => is_child(node, old.parent, &old.name),
        None => false,
    }
}

/// The number of the first node of that name in that parent, by looking at one node after another.
fn first_child(nodes: &[Node], parent: Option<u32>, name: &QName) -> Option<u32>
    requires { length nodes.now < 2 ^ 32 }
    ensures { IsFirstChild nodes.now parent name.now result }
{
    for (number, node) in nodes.iter().enumerate() {
        if is_child(node, parent, name) {
            return Some(number as u32);
        }
    }
    None
}

/// Whether the node has that name and stands in that parent.
fn is_child(node: &Node, parent: Option<u32>, name: &QName) -> bool
    ensures { IsTrue result ↔ IsChild parent name.now node.now }
{
    node.parent == parent && same_name(&node.name, name)
}
