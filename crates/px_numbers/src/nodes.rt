//! Nodes as pairs of numbers.
ghost use Rattle.std.specs.Prelude.{◌≡◌, ◌<◌, [], Some, length, slice_get, Contains, IfOk, IsOk, OnErr};
ghost use Rattle.px_ops.specs.Keeping.{Keeps};

use indexmap::IndexSet;
use px_base::NoMemory;
use px_ops::keep;
use std::alloc::Global;
use std::marker::Model;

/// A node of a search: the number of its model, and that of its stack.
#[derive(Clone, Copy, PartialEq, Eq, Hash)]
pub struct NodeKey {
    /// The number of the model.
    pub model: u32,
    /// The number of the stack.
    pub stack: u32,
}

/// Nodes, each kept once, in the order in which they were found.
///
/// Contracts see it as the list of its nodes.
#[derive(Drop)]
pub struct NodeSet {
    nodes: IndexSet<NodeKey>,
}

impl Model for NodeSet {
    ghost use Rattle.std.specs.Prelude.{◌≤◌, List, length};
    ghost use Rattle.px_base.specs.Bounds.{u32_max};
    ghost use Rattle.px_numbers.specs.declared.nodes.NodeKey.{NodeKey};

    ghost Value = { List NodeKey };

    ghost view = { λ s. s.nodes.keys };

    ghost invariant = { λ s. length s.nodes.keys ≤ u32_max };
}

impl NodeSet {
    /// Returns a set without nodes. Does not allocate.
    pub fn new(alloc: Global) -> NodeSet
        ensures { result ≡ [] }
    {
        NodeSet {
            nodes: IndexSet::new(alloc),
        }
    }

    /// Returns the number of nodes. Does not allocate.
    pub fn count(&self) -> usize
        ensures { result ≡ length self.now }
    {
        self.nodes.len()
    }

    /// Returns the place of the node. A new node is put last, and nothing else changes.
    ///
    /// # Errors
    /// `NoMemory` where the node is new and there is no memory for it, or 4,294,967,295 nodes are there. The set is then as
    /// it was.
    pub fn intern(&mut self, node: NodeKey) -> Result<u32, NoMemory>
        ensures kept { IfOk result (Keeps self.old self.new node) }
        ensures there { Contains self.old node → IsOk result }
        ensures err { OnErr result (self.new ≡ self.old) }
    {
        keep(&mut self.nodes, node)
    }

    /// Returns the node at the place. Does not allocate.
    pub fn node(&self, place: usize) -> NodeKey
        requires { place < length self.now }
        ensures { slice_get self.now place ≡ Some result }
    {
        match self.nodes.get_index(place) {
            Some(node) => *node,
            None => unreachable!(),
        }
    }
}
