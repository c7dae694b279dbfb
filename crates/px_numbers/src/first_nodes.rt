//! The first nodes of a search, made when they are asked for.
ghost use Rattle.std.specs.Prelude.{◌≡◌, ◌<◌, ◌≤◌, List, Some, length, slice_get, take, IfOk};
ghost use Rattle.px_table.specs.declared.node.Node.{Node};
ghost use Rattle.px_numbers.specs.Numbers.{AllStand};

use crate::making::node_at;
use crate::nodes::NodeSet;
use crate::numbers::Numbers;
use px_base::NoMemory;
use px_table::Node;
use std::alloc::Global;
use std::marker::Model;

/// The first nodes of a search, in the order in which they were found. They are kept by number, and each is made when it is asked for.
///
/// Contracts see it as the list of the nodes.
#[derive(Drop)]
pub struct FirstNodes {
    numbers: Numbers,
    keys: NodeSet,
    count: usize,
}

impl Model for FirstNodes {
    ghost use Rattle.std.specs.Prelude.{List, take};
    ghost use Rattle.px_table.specs.declared.node.Node.{Node};
    ghost use Rattle.px_numbers.specs.Nodewise.{AreFirst, nodes_of};

    ghost Value = { List Node };

    ghost view = { λ f. take f.count (nodes_of f.numbers f.keys) };

    ghost invariant = { λ f. AreFirst f.numbers f.keys f.count };
}

impl FirstNodes {
    /// Returns the first `count` of the nodes. Does not allocate.
    pub fn new(numbers: Numbers, keys: NodeSet, count: usize) -> FirstNodes
        requires count { count ≤ length keys }
        requires stand { (nodes : List Node) × AllStand numbers keys nodes }
        ensures { (nodes : List Node) → AllStand numbers keys nodes → result ≡ take count nodes }
    {
        numbers.sound();
        FirstNodes {
            numbers,
            keys,
            count,
        }
    }

    /// Returns the number of the nodes. Does not allocate.
    pub fn count(&self) -> usize
        ensures { result ≡ length self.now }
    {
        self.count
    }

    /// Returns the node at the place.
    ///
    /// # Errors
    /// `NoMemory` where there is no memory for it.
    pub fn node(&self, alloc: Global, place: usize) -> Result<Node, NoMemory>
        requires { place < length self.now }
        ensures { IfOk result (λ node. slice_get self.now place ≡ Some node) }
    {
        node_at(alloc, &self.numbers, self.keys.node(place))
    }
}
