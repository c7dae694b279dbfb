//! How a pursuit ends.
use px_gaps::MetLimit;
use px_numbers::FirstNodes;
use px_table::Node;

/// How a pursuit ends: at its goal, or with the last search, which found no plan.
#[derive(Drop)]
pub enum PursueEnd {
    /// The goal is reached.
    Goal,
    /// All nodes were searched, and no node is solved.
    Exhausted,
    /// The search kept as many nodes as it may, and no node is solved.
    NodeLimit {
        /// The kept nodes, in the order in which they were found.
        nodes: FirstNodes,
        /// How many moves lead to the node after them.
        moves: u32,
    },
    /// The search met the limit of shapes.
    ShapeLimit {
        /// The node at which it was met.
        node: Node,
        /// The question that met it there, and the first shapes.
        limit: MetLimit,
    },
}
