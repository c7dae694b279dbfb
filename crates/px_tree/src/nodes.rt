//! The nodes of a search tree, and its end.
use px_base::Sequence;
use px_terms::OpInst;

/// The tree of a search.
#[derive(Drop)]
pub struct Tree {
    /// The nodes, in the order in which they were found. The place of a node is its number there, from 0.
    pub nodes: Sequence<TreeNode>,
    /// How the search ended.
    pub end: TreeEnd,
}

/// A node of a search tree.
#[derive(Drop)]
pub struct TreeNode {
    /// How it was found. `None` for the first node.
    pub origin: Option<TreeOrigin>,
    /// How many atoms of the goal and of the entries on its stack have no instance in its model.
    pub needs: u32,
}

/// How a node was found: by a move from an earlier node.
#[derive(Drop)]
pub struct TreeOrigin {
    /// The place of the node from which the move is made.
    pub parent: usize,
    /// The move.
    pub last: TreeMove,
}

/// A move, with the entry that it pushes or applies.
#[derive(Drop)]
pub struct TreeMove {
    /// What is done with the entry.
    pub kind: MoveKind,
    /// The number of the learned table of which the entry has the first steps. `None` for an operator.
    pub table: Option<u32>,
    /// The steps that applying the entry takes: of an operator itself, with its arguments.
    pub steps: Sequence<OpInst>,
}

/// What a move does with its entry.
#[derive(Clone, Copy, PartialEq, Eq, Debug)]
pub enum MoveKind {
    /// It is put on the stack.
    Push,
    /// It is taken from the stack and applied to the model.
    Apply,
}

/// How the search of a tree ended.
#[derive(Clone, Copy, PartialEq, Eq, Debug)]
pub enum TreeEnd {
    /// The last node is solved.
    Solved,
    /// No node is left to go on from, and none is solved.
    Exhausted,
    /// There was no room for a further node.
    More {
        /// How many moves lead to the further node.
        moves: u32,
    },
    /// A question met the limit of shapes.
    ShapeLimit {
        /// As many shapes as the limit.
        shapes: u32,
    },
}
