//! The first moves of a node.

use crate::step::Step;

/// The first of the moves of a node, in order.
#[derive(Drop)]
pub struct Successors {
    pub steps: Vec<Step>,
    /// Whether they are all its moves. `false` says nothing.
    pub is_all: bool,
}
