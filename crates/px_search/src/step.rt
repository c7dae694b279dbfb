//! Moves, and where nodes come from, by numbers.

/// A move, by the number of the entry that is pushed.
#[derive(Clone, Copy)]
pub enum Step {
    /// The top entry is applied to the model and taken off the stack.
    Apply,
    /// The entry of the number is put on the stack.
    Push(u32),
}

/// How a node was found: by a move from the node at the place `parent`.
#[derive(Clone, Copy)]
pub struct Origin {
    /// The place of the node that the move is made from.
    pub parent: usize,
    /// The move.
    pub last: Step,
}
