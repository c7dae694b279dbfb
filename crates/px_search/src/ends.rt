//! How a search ends.
ghost use Rattle.std.specs.Prelude.{◌≡◌};
ghost use Rattle.px_search.specs.declared.ends.SearchErr.TheVariants.{NoMemory as OutOfMemory};

use px_gaps::MetLimit;
use px_numbers::FirstNodes;
use px_table::{Move, Node, Row};
use px_terms::{NoMemory, OpInst, Sequence};
use std::alloc::AllocFailed;
use std::fmt;
use thiserror::Error;

/// A plan that was found.
#[derive(Drop)]
pub struct Found {
    /// The moves to the first solved node, from the initial node on.
    pub moves: Sequence<Move>,
    /// The operator instances that the moves apply, in order.
    pub steps: Sequence<OpInst>,
    /// For each step the proofs of its precondition, and last those of the goal: the rows of the plan's triangle table (Fikes, Hart
    /// and Nilsson 1972).
    pub support: Vec<Row>,
}

/// Why no plan is answered.
#[derive(Drop, Error)]
pub enum SearchErr {
    /// No list of moves reaches a solved node.
    #[error("no list of moves reaches a solved node")]
    Exhausted,
    /// The first nodes were found, as many as the problem allows. None of them is solved, and there is a further one.
    #[error("as many nodes were found as may be kept, and {moves} moves reach a further one")]
    NodeLimit {
        /// The nodes, in the order in which they were found.
        nodes: FirstNodes,
        /// How many moves reach the further one.
        moves: u32,
    },
    /// A question that was asked at the node meets the shape limit.
    #[error("as many unfinished lists as the shape limit exist")]
    ShapeLimit {
        /// Where it was asked.
        node: Node,
        /// The question, with the formula at which the limit is met and the first shapes.
        limit: MetLimit,
    },
    /// There is no memory for the search.
    #[error("out of memory")]
    NoMemory,
}

impl fmt::Debug for SearchErr {
    fn fmt<W: fmt::Write>(&self, f: &mut fmt::Formatter<W>) -> fmt::Result {
        write!(f, "{self}")
    }
}

impl<T: Drop> From<AllocFailed<T>> for SearchErr {
    ghost from_gives = { λ _ e. e ≡ OutOfMemory };

    fn from(_refused: AllocFailed<T>) -> SearchErr {
        SearchErr::NoMemory
    }
}

impl From<NoMemory> for SearchErr {
    ghost from_gives = { λ _ e. e ≡ OutOfMemory };

    fn from(_refused: NoMemory) -> SearchErr {
        SearchErr::NoMemory
    }
}
