//! What stops a search.
ghost use Rattle.std.specs.Prelude.{◌≡◌};
ghost use Rattle.px_search.specs.declared.stop.Stop.TheVariants.{NoMemory as OutOfMemory};

use px_gaps::MetLimit;
use px_numbers::NodeKey;
use px_terms::NoMemory;
use std::alloc::AllocFailed;

/// A question that meets the limit of shapes, and where it is asked.
#[derive(Drop)]
pub struct Limit {
    /// The node where it is asked.
    pub key: NodeKey,
    /// The question, with the formula at which the limit is met and the first shapes.
    pub met: MetLimit,
}

/// What stops a search before all its nodes are expanded. The functions of the search return it as their error, even where the node that
/// was looked for is found: so `?` ends each of them at the first stop.
#[derive(Drop)]
pub enum Stop {
    /// The last of the nodes is solved.
    Solved,
    /// There is no room for the last of the nodes.
    Full {
        /// How many moves reach it.
        moves: u32,
    },
    /// A question met the limit of shapes.
    Limited(Limit),
    /// There is no memory for the search.
    NoMemory,
}

impl<T: Drop> From<AllocFailed<T>> for Stop {
    ghost from_gives = { λ _ stop. stop ≡ OutOfMemory };

    fn from(_refused: AllocFailed<T>) -> Stop {
        Stop::NoMemory
    }
}

impl From<NoMemory> for Stop {
    ghost from_gives = { λ _ stop. stop ≡ OutOfMemory };

    fn from(_refused: NoMemory) -> Stop {
        Stop::NoMemory
    }
}
