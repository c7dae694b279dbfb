//! What is known of a formula, and of an entry, in a world model.

use crate::question::MetLimit;
use px_terms::{Atom, Sequence};

/// Whether a formula has an answer.
#[derive(Drop)]
pub enum Tried {
    /// Some objects for its variables make each of its atoms provable.
    Answered,
    /// No objects do.
    Unanswered,
    /// Proving it meets the shape limit.
    Limited(MetLimit),
}

/// What is known of what an entry needs, or the goal, in a world model. What is needed is a list of formulas, each to be
/// proved from facts of its own.
#[derive(Drop)]
pub enum Known {
    /// Each has an answer: the entry can be applied.
    Applicable,
    /// Some have no answer, and each of these has a gap. These are their gaps, ascending, each once (the difference of Fikes
    /// and Nilsson 1971).
    Open(Sequence<Atom>),
    /// One has neither an answer nor a gap.
    Closed,
    /// A question about one meets the shape limit: proving it, or, where it has no answer, finding its gaps.
    Limited(MetLimit),
}
