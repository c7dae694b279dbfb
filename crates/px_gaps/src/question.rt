//! What is asked of the prover, and a question that meets the shape limit.

use px_proof::Shape;
use px_terms::{Atom, Sequence};

/// A formula with its number of variables, and the facts from which it is to be proved.
#[derive(Drop)]
pub struct Obligation {
    /// The formula.
    pub formula: Sequence<Atom>,
    /// How many variables it has.
    pub variable_count: u32,
    /// From which it is to be proved.
    pub facts: Sequence<Atom>,
}

/// A question about what is needed.
#[derive(Drop)]
pub enum Question {
    /// Whether it has an answer, and which is the first.
    Proving(Obligation),
    /// Which its gaps are.
    FindingGaps(Obligation),
}

/// A question that meets the shape limit.
#[derive(Drop)]
pub struct MetLimit {
    /// What is asked.
    pub question: Question,
    /// The formula at which the limit is met: the question's own, or the one atom that a gap would close.
    pub formula: Sequence<Atom>,
    /// As many shapes of unfinished lists of proofs as the limit, the first ones, in order.
    pub shapes: Sequence<Shape>,
}
