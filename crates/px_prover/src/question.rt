//! What is asked of the prover.
use px_terms::{Atom, Problem};

/// What is asked: a formula over `variable_count` variables, of a problem and the facts of a model.
#[derive(Clone, Copy)]
pub(crate) struct ProofQuestion<'a> {
    pub problem: &'a Problem,
    pub formula: &'a [Atom],
    pub variable_count: u32,
    pub facts: &'a [Atom],
    /// Whether an atom whose predicate some operator adds may be closed by a gap.
    pub loose: bool,
}
