//! A pattern, which stands for many gap lists.
use px_base::Sequence;
use px_terms::{Atom, Term};

/// Loose gap proofs of a formula, over variables that stand for any objects of the problem: what they choose for the
/// formula's variables, where that is asked for, and the atoms that gaps close (Fikes and Nilsson 1971: a difference, with its variables).
#[derive(PartialEq, Eq, PartialOrd, Ord, Drop)]
pub struct GapPattern {
    /// How many variables it has. They are numbered from 0.
    pub variable_count: u32,
    /// An object or one of the variables for each variable of the formula, or none where they aren't asked for.
    pub terms: Sequence<Term>,
    /// The atoms, over the variables.
    pub atoms: Sequence<Atom>,
}
