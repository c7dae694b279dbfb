//! Gap lists, and how they are compared.
use px_terms::{Atom, Sequence};

/// Objects for the variables of a formula, and the atoms that a list of gap proofs of it then closes by gaps (Fikes
/// and Nilsson 1971: a difference). Ordered by objects, then by atoms.
#[derive(PartialEq, Eq, PartialOrd, Ord, Drop)]
pub struct GapList {
    /// The objects, one for each variable.
    pub objects: Sequence<u32>,
    /// The atoms, ascending, each once.
    pub gaps: Sequence<Atom>,
}
