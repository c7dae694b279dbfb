//! The ways in which a walk ends.
use px_proof::Shape;

/// How a walk ends.
#[derive(Drop)]
pub enum End {
    /// At the first finished proof.
    Found,
    /// There is no finished proof.
    NoMore,
    /// At the limit of unfinished proofs; these are their shapes.
    Limit(Vec<Shape>),
}
