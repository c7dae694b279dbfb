//! What the prover returns: answers and errors.
use px_base::{NoMemory, Sequence};
use px_proof::{Proof, Shape};
use std::fmt;
use thiserror::Error;

/// Objects for the variables of a formula, and a proof of each of its atoms.
#[derive(Drop)]
pub struct Answer {
    /// The objects, one for each variable.
    pub objects: Sequence<u32>,
    /// The proofs, one for each atom.
    pub proofs: Sequence<Proof>,
}

/// Why there is no answer.
#[derive(Drop, Error)]
pub enum ProveErr {
    /// No objects make each atom provable, and fewer shapes of unfinished lists exist than the shape limit.
    #[error("no objects make each atom provable")]
    Unprovable,
    /// As many shapes of unfinished lists as the shape limit come first. These are the shapes, in order.
    #[error("as many unfinished lists as the shape limit come first")]
    ShapeLimit(Vec<Shape>),
    /// Memory ran out.
    #[error("out of memory")]
    NoMemory,
}

impl fmt::Debug for ProveErr {
    fn fmt<W: fmt::Write>(&self, f: &mut fmt::Formatter<W>) -> fmt::Result {
        match self {
            ProveErr::Unprovable => f.write_str("Unprovable"),
            ProveErr::ShapeLimit(_) => f.write_str("ShapeLimit"),
            ProveErr::NoMemory => f.write_str("NoMemory"),
        }
    }
}

/// Why there are no gap lists.
#[derive(Drop, Error)]
pub enum GapErr {
    /// As many shapes of unfinished lists as the problem allows exist. These are the first of them, in order.
    #[error("as many unfinished lists as the problem allows exist")]
    ShapeLimit(Vec<Shape>),
    /// Memory ran out.
    #[error("out of memory")]
    NoMemory,
}

impl fmt::Debug for GapErr {
    fn fmt<W: fmt::Write>(&self, f: &mut fmt::Formatter<W>) -> fmt::Result {
        match self {
            GapErr::ShapeLimit(_) => f.write_str("ShapeLimit"),
            GapErr::NoMemory => f.write_str("NoMemory"),
        }
    }
}
