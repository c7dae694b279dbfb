//! What is asked of `relevant`.
use px_ops::Model;
use px_table::{Entry, Table};
use px_terms::{Atom, Problem};

/// What `relevant` is asked: which entries may be pushed for the wanted atoms.
#[derive(Clone, Copy)]
pub struct Request<'a> {
    pub problem: &'a Problem,
    /// Atoms that are to be added, as gaps are.
    pub wanted: &'a [Atom],
    /// The entries that aren't to be pushed again.
    pub stack: &'a [Entry],
    pub model: &'a Model,
    /// The tables that are learned.
    pub tables: &'a [Table],
}
