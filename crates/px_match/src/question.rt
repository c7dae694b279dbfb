//! What is looked for.
use crate::hints::Hints;
use px_ops::Model;
use px_table::Table;
use px_terms::Problem;

/// What is looked for: objects for the parameters of the table, such that kernel `number` holds in the model.
#[derive(Drop)]
pub struct KernelQuestion<'a> {
    pub problem: &'a Problem,
    pub table: &'a Table,
    pub bound: &'a [(u32, u32)],
    pub model: &'a Model,
    /// For each mark the atoms of the model that it may become.
    pub lists: &'a [Model],
    /// For each place what to look at.
    pub hints: &'a [Hints],
    /// Objects with which the kernels from `proper_from` on are proper.
    pub known: &'a [u32],
    pub proper_from: u32,
    pub number: u32,
    /// How many objects the problem has.
    pub objects: u32,
}
