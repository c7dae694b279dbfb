//! What a search is asked.

use px_ops::Model;
use px_table::Table;
use px_terms::{Atom, Problem};
use std::alloc::Global;

/// What is to be done: reaching the goal from the initial model, by the problem's operators and the learned tables.
#[derive(Clone, Copy)]
pub struct Asked<'a> {
    pub alloc: Global,
    pub problem: &'a Problem,
    /// How many nodes may be kept.
    pub nodes: u32,
    pub tables: &'a [Table],
    pub initial: &'a Model,
    pub goal: &'a [Atom],
    pub variable_count: u32,
}
