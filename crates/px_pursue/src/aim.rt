//! What a pursuit aims at.
use px_table::Table;
use px_terms::{Atom, Problem};
use std::alloc::Global;

/// What each search of a pursuit is to reach, by the problem's operators and the learned tables.
#[derive(Clone, Copy)]
pub(crate) struct Aim<'a> {
    pub(crate) alloc: Global,
    pub(crate) problem: &'a Problem,
    pub(crate) goal: &'a [Atom],
    pub(crate) variable_count: u32,
    pub(crate) tables: &'a [Table],
}
