//! The first steps of a learned table.
use crate::request::Request;
use px_table::Table;
use px_terms::Term;
use std::alloc::Global;

/// The first steps of a learned table, of which a request wants MACROPs.
#[derive(Clone, Copy)]
pub struct Prefix<'a> {
    /// Where memory is taken from.
    pub alloc: Global,
    pub request: Request<'a>,
    /// The table's number, from 0.
    pub number: u32,
    pub table: &'a Table,
    /// How many of its steps there are.
    pub count: u32,
    /// A term for each parameter of the table: itself where these steps use it, else object 0.
    pub start: &'a [Term],
    /// Whether these steps delete none of their marks, whatever objects the parameters have.
    pub keeps_marks: bool,
    /// Whether the facts suffice to decide which of its MACROPs are open, so that no question is asked about their rows.
    pub facts_suffice: bool,
}
