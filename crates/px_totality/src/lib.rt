//! That no case is left out: each search has an end, what it found has a table, and each run ends.
//!
//! These are laws about the definitions of `px_ends` and `px_planex`. A search without an end, or a run without one, would leave a command
//! without a lawful reply; this crate shows that there is none such.
//!
//! # Calling it
//!
//! - `specs/SearchEnds`: a search, with whatever weight, finds moves, is exhausted, or meets the limit of nodes or that of shapes
//!   ([`searches_end`]); so it has a tree ([`trees_exist`]).
//! - `specs/WeightNone`: with weight 0 its ends are exactly those of the search in breadth ([`weight_none_is_exactly_breadth`]): that each
//!   is one of these is a law of `px_ends`, too.
//! - `specs/FoundTables`: the moves that a search found, with whatever weight, have a table ([`found_have_tables`]).
//! - `specs/RunsEnd`: each run of a table ends ([`runs_end`]).
//! - `specs/Finite`: kinds of which a list has all; there are finitely many entries, and so finitely many moves from a node.
//! - The laws are calls that do nothing.
#![tactic(auto)]

mod laws;
#[cfg(test)]
mod tests;

pub use laws::{
    found_have_tables, runs_end, searches_end, trees_exist, weight_none_is_exactly_breadth,
};
