//! Tests of `px_gaps`, `px_entries` and `px_diff`: they stand apart from the crates that they test, since a crate with tests is proved
//! twice. Their contracts say what comes of each call, so that there is memory for it is tried once; and how many questions are asked, and
//! which formulas are known to have few shapes, which no clause says.
#![tactic(auto)]

#[cfg(test)]
mod calls;
#[cfg(test)]
mod questions;
