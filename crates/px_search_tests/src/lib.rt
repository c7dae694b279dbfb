//! Tests of `px_search` and of `px_support`, which it calls: they stand apart from the crates that they test, since a crate with tests is
//! proved twice.
#![tactic(auto)]

#[cfg(test)]
mod samples;
#[cfg(test)]
mod tests;
#[cfg(test)]
mod trees;
