//! Tests of `px_table`, `px_match`, `px_general`, `px_planex` and `px_duo`: they stand apart from the crates that they test, since a crate with
//! tests is proved twice. Their contracts say what comes of each call, so that there is memory for it is tried once.
#![tactic(auto)]

#[cfg(test)]
mod executors;
#[cfg(test)]
mod laws;
#[cfg(test)]
mod tables;
