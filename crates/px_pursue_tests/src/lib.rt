//! Tests of `px_pursue` and of `px_turns`, which it calls: they stand apart from the crates that they test, since a crate with tests is
//! proved twice.
#![tactic(auto)]

#[cfg(test)]
mod buildings;
#[cfg(test)]
mod paths;
#[cfg(test)]
mod told;
