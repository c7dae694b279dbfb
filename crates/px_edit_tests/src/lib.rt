//! Tests of `px_edit`: they stand apart from the crate that they test, since a crate with tests is proved twice.
#![tactic(auto)]

#[cfg(test)]
mod rooms;
