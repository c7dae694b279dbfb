//! Tests of `px_prover`: they stand apart from the crate that they test, since a crate with tests is proved twice. Its contracts say what
//! comes of each call, so that there is memory for it is tried once; and how few patterns there are, which no clause says.
#![tactic(auto)]

#[cfg(test)]
mod tests;
