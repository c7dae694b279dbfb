//! Tests of `px_printer`, `px_reader`, `px_session` and `px_run`: they stand apart from the crates that they test, since a crate with
//! tests is proved twice. All go through [`px_run::planex_main`], with a source and a sink in memory.
#![tactic(auto)]

#[cfg(test)]
mod answer_tests;
#[cfg(test)]
mod check_tests;
#[cfg(test)]
mod executor_tests;
#[cfg(test)]
mod failing_tests;
#[cfg(test)]
mod pursuit_tests;
#[cfg(test)]
mod reading_tests;
#[cfg(test)]
mod runs;
#[cfg(test)]
mod samples;
#[cfg(test)]
mod table_tests;
#[cfg(test)]
mod tree_tests;
