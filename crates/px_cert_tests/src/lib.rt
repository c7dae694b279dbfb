//! Tests of `px_cert`: they stand apart from it, since a crate with tests is proved twice.
#![tactic(auto)]

#[cfg(test)]
mod cut;
#[cfg(test)]
mod first_bad;
#[cfg(test)]
mod greatest;
#[cfg(test)]
mod hostile;
#[cfg(test)]
mod written;
