//! What entries of a search's stack lack in a world model: how many of the atoms that they need have no instance among its facts.
//!
//! # Calling it
//!
//! - [`fits`] tests whether some objects for the variables of a pattern, one for each, make it an atom (`fits` of `px_ends`).
//! - [`lacks_of`] counts the atoms of a formula of which no instance is among the facts, each by itself. Nothing is proved.
//! - [`lacks`] sums these over all that an entry needs (`lacks` of `px_ends`): the precondition of an operator, or the rows of a MACROP's
//!   steps, each counted in what the steps before leave of the model. `NoMemory` is its only error.
#![tactic(auto)]

mod fitting;
mod lacking;

pub use fitting::fits;
pub use lacking::{lacks, lacks_of};
