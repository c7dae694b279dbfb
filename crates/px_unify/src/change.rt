//! What is done to variables and their bindings, and why a change isn't made.
use px_terms::Term;
use thiserror::Error;

/// The greatest number of variables at a time.
pub const MOST_VARIABLES: u32 = 1_000_000;

/// What is done to variables and their bindings.
#[derive(Clone, Copy, PartialEq, Eq, Debug)]
pub enum Change {
    /// One more variable, which is not bound.
    Fresh,
    /// The variable of this number is bound to the term.
    Bound(u32, Term),
}

/// No substitution that fits the bindings makes the two atoms equal.
#[derive(Clone, Copy, PartialEq, Eq, Debug, Error)]
#[error("no substitution makes the atoms equal")]
pub struct Clash;

/// Why no variable is added.
#[derive(Debug, Drop, Error)]
pub enum BindErr {
    /// There would be more than a million variables.
    #[error("there would be more than 1,000,000 variables")]
    Full,
    /// There is no memory for the variables and a binding of each.
    #[error("out of memory")]
    NoMemory,
}
