//! What the questions about the rows of a table say.
use px_terms::{Sequence, Term};

/// What the questions about one row say.
#[derive(Drop)]
pub struct RowChoices {
    /// Choices of terms for the parameters.
    pub choices: Sequence<Sequence<Term>>,
    /// Terms with an object for each parameter of the row, where it meets the limit.
    pub limited: Sequence<Sequence<Term>>,
}

/// What the questions about all rows of a table say.
#[derive(Drop)]
pub struct TableChoices {
    /// The choices of terms for the parameters, row by row.
    pub choices: Sequence<Sequence<Sequence<Term>>>,
    /// The terms at which a row meets the limit, row by row.
    pub limited: Sequence<Sequence<Sequence<Term>>>,
}
