//! Marks: the facts that the rows of a table rest on.
use px_terms::Atom;

/// A fact that a row of a triangle table rests on, with where it comes from (Fikes, Hart and Nilsson 1972). In what
/// `check_table` accepts, the fields say this:
#[derive(Clone, Copy, PartialEq, Eq, Hash, Debug)]
pub struct Mark {
    pub atom: Atom,
    /// The number of the row, counted from 1.
    pub row: u32,
    /// The step that adds the atom, counted from 1, or 0 where it is there at first.
    pub column: u32,
    /// The atom's place in the add list of that step; 0 in column 0.
    pub index: u32,
}
