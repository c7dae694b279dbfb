//! How variables are spelled.

/// How the variables of a table are spelled. The first of them, as many as the number says, are the table's parameters, and those after
/// them are its goal's own variables.
#[derive(Clone, Copy, PartialEq, Eq, Debug)]
pub enum Spelling {
    /// As in the rows of a shown table: `p1` and on, then `?1` and on.
    InRows(u32),
    /// As in the block of a saved table: `?p1` and on, then `?g1` and on.
    InBlock(u32),
}
