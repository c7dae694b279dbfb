//! How many tables are learned, and how long they are, as the definitions in `specs/Limits` say.

/// The most learned tables.
pub const MOST_TABLES: usize = 32;
/// The most steps of a plan that is generalised, and so of a learned table.
pub const MOST_STEPS: usize = 64;
