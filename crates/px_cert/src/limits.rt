//! The greatest numbers that stand in a certificate, which the definitions in `specs/Limits` say.

/// The most objects.
pub const MOST_OBJECTS: u32 = 1024;
/// The most predicates.
pub const MOST_PREDICATES: u32 = 64;
/// The most operators.
pub const MOST_OPERATORS: u32 = 32;
/// The greatest sort.
pub const GREATEST_SORT: u32 = 32;
/// The most atoms of a list of an operator and of a goal, and the most proofs of a row.
pub const MOST_ATOMS: u32 = 16;
/// The most parameters of a table.
pub const MOST_TABLE_PARAMETERS: u32 = 9999;
/// The greatest column, index, ancestor and place of a proof.
pub const MOST_PLACES: u32 = 9999;
/// How many variables a step, a goal and a proof may name: the parameters of a table, and those of a goal.
pub const TABLE_VARIABLES: u32 = 10011;
/// The most steps.
pub const MOST_WRITTEN_STEPS: u32 = 64;
/// The greatest height of a proof.
pub const GREATEST_WRITTEN_HEIGHT: u32 = 56;
