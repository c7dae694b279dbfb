//! The limits of atoms, operators, axioms and problems, which the definitions in `specs/Limits` say.

/// The most arguments of an atom.
pub const MOST_ARGUMENTS: usize = 6;
/// The most parameters of an operator.
pub const MOST_PARAMETERS: usize = 8;
/// The most axioms of a problem.
pub const MOST_CLAUSES: usize = 64;
/// The most literals of an axiom.
pub const MOST_LITERALS: usize = 6;
/// The most variables of an axiom or of a goal.
pub const MOST_FORMULA_VARIABLES: usize = 12;
/// The greatest height of a proof that a problem may ask for.
pub const MOST_HEIGHT: u32 = 8;
/// The most nodes that a problem may ask for.
pub const MOST_NODES: u32 = 1_000_000;
/// The most shapes that a problem may ask for.
pub const MOST_SHAPES: u32 = 70_000;
/// The greatest weight of a problem.
pub const MOST_WEIGHT: u32 = 1_000;
