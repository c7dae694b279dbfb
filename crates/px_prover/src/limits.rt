//! The limits of what the prover is asked, which the definitions in `specs/Limits` say.

/// The most variables of a formula whose gaps are asked for.
pub const MOST_GAP_VARIABLES: u32 = 4096;
