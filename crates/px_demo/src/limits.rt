//! Which demos there are.

/// The fewest rooms of a demo.
pub const LEAST_ROOMS: u32 = 3;

/// The most rooms of a demo.
pub const MOST_ROOMS: u32 = 12;

/// The greatest seed of a demo.
pub const MOST_SEED: u32 = 2_147_483_647;
