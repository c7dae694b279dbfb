//! Why no matcher is made.
ghost use Rattle.std.specs.Prelude.{◌≡◌};
ghost use Rattle.px_match.specs.declared.match_err.MatchErr.TheVariants.{NoMemory as out_of_memory};

use px_base::NoMemory;
use std::alloc::AllocError;
use thiserror::Error;

/// Why no matcher is made.
#[derive(Clone, Copy, PartialEq, Eq, Debug, Error)]
pub enum MatchErr {
    /// The table has no parameter of this number.
    #[error("the table has no parameter {0}")]
    BadParam(u32),
    /// There was no memory for the matcher.
    #[error("out of memory")]
    NoMemory,
}

impl From<NoMemory> for MatchErr {
    ghost from_gives = { λ _ error. error ≡ out_of_memory };

    fn from(_error: NoMemory) -> MatchErr {
        MatchErr::NoMemory
    }
}

impl From<AllocError> for MatchErr {
    ghost from_gives = { λ _ error. error ≡ out_of_memory };

    fn from(_error: AllocError) -> MatchErr {
        MatchErr::NoMemory
    }
}
