//! Why it isn't known which moves are allowed.
ghost use Rattle.std.specs.Prelude.{◌≡◌};
ghost use Rattle.px_diff.specs.declared.move_err.MoveErr.TheVariants.{NoMemory};

use px_gaps::MetLimit;
use px_terms::NoMemory;
use std::fmt;
use thiserror::Error;

/// Why it isn't known which moves are allowed.
#[derive(Drop, Error)]
pub enum MoveErr {
    /// A question about them meets the shape limit.
    #[error("as many unfinished lists as the shape limit exist")]
    ShapeLimit(MetLimit),
    /// There is no memory.
    #[error("out of memory")]
    NoMemory,
}

impl fmt::Debug for MoveErr {
    fn fmt<W: fmt::Write>(&self, f: &mut fmt::Formatter<W>) -> fmt::Result {
        write!(f, "{self}")
    }
}

impl From<NoMemory> for MoveErr {
    ghost from_gives = { λ _ error. error ≡ NoMemory };

    fn from(_refused: NoMemory) -> MoveErr {
        MoveErr::NoMemory
    }
}
