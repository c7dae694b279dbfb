//! Why a question about differences isn't answered.
ghost use Rattle.std.specs.Prelude.{◌≡◌};
ghost use Rattle.px_gaps.specs.declared.ask_err.AskErr.TheVariants.{NoMemory};

use px_proof::Shape;
use px_terms::{Atom, NoMemory, Sequence};
use std::fmt;
use thiserror::Error;

/// Why a question isn't answered.
#[derive(Drop, Error)]
pub enum AskErr {
    /// The shape limit is met at this formula, by these shapes: as many as the limit, the first ones, in order.
    #[error("as many unfinished lists as the shape limit exist")]
    ShapeLimit {
        formula: Sequence<Atom>,
        shapes: Sequence<Shape>,
    },
    /// There is no memory.
    #[error("out of memory")]
    NoMemory,
}

impl fmt::Debug for AskErr {
    fn fmt<W: fmt::Write>(&self, f: &mut fmt::Formatter<W>) -> fmt::Result {
        match self {
            AskErr::ShapeLimit {
                formula: _,
                shapes: _,
            } => f.write_str("ShapeLimit"),
            AskErr::NoMemory => f.write_str("NoMemory"),
        }
    }
}

impl From<NoMemory> for AskErr {
    ghost from_gives = { λ _ error. error ≡ NoMemory };

    fn from(_refused: NoMemory) -> AskErr {
        AskErr::NoMemory
    }
}
