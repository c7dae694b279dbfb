//! Why something isn't read.
ghost use Rattle.std.specs.Prelude.{◌≡◌};
ghost use Rattle.px_cert.specs.declared.refused.Refused.TheVariants.{NoMemory as OutOfMemory};

use px_base::NoMemory;
use std::alloc::AllocError;

/// Why what a line should have isn't read.
#[derive(Clone, Copy, PartialEq, Eq, Debug)]
pub enum Refused {
    /// The line doesn't have its form.
    Bad,
    /// Out of memory.
    NoMemory,
}

impl From<NoMemory> for Refused {
    ghost from_gives = { λ _ e. e ≡ OutOfMemory };

    fn from(_refused: NoMemory) -> Refused {
        Refused::NoMemory
    }
}

impl From<AllocError> for Refused {
    ghost from_gives = { λ _ e. e ≡ OutOfMemory };

    fn from(_refused: AllocError) -> Refused {
        Refused::NoMemory
    }
}
