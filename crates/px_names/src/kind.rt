//! The kinds of names, and why a name is refused.
ghost use Rattle.std.specs.Prelude.{◌≡◌};
ghost use Rattle.px_names.specs.declared.kind.NameErr.TheVariants.{NoMemory};
ghost use Rattle.px_names.specs.Lists.{limit_of};

use crate::limits::{OBJECTS, OPERATORS, PREDICATES, RESULTS};
use std::alloc::AllocError;
use thiserror::Error;

/// What is named. Names of different kinds may be equal.
#[derive(Clone, Copy, Debug, PartialEq, Eq)]
pub enum Kind {
    /// An object of the problem.
    Object,
    /// A predicate of atoms.
    Predicate,
    /// An operator schema.
    Operator,
    /// The result of a `plan` or a `learn` command. Its name is declared also where no plan is found or no table is learned.
    Result,
}

impl Kind {
    /// Returns how many names of the kind there may be, in a script of any version. A version may allow fewer.
    pub fn limit(self) -> u32
        ensures { result ≡ limit_of self }
    {
        match self {
            Kind::Object => OBJECTS,
            Kind::Predicate => PREDICATES,
            Kind::Operator => OPERATORS,
            Kind::Result => RESULTS,
        }
    }
}

/// Why a name isn't declared. The first cause in this order is answered.
#[derive(Clone, Copy, Debug, PartialEq, Eq, Error)]
pub enum NameErr {
    /// The text isn't a name.
    #[error("this is no name")]
    BadName,
    /// The kind has the name.
    #[error("the name is declared already")]
    Duplicate,
    /// The kind has as many names as it may have.
    #[error("too many names of this kind")]
    Full,
    /// There is no memory for the name, which has none of the causes above.
    #[error("out of memory")]
    NoMemory,
}

impl From<AllocError> for NameErr {
    ghost from_gives = { λ _ error. error ≡ NoMemory };

    fn from(_refused: AllocError) -> Self {
        NameErr::NoMemory
    }
}
