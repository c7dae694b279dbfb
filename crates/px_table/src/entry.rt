//! What stands on the stack of a search, and its order.
ghost use Rattle.std.specs.Prelude.{◌≡◌, IfOk};

use px_base::{NoMemory, Sequence};
use px_terms::OpInst;

/// What stands on the stack of a search: an operator instance, or the first steps of a learned table, a MACROP (Fikes,
/// Hart and Nilsson 1972).
#[derive(PartialEq, Eq, PartialOrd, Ord, Hash, Drop)]
pub enum Entry {
    /// An operator with its arguments.
    Op(OpInst),
    /// The first `prefix` steps of a learned table, taken as one operator.
    Macro {
        /// The table's number in the order of learning, from 0.
        number: u32,
        /// How many of its steps are taken.
        prefix: u32,
        /// The object of each of the table's parameters; 0 for a parameter that the prefix doesn't use.
        sigma: Sequence<u32>,
    },
}

impl Entry {
    /// Returns an equal entry, in memory of the same allocator.
    ///
    /// # Errors
    /// `NoMemory` where there is no memory for the copy.
    pub fn try_copy(&self) -> Result<Entry, NoMemory>
        ensures { IfOk result (λ copy. copy ≡ self.now) }
    {
        match self {
            Entry::Op(inst) => Ok(Entry::Op(*inst)),
            Entry::Macro {
                number,
                prefix,
                sigma,
            } => {
                let sigma = sigma.try_copy()?;
                Ok(Entry::Macro {
                    number: *number,
                    prefix: *prefix,
                    sigma,
                })
            }
        }
    }
}

/// A step of a search.
#[derive(PartialEq, Eq, Drop)]
pub enum Move {
    /// The entry is put on the stack.
    Push(Entry),
    /// The top entry is applied to the model and taken off the stack.
    Apply,
}

impl Move {
    /// Returns an equal move, in memory of the same allocator.
    ///
    /// # Errors
    /// `NoMemory` where there is no memory for the copy.
    pub fn try_copy(&self) -> Result<Move, NoMemory>
        ensures { IfOk result (λ copy. copy ≡ self.now) }
    {
        match self {
            Move::Push(entry) => Ok(Move::Push(entry.try_copy()?)),
            Move::Apply => Ok(Move::Apply),
        }
    }
}
