//! Why a table isn't edited.
use thiserror::Error;

/// Why a table isn't edited.
#[derive(Clone, Copy, PartialEq, Eq, Debug, Error)]
pub enum EditErr {
    /// The prefix has no step, or more than there are.
    #[error("no such prefix")]
    BadPrefix,
    /// The pair at this place, counted from 0, names no add of the prefix, or stands before.
    #[error("pair {0} names no add of the prefix, or stands twice")]
    BadWant(u32),
    /// More than 64 steps are kept.
    #[error("more than 64 steps")]
    TooLong,
    /// A proof in a kept row is higher than 56.
    #[error("a proof is higher than 56")]
    TooDeep,
    /// Out of memory.
    #[error("out of memory")]
    NoMemory,
}
