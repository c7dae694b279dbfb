//! Why a plan isn't generalised.
use thiserror::Error;

/// Why a plan isn't generalised.
#[derive(Clone, Copy, PartialEq, Eq, Debug, Error)]
pub enum GeneralErr {
    /// It has more than 64 steps.
    #[error("more than 64 steps")]
    TooLong,
    /// A proof of it is higher than 56.
    #[error("a proof is higher than 56")]
    TooDeep,
    /// It takes more than 1,000,000 fresh variables.
    #[error("more than 1,000,000 fresh variables")]
    TooWide,
    /// Out of memory.
    #[error("out of memory")]
    NoMemory,
}
