//! Why a line is refused.
ghost use Rattle.std.specs.Prelude.{◌≡◌};
ghost use Rattle.px_causes.specs.Common.{limit_number, refusal_of};

use px_script::{Limit, NUMBER_OF_NUMBERS};

/// A limit that a line passes.
#[derive(Clone, Copy)]
pub enum PassedLimit {
    /// There are more than there may be.
    Most(Limit),
    /// A number that the line gives is outside its bounds.
    Bounds,
}

/// What is wrong with a line.
#[derive(Clone, Copy)]
pub enum LineFault {
    /// A byte belongs to no character.
    NotText,
    /// A character begins no token, or the rest of the line doesn't have the form of its word.
    BadToken,
    /// The line begins with no word of the script's version.
    UnknownWord,
    /// A name isn't declared in its kind.
    UnknownName,
    /// A name is declared already or twice, or what may stand once stands a second time.
    Duplicate,
    /// An atom has another number of arguments than its predicate.
    Arity,
    /// An argument stands where it may not.
    Unbound,
    /// A limit is passed.
    Limit(PassedLimit),
    /// The line stands where it may not.
    Order,
    /// The input ends inside a block.
    MissingEnd,
    /// The line's word isn't built.
    NotBuilt,
    /// The block of a table is closed whose parts make no table of the problem.
    BadTable,
}

impl PassedLimit {
    fn number(self) -> u8
        ensures { result ≡ limit_number self }
    {
        match self {
            PassedLimit::Most(limit) => limit.number(),
            PassedLimit::Bounds => NUMBER_OF_NUMBERS,
        }
    }
}

impl LineFault {
    /// Returns its code, and the number of the limit that is passed, or 0.
    pub fn numbers(self) -> (u8, u8)
        ensures code { result.0 ≡ (refusal_of self).code }
        ensures limit { result.1 ≡ (refusal_of self).limit }
    {
        match self {
            LineFault::NotText => (1, 0),
            LineFault::BadToken => (2, 0),
            LineFault::UnknownWord => (3, 0),
            LineFault::UnknownName => (4, 0),
            LineFault::Duplicate => (5, 0),
            LineFault::Arity => (6, 0),
            LineFault::Unbound => (7, 0),
            LineFault::Limit(limit) => (8, limit.number()),
            LineFault::Order => (9, 0),
            LineFault::MissingEnd => (10, 0),
            LineFault::NotBuilt => (11, 0),
            LineFault::BadTable => (12, 0),
        }
    }
}
