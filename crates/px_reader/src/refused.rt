//! Why an input isn't a script.

use thiserror::Error;

/// The first fault of an input: its line from 1, its code, and the number of the limit that is passed, or 0.
#[derive(Clone, Copy, Debug, PartialEq, Eq)]
pub struct Refused {
    /// The line, from 1.
    pub line: u32,
    /// The code of the fault.
    pub code: u8,
    /// The number of the limit that is passed, or 0.
    pub limit: u8,
}

/// Why no script is read.
#[derive(Debug, Drop, Error)]
pub enum ScriptErr {
    /// The input isn't a script.
    #[error("no script")]
    Refused(Refused),
    /// There is no memory for it.
    #[error("out of memory")]
    NoMemory,
}
