//! How many names of each kind there may be, in a script of any version: each number stands here, and the definitions cite it.

/// Names of objects.
pub(crate) const OBJECTS: u32 = 1024;

/// Names of predicates.
pub(crate) const PREDICATES: u32 = 64;

/// Names of operators.
pub(crate) const OPERATORS: u32 = 32;

/// Names of results: those of 1,024 commands and of 32 tables that stand in a script.
pub(crate) const RESULTS: u32 = 1024 + 32;
