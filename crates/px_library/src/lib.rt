//! Learned tables by their names.
//!
//! # Calling it
//!
//! - A [`Library`] keeps tables by the numbers of their names, each name once, in the order in which they were learned.
//!   Contracts see it as two lists, the names and the tables (`LibraryValue` in `specs/Libraries`). `learn` puts a table
//!   last; `find` gives the table of a name (`table_named`), `tables` all of them, and `names` their names.
//! - It has at most 32 tables. `learn` answers `Duplicate` exactly where the name has a table, and `Full` exactly where there
//!   are 32 and the name has none. After a refusal the library is as it was, and the table is dropped.
//! - `find`, `names` and `tables` do not allocate.
#![tactic(auto)]

mod library;
#[cfg(test)]
mod tests;

pub use library::{LibErr, Library};
