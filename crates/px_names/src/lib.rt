//! Names of objects, predicates, operators and results, numbered within each kind.
//!
//! # Calling it
//!
//! - [`Names::new`] has no names. [`Names::declare`] adds one and answers its number, which is how many names its kind
//!   had. [`Names::find`] gives the number of a name, [`Names::text`] the name of a number, [`Names::count`] how many
//!   names a kind has. Names of different kinds may be equal; those of one kind are not, and they are compared byte by
//!   byte.
//! - Contracts see a `Names` as four lists of texts, `NameLists` of `specs/Lists.antt`: `names_of kind names` is the
//!   list of a kind, and a name's number is its place there. `AreNames kind (names_of kind names)`, which `find`, `text`
//!   and `count` hand out, says that the texts are names in UTF-8, that no two are equal, and that there are at most
//!   [`Kind::limit`]. So `find` and `text` are each other's inverse; `specs/NameLaws.antt` has that as a law.
//! - For callers whose definitions compute, `has_name` and `refusal` of `specs/Lists.antt` are tests, and `NameLaws` has
//!   that they decide membership and that a name is welcome.
//! - What a name is stands in `specs/Name.antt`: an underscore or a character that may start an identifier, then
//!   characters that may continue one, both by Unicode's classes. [`is_name`] tests a text, [`starts_name`] a character,
//!   and [`split_first`] takes the first character off a text.
//! - After a refusal the names are as they were.
#![tactic(auto)]

mod kind;
mod limits;
mod list;
mod name;
mod names;
#[cfg(test)]
mod tests;

pub use kind::{Kind, NameErr};
pub use name::{is_name, split_first, starts_name};
pub use names::Names;
pub use px_base::NoMemory;
