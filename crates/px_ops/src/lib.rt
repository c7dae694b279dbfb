//! World models, and what operator instances do to them.
//!
//! # Calling it
//!
//! - [`Model`] is a set of ground atoms. Contracts see `atoms`, the ascending list of its atoms, each once, and
//!   `spare`, the number of places that are there for further ones. Two models are equal, and are hashed alike,
//!   where their atoms are the same; `spare` doesn't count. `atoms()` also hands out what is true of each model
//!   (`IsModel`: ascending, all ground, at most 4,294,967,295 of them).
//! - `insert` and `reserve` may find no memory; the model is then exactly as it was. `reserve(n)` makes room for `n`
//!   atoms, and `insert_spare` and [`apply_in`] use such room and can't fail.
//! - [`deletes`], [`pre`] and [`adds`] ask of the schema that its variables are its parameters and that the wild
//!   card stands only in its delete list (`IsSchemaWellFormed`), and of the instance that it has an argument for each
//!   parameter. Each schema of a valid problem is like this (`ValidityLaws.instance_schema` of `px_terms`).
//! - [`apply_op`] and [`apply_in`] ask for a valid problem and a ground instance of one of its operators, over any
//!   objects. First all that the instance deletes goes, then what it adds comes. A wild card in a delete list stands
//!   for any object, also one that the problem does not have. The result has at most as many atoms as the model and the add list have
//!   together (`length`).
//! - [`schema_of`] is the operator of an instance, [`precondition_of`] the list of all that it needs, [`is_addable`] says
//!   whether some operator may add an atom, and [`is_added`] whether one adds a predicate.
//! - [`AtomIndex`] numbers ground atoms from 0 in the order of their first use. Contracts see it as the list of its atoms,
//!   each once. `intern` may find no memory for a new atom; the index is then as it was. [`keep`] does the same for
//!   any set of `indexmap`.
//! - Laws for callers are in `specs/ModelLaws` (the members of `without_atom`, what equality says, how many atoms a
//!   set has) and `specs/KeepLaws` (what is kept still has its number).
#![tactic(auto)]

mod apply;
mod atom_index;
mod keeping;
mod model;
mod operators;
mod problems;
#[cfg(test)]
mod tests;

pub use apply::{apply_in, apply_op};
pub use atom_index::AtomIndex;
pub use keeping::keep;
pub use model::Model;
pub use operators::{adds, deletes, pre};
pub use problems::{is_addable, is_added, precondition_of, schema_of};
pub use px_terms::NoMemory;
