//! Proof terms of linear resolution with ancestors: what they prove, and the tests that they do.
//!
//! A literal is closed by a fact, by the complement of one of the literals above it, or by an instance of an axiom
//! in which it stands; then the complement of each other literal of the instance is proved in turn, under the literal.
//! An unfinished proof has open places, and a gap closes an atom that some operator could add (Fikes and Nilsson 1971).
//!
//! # Calling it
//!
//! - [`Proof`] is a proof term, [`Leaf`] a fact that it rests on. Its lists are `Sequence`s: make one of a `Vec` by
//!   `Sequence::from_vec`. [`Tick`] is a choice at one place, [`Shape`] the choices of a proof in preorder, made of a
//!   `Vec` and given back as one, and neither allocates. `try_copy` returns an equal value.
//! - [`check`] says whether a term is a proof from facts, without variables and gaps. Where it says yes, the literal
//!   is true in each finite interpretation in which the axioms and the facts are, also where two objects are one
//!   element of it. [`is_tree`] says the same of a term over objects and parameters, from the atoms of the term's own leaves.
//!   Where they say yes, only objects stand in the term, or only those objects and parameters. Both answer for any
//!   term: a number that is out of range gives false. They do not allocate.
//! - [`higher_than`], [`leaves`], [`same_shape`] read a term. [`substitute`] replaces its variables: of what [`is_tree`]
//!   accepts it makes what [`is_tree`] accepts, and with objects for them what [`check`] accepts.
//! - [`graft`] puts proofs in the places of a term's leaves in column 0, one each from left to right, and raises the
//!   columns of its other leaves: of trees it makes a tree. Where all leaves are in column 0 and the parts are facts, it
//!   gives the leaves other columns and indices.
//! - [`Path`] holds the literals above a place, and [`literal_at`] reads it: for walks down a term, like those of the tests.
//! - [`complement`], [`apply_literal`], [`same_literal`] do for a literal what `px_terms` does for an atom, and
//!   [`substitute_terms`] for a list of terms. [`part_at`] gives what a part of a step has to prove.
//! - Each of these calls itself once for each level of the term. A chain of 1,000 steps is tested.
//! - What takes memory takes an allocator first, and answers `NoMemory` where there is no memory. `try_copy` takes it from
//!   the allocator of what it copies.
//!
//! Contracts see a term as a `Derivation` (`specs/Derivation`), by `derivation_of`. `specs/Proves` says what a
//! derivation proves by given `Rules`: one definition for finished and unfinished proofs, with gaps or without, over
//! objects or over parameters too. `specs/Soundness` has its soundness, and `specs/Shapes` the order of shapes.
//! Laws for callers, of any rules: `specs/ProvesLaws`, `specs/SubstitutionLaws` and `specs/GraftLaws` say how derivations
//! stay derivations under other rules and longer paths, under other terms, and with other proofs in the places of their
//! leaves, and what the leaves are then; `specs/LeafRange` says that the leaves have what the literal and the axioms'
//! instances have; `specs/LayerLaws` has the derivation of each form of a term. [`derivations_tell_proofs`],
//! [`paths_may_be_longer`], [`leaves_are_of_problem`], [`shapes_stay`] and [`substitutions_compose`] are laws as calls,
//! which do nothing. No public clause cites `specs/Basis`, `specs/LeafRange`, `specs/Soundness` and the files of laws.
#![tactic(auto)]

mod basis;
mod checker;
mod grafting;
mod laws;
mod literal;
mod path;
mod proof;
mod shape;
mod substitution;
#[cfg(test)]
mod tests;
mod traversal;

pub use checker::{check, is_tree, part_at};
pub use grafting::graft;
pub use laws::{
    derivations_tell_proofs, leaves_are_of_problem, paths_may_be_longer, shapes_stay,
    substitutions_compose,
};
pub use literal::{apply_literal, complement, same_literal};
pub use path::{Path, literal_at};
pub use proof::{Leaf, Proof};
pub use shape::{Shape, Tick};
pub use substitution::{substitute, substitute_terms};
pub use traversal::{higher_than, leaves, same_shape};
