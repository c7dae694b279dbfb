//! What a question to the prover is, and what answers it.
//!
//! The definitions are over lists and trees alone. A formula is a list of atoms over variables that stand for one object
//! each in the whole list.
//!
//! # Calling it
//!
//! - `specs/Settings` says what is read of a problem and a model (`setting_of`), and by which rules finished proofs and
//!   loose gap proofs are made: steps choose objects of the problem, and a leaf names the place of its fact.
//! - `specs/Answers`: `IsList` is one proof for each atom of the formula, under objects for its variables and within
//!   the height; `IsAnswer` and `IsProvable` say that there is one; `IsFirst` is the one of the least shape, and among those the one
//!   of the least objects.
//! - `specs/Limits`: the shapes of unfinished lists; `IsLimited` and `IsGapLimited` say of a list of shapes that it is the
//!   first of them, as many as the limit. `AreFewShapes`, `AreFewBefore` and `AreFewGapShapes` say that there are fewer,
//!   and `StaysBelowLimit` that there are before the first answer, or at all.
//! - `specs/Gaps`: `IsGapOf` is an atom that a list of gap proofs lacks where the formula has no answer, `AreGapLists`
//!   all gap lists of loose gap proofs, `MeetsGapLimit` where finding gaps meets the limit and `StaysBelowGapLimit` where
//!   it stays below (after the differences of Fikes and Nilsson 1971).
//! - [`GapList`] is one of these lists; it is compared by objects, then by atoms ([`gap_lists_are_ordered`]).
//!
//! The other calls are laws about the definitions and do nothing.
//!
//! - [`first_is_one`], [`limits_are_one`] and [`gap_lists_are_one`] say that a formula determines what answers it: the
//!   objects and proofs of its first answer, the shapes at its limits, its gap lists.
//! - [`few_or_limited`] says that fewer shapes and the limit exclude each other, and that where the shapes of loose gap
//!   proofs are fewer than the limit, those of proofs are, too. [`questions_are_decided`] says that one of both holds, since
//!   shapes are finite: so what meets no limit stays below it.
//! - [`first_is_of_each`] says that the first answer of atoms without variables is the first proof of each of them
//!   (`specs/FirstOfEach`).
//! - [`answers_make_rows`] says that the proofs of an answer are proofs for a row of a support (`specs/Rows`): over the
//!   problem's objects, from the atoms of their leaves, which are the problem's; and that they stay so when their leaves,
//!   which name places in the model, are replaced by others with the same atoms (`graft` in `px_proof`).
//! - [`fewer_facts_have_no_more`] says of a question whose facts are among those of another (`with_facts` in
//!   `specs/FewerFacts`) that its lists of proofs are the other's once their leaves name the places there, and, where
//!   its facts are a set, that it has fewer shapes than the limit if the other has.
//! - `specs/ShapeOrder` and `specs/FewerShapes` have what proofs above use: the order of shapes is strict and total, and
//!   different shapes that are all in a list are no more than it has.
//!
//! A call that asks the prover has a valid problem, atoms of the problem over its variables, and an object where there is
//! a variable (`IsValid` and `IsAtomOf` in `px_terms`).
#![tactic(auto)]

mod gap_list;
mod laws;
#[cfg(test)]
mod tests;

pub use gap_list::GapList;
pub use laws::{
    answers_make_rows, few_or_limited, fewer_facts_have_no_more, first_is_of_each, first_is_one,
    gap_lists_are_one, gap_lists_are_ordered, limits_are_one, questions_are_decided,
};
