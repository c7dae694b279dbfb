//! Entries of a search's stack: what an operator's instance or a MACROP needs, what is known of it in a world model, and which of
//! them add a wanted atom.
//!
//! # Calling it
//!
//! - An entry is an instance of an operator whose objects fit, or a MACROP, the first steps of a learned table with objects for its parameters
//!   (Fikes, Hart and Nilsson 1972). The tables have to be learned ones (`AreLearned`: at most 32, of at most 64 steps, which
//!   `check_table` of `px_table` accepts), as [`are_learned`] tests, and the entry has to be one, as [`is_entry`] tests.
//! - [`known_entry`] says what is known of an entry in a world model: that it can be applied, that it is open, with the gaps,
//!   that it isn't open, or that a question about it meets the shape limit (`Known` of `px_gaps`). A MACROP's rows are asked each
//!   from what the steps before leave of the model. The limit is an answer like the others, so its only error is `NoMemory`.
//! - [`initial_of`], [`step_under`] and [`left_of`] are what a MACROP's needs are made of: the initial facts of a row, a step with
//!   objects for its parameters, and what it leaves of the facts.
//! - What a search needs to know across world models: an atom whose predicate some operator adds, and no axiom mentions, is a fact or a
//!   gap closes it, so it never decides whether an entry is open. [`deciding_part`] gives the other facts of a model.
//!   [`never_limited`] says by the numbers of shapes that no question about any entry can meet the limit, whatever the facts
//!   are; [`known_below`] is then `known_entry`, decided by the facts where they suffice. [`axioms_mention_addable`] tests whether an
//!   axiom mentions a predicate that some operator adds, and [`is_settled`] whether some operator
//!   adds an atom's predicate, or the atom is provable.
//! - Matching, for `px_diff`: [`matches_of`] gives the instances of operators, with variables for what isn't known yet
//!   ([`PartialInstance`]), that add a wanted atom, and [`macro_matches`] terms for a table's parameters under which some first
//!   steps of it may add one. [`steps_with`] and [`add_wanted`] are about these steps under objects. [`merged`] and [`merged_with_each`] join
//!   the terms that parameters have with those of choices, and [`clash`] finds that some have no object in common.
//! - All calls answer `NoMemory` if there isn't enough memory, of which nothing more is said.
//!
//! The definitions are in `specs/`: `Entries` (which entries there are, what they do and what they need), `Learned` (which tables they may
//! come from), `Deciding` (which facts decide), `Unlimited` (where no question meets the limit), `AnswerRows` (the law), `Instances`
//! (operators with variables) and `Parameters` (objects for a table's parameters). `Few`, `Joined`, `Plain` and `Rest` are about the way
//! there; no public clause cites `Decisions`, `Few`, `Joined` and `Rest`. Laws for callers are in `proofs/`: `RowSteps` and `RowTurns`
//! (what a MACROP's rows need, step by step), `OpenNeeds` (when what is needed is open), `PartialLemmas` and `RestLaws` (operators with
//! variables, and the part of what they need that decides).
//!
//! Internally what is known of rows is joined row by row (`entry_rows`, `joining`). Where no axiom mentions a predicate that some
//! operator adds, each atom of a precondition is decided by itself (`plain`). What operators add is matched with a wanted atom
//! (`matching`): a match has objects for those parameters that the atom determines, and the others stay variables. What the steps
//! of a table add is matched for a number of first steps (`macro_matching`): a match has an object for each parameter that the
//! atom determines, and object 0 for each that these steps don't use (`parameters`).
#![tactic(auto)]

mod deciding;
mod entry_rows;
mod instances;
mod joining;
mod laws;
mod learned;
mod limiting;
mod macro_matching;
mod macro_steps;
mod matching;
mod parameters;
mod partial;
mod plain;

pub use deciding::deciding_part;
pub use entry_rows::{initial_of, is_initial, known_entry, left_of, row_formula, step_under};
pub use instances::{bound_instance, filled};
pub use laws::answers_support;
pub use learned::{are_learned, is_entry};
pub use limiting::never_limited;
pub use macro_matching::macro_matches;
pub use macro_steps::{add_wanted, steps_with};
pub use matching::matches_of;
pub use parameters::{clash, first_terms, first_unbound, merged, merged_with_each, objects_of};
pub use partial::PartialInstance;
pub use plain::{axioms_mention_addable, is_settled, known_below};
