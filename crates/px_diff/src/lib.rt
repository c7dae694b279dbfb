//! Relevance: which entries may be pushed for wanted atoms.
//!
//! # Calling it
//!
//! - [`relevant`] takes wanted atoms, as `gaps` of `px_gaps` gives them, the entries that are on the stack, a world model, and
//!   the learned tables. It returns the entries that may be pushed, in order, each once: those that aren't on the stack, add a
//!   wanted atom, and are open, which is to say that each formula that they need has an answer or a gap. An entry is an instance
//!   of an operator, whose objects fit its parameters, or a MACROP of a table. The tables have to be learned ones, as for
//!   `known_entry` of `px_entries`.
//! - It has a valid problem as its condition. It stops with [`MoveErr::ShapeLimit`] where a question meets the shape limit. This
//!   error has the question, the formula at which it does, which is the question's own or one atom that a gap would close, and the first
//!   shapes (`MetLimit` of `px_gaps`). `relevant` asks, of each entry that isn't on the stack and adds a wanted atom, whether each formula
//!   that it needs has an answer, and where it has none, for its gaps. An `Ok` says that no question meets the limit. Whether `relevant`
//!   meets it doesn't depend on the order in which it works.
//! - Models with the same deciding facts (`deciding_part` of `px_entries`) allow the same pushes ([`relevance_over_models`]).
//! - A search that has no room for all that may be pushed asks [`relevant_first`]: where no question about an entry is ever limited, it
//!   returns the first of what `relevant` returns for an empty stack, in the same order: all, or at least as many as are wanted. It
//!   stops after a match of an operator where each instance of a later match comes after all those found, after all operators, or
//!   after a number of first steps of a table. It says whether they are all ([`First`]).
//! - What `relevant` returns with an empty stack serves every stack: what may be pushed over a stack is its list without the
//!   stack's entries ([`relevance_over_stacks`]).
//! - All calls answer `NoMemory` if there isn't enough memory, of which nothing more is said.
//! - [`relevant_measured`] is `relevant` with a number in addition to the entries, for benchmarks ([`Measured`]): how often the prover was
//!   asked, but for what is asked of each entry by itself. Finding gaps asks it for the gap patterns, and of the atoms that these
//!   close whether they have a proof. No clause of the call speaks of this number.
//!
//! The definitions are in `specs/`: `Pushes` (which entries are relevant, which may be pushed, and where that meets the limit),
//! `Outcomes` (what an error says), `Stacks` and `Models` (the laws). Only private functions cite the others. Laws for callers are in
//! `proofs/`: `Opening` (when an operator's instance is open).
//!
//! Internally `relevant` matches what operators add with the wanted atoms (`matches_of` of `px_entries`). One question of gaps is
//! asked for each match. An atom whose predicate some operator adds, and no axiom concludes, is a fact or a gap closes it, so it
//! never decides whether an instance is open. Where the number of shapes is known to stay below the limit (`Bounds` of `px_gaps`),
//! the question is therefore only about the other atoms of the precondition (`rest`). Else it is about the whole precondition.
//! Where it meets the limit, the first variable is bound to each object in turn, and each of these narrower matches is asked in
//! the same way. That ends where a question answers, or where no variable is left. A match that stands for at most 9 instances isn't asked
//! about as a whole: a question that meets the limit takes as many steps as the limit allows, and says nothing. An instance is asked about
//! as an entry by itself is, its proof first.
//!
//! Where an object stands at a place of another sort, nothing is asked, and where an object is chosen for a variable or a parameter, those
//! of another sort are passed over (`sorted`). A question with variables may range over such objects; where it meets the limit it answers
//! nothing, and in the end only instances are asked about that fit.
//!
//! Then it matches what the steps of each table add with the wanted atoms (`macro_matches` of `px_entries`), for each number of
//! first steps. One question of gaps is asked for each row, from the whole model (`row_questions`). A MACROP's row is proved
//! from what the steps before it leave of the model, so it has no more shapes than that question, and nothing that the question
//! doesn't offer. What is provable from the whole model says nothing of it, so nothing is left out for that. The objects that
//! the rows offer are joined, a row with few choices first (`fitting`), so that tuples of objects aren't listed. Which parameters the
//! first steps use, and whether a step may delete a mark at all, is found once for all objects (`prefix_macros`). Each
//! MACROP that comes out is tried by itself, by the calls for one entry, whose questions aren't counted (`macros`). `relevant` asks nothing
//! about the rows of a table with at most 256 choices of objects: it tries each of its MACROPs by itself.
//!
//! Where the question of a row meets the limit, one of the row's own parameters is bound to each object in turn, and each of these
//! narrower rows is asked in the same way. What is known of the other rows stays as it is. Where each parameter of the row has an
//! object and a question still meets the limit, each MACROP that has these objects is tried by itself: its row may have fewer shapes,
//! since it is proved from what the steps before leave. No other tuples of objects are listed, unless the table has more than 4,096
//! parameters, which are more than a question may have variables.
#![tactic(auto)]

mod first;
mod first_instances;
mod first_macros;
mod firsts;
mod fitting;
mod laws;
mod macro_open;
mod macros;
mod measured;
mod move_err;
mod prefix;
mod prefix_macros;
mod pushes;
mod relevance;
mod request;
mod rest;
mod row_choices;
mod row_questions;
mod sorted;

pub use first::First;
pub use firsts::relevant_first;
pub use laws::{relevance_over_models, relevance_over_stacks};
pub use measured::Measured;
pub use move_err::MoveErr;
pub use pushes::{relevant, relevant_measured};
