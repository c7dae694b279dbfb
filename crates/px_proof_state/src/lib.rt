//! The state of the prover: a list of unfinished proofs, and the attempts to close its first open place.
//!
//! # Calling it
//!
//! - [`ProofState`] holds the places of a list of proofs, in the order in which they are closed: which are open, how each
//!   other one was closed, and what that binds. Contracts see it as a `ProofStateValue` (`specs/States.antt`).
//! - [`try_facts`], [`try_ancestors`] and [`try_axioms`] close the first open place by the first fact, the nearest
//!   ancestor, or the first literal of an axiom, from a number on, that can be made equal to the literal of the place. They return
//!   whether there is one; if not, nothing has changed. `TriesRange` in `specs/Ranges.antt` is what they say: what
//!   closes the place, and that nothing before it ever does, whatever objects the variables stand for.
//!   The first fact with the predicate and the leading objects of the literal is found by binary search, and those after it one by one
//!   ([`places_of`] finds where they begin and end, for other crates); literals that differ in two objects at one place, in their signs or
//!   in their predicates are passed over before anything is bound.
//!   [`close_by_gap`] closes the place by nothing.
//! - `retract_last` opens again the place that was closed last: bindings and places are cut at the marks of its choice.
//! - After `NoMemory` a state is of no further use, and no clause says what it holds: an attempt that ran out of memory
//!   may have bound variables and opened places that no choice takes back. Whoever made the state drops it. (`prove` does:
//!   its state is its own, and what it borrowed stays as it was.)
#![tactic(auto)]

mod ancestors;
mod apart;
mod axioms;
mod beginnings;
mod facts;
mod gaps;
mod matching;
mod open;
mod parts;
mod stepping;
#[cfg(test)]
mod tests;

pub use ancestors::try_ancestors;
pub use axioms::try_axioms;
pub use beginnings::places_of;
pub use facts::try_facts;
pub use gaps::close_by_gap;
pub use open::{Choice, OpenGoal, ProofState};
