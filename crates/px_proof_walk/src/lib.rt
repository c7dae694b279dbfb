//! The walk of the prover over unfinished proofs, stated once for proofs and gap proofs, apart from the state that it
//! keeps.
//!
//! An unfinished list of proofs is given by the ticks that close its places in preorder: each closes the first place that is
//! open. The lists are visited in the order of the ticks, a list before those that it grows into, so the first finished
//! one that is met is the first of all.
//!
//! # Calling it
//!
//! - [`Walk`] is what a state offers: `try_after` closes the first open place by the least possible tick after a given
//!   one, `retract` opens the last place again and returns its tick, and `visit` returns what is kept of a list. Its ghost members
//!   say which lists are possible, which are finished, how many of their places are open, and which states belong to a question; `most`
//!   is how many ticks there may be, so that a state can bound its variables.
//! - [`advance`] goes on to the next possible list: the least after the one where the walk stands, and no other is between.
//!   `false` means that no list comes after it. The next list has all ticks but its last one in common with the one before.
//! - [`walk_to_finished`] starts at the empty list and stops at the first finished one, or at the end if no list is finished, or where
//!   as many unfinished ones as the limit have been met; then [`End::Limit`] has their shapes, in order.
//! - [`walk_to_end`] visits all lists and lets a [`Gather`] gather at each, or stops at the limit. It is for walks over
//!   lists that all have an open place; what is finished is gathered from the list before it.
//! - Of each list that is visited a [`Visit`] is kept, its last tick and two numbers, and where the limit is met the shapes are made of
//!   these. So a walk that doesn't meet the limit takes memory by the number of lists, however long they are.
//! - Each call that takes memory returns `NoMemory` if memory runs out. The walk may then stand anywhere, and must not be
//!   continued.
//!
//! What the visits say of a question is proved here too, over lists and bindings alone. `specs/Pending` says which closings
//! a tick makes and what is then open, `specs/Possible` which lists of ticks are possible and finished, `specs/Order`
//! and `specs/Search` what is visited, and `specs/Trail` how visits give the lists and their shapes. Of `proofs/`: `Attempts`
//! and `Objects` have what unification says of one more tick, `Outcomes` and `GapOutcomes` what the ends of a walk say of the
//! definitions in `px_question`, `Values` and `Answering` which objects the bindings then give, and `Gathering` which gap lists.
//! No public clause cites `specs/GapAtoms`, `specs/Scope` and `specs/Values`, and of `specs/Possible` these cite `shape_with` alone.
#![tactic(auto)]

mod end;
mod gather;
mod steps;
#[cfg(test)]
mod tests;
mod visit;
mod walk;

pub use end::End;
pub use gather::{Gather, walk_to_end};
pub use steps::{advance, walk_to_finished};
pub use visit::Visit;
pub use walk::Walk;
