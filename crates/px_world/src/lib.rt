//! Worlds that an executor acts in, and what changes them from outside.
//!
//! # Calling it
//!
//! - A [`World`] is seen by its true atoms, ascending, a problem whose objects, axioms and operators are its own (`rules`),
//!   the edits that it admits, the atoms that an edit leaves, and how much room is left (`spare`). No method of it takes memory.
//! - `sense` fills an empty model that has the room. `act` asks for an instance of an operator over the world's objects, and
//!   room for what it adds; first all that it deletes goes, then what it adds comes. `disturb` asks that the edit is
//!   admitted, and for one place.
//! - `act` may answer [`Guard`] where the precondition may be false: in some state in which the axioms and all atoms hold,
//!   an atom of it doesn't (`IsActionRefused` in `specs/Worlds`, after Lifschitz 1987). The world is then as it was. Where an atom of
//!   the precondition isn't among the world's atoms but follows from them, nothing can be refused ([`worked_guard`]).
//! - A world with [`Regrow`] can be given more room between two runs, and counts its true atoms. Of its methods `regrow` alone takes
//!   memory.
//! - [`AtomWorld`] is a set of atoms with a problem. It never answers `Guard`, and it admits each [`AtomEdit`] of a ground atom, which
//!   leaves at most one atom more ([`atom_edits_add_one`]).
//! - [`RoomEdit`] is a change in a building, whose things are given as [`Thing`]s.
#![tactic(auto)]

mod atom_world;
mod edits;
mod laws;
mod regrow;
#[cfg(test)]
mod tests;
mod thing;
mod world;

pub use atom_world::AtomWorld;
pub use edits::{AtomEdit, RoomEdit};
pub use laws::{atom_edits_add_one, worked_guard};
pub use regrow::Regrow;
pub use thing::Thing;
pub use world::{Guard, World};
