//! Two executors in one world (after PLANEX: Fikes, Hart and Nilsson 1972), which may hinder each other.
//!
//! # Calling it
//!
//! - [`Duo::begin`] takes a valid problem, two tables for it, which may be the same, and the greatest number of atoms that a world may have.
//!   It takes all memory. Nothing is bound in the tables, and neither executor remembers anything. Contracts see two executors by what they
//!   were begun with and by their memories (`DuoValue` in `specs/DuoValue`).
//! - A [`DuoEvent`] is one step: the world is disturbed, or one of the two ([`Who`]) senses, or it acts. [`Duo::step`] asks what
//!   `Planex::step` of `px_planex` asks, for the table and the memory of the one whose event it is. It does not allocate, and answers by the
//!   same `Outcome`.
//! - The order of events is the caller's: no turns, and no fairness. Nothing ends two executors: after a sensing that finds the goal, or no
//!   kernel, either may sense again.
//! - `HappensInDuo` in `specs/Duos` is what comes of each event, and the clause `happens` of `step`. The event of the one has the outcome
//!   that it would have if the one were alone in the world, and the other remembers what it did: it forgets nothing when the world changes
//!   under it. Its next action tests the marks of its row alone, so it may slip where another kernel would fit.
//! - [`Duo::action`] is the step that one of the two remembers, and [`Duo::instance`] has the objects of the last kernel that it sensed.
//! - `DuoTraces` is a list of events with their outcomes. Each list of events has one ([`duo_traces_exist`]), if each of the two remembers
//!   nothing or a kernel that it can act by, which is so after any events again ([`duos_stay_ready`]). It is determined
//!   ([`duo_traces_are_one`]).
//! - Each of the two does what it would do alone, where the edits and the steps that the other takes are disturbances ([`each_is_alone`]).
//!   An action slips only where since its sensing an edit, or a step of the other, made a mark of its row false ([`slips_have_causes`]).
//! - A table is spared (`Spares` in `specs/Sparing`) where no step of the other table takes away any of its marks: what a step deletes of
//!   these, it adds again. If no edit comes, its executor never slips once it has sensed a kernel, and always finds one
//!   ([`spared_are_unhindered`]); so it reaches its goal by acting and sensing in turn ([`spared_reach_goal`]), however the other's events
//!   fall between its own. Two tables that move the same thing don't spare each other, and then each may undo what the other did for ever.
//! - The laws are calls that do nothing. They are about sets of atoms, whatever an edit leaves of them, so each holds in every world.
#![tactic(auto)]

mod duo;
mod event;
mod laws;

pub use duo::Duo;
pub use event::{DuoEvent, Who};
pub use laws::{
    duo_traces_are_one, duo_traces_exist, duos_stay_ready, each_is_alone, slips_have_causes,
    spared_are_unhindered, spared_reach_goal,
};
