//! Buildings: rooms, doors, boxes and a robot, as a domain, as states with what changes them, and as a world.
//!
//! # Calling it
//!
//! - [`Building`] lists the things of a building. `specs/States` has its first state, in which nothing is beside anything
//!   (`first_state`), which lists are buildings (`IsBuilding`: one robot, and each number names a thing of the kind that is
//!   wanted there), and the facts of a state, ascending (`rendering`).
//! - `specs/Domain` has what each building gives to its script: eight predicates, one axiom and seven operators with their
//!   names. [`worked_domain`] has them as lines of a script. [`rooms_problem`] makes the problem of a building, with the limits
//!   that are asked for. It is valid ([`buildings_are_valid`]).
//! - `specs/Changes` says what the actions change in a state (`acted`), which instance of an operator each action is
//!   (`instance_of_action`; each instance is one action, [`instances_are_actions`]), what the edits do (`state_edited`), and what an edit
//!   leaves of the facts (`facts_edited`). `IsAdmitted` holds of the edits whose numbers name things of the kinds that are wanted.
//!   [`worked_building`] tries each action and edit on a small building: the facts of the state that it leaves are what the
//!   operator, or the edit of the facts, says. That is so in every state, and a state of the building is left
//!   ([`actions_are_results`], [`edits_are_edits`]).
//! - Each action is one that its operator describes (after Lifschitz 1987): a state has an interpretation, in which exactly its
//!   facts are true, and an action whose precondition is met makes a run from each interpretation of the state to each one of the
//!   state that it leaves ([`actions_are_runs`]).
//! - [`RoomWorld`] is a building as a world, which contracts see as its state. [`RoomWorld::new`] begins with the first state, and
//!   answers `NoSuchThing` only where the list is no building, and there it answers this or `NoMemory`. `act` answers
//!   `Guard` exactly where an atom of the precondition isn't a fact, and else does what the action of that instance does
//!   (`IsMoved`). [`RoomWorld::edit`] answers `NoSuchThing` exactly where the edit isn't admitted; an edit leaves at most one fact more
//!   ([`room_edits_add_one`]). [`RoomWorld::render`] gives all facts, and [`RoomWorld::try_copy`] another world in the same state. A world always has room for all its facts, so `regrow`
//!   does nothing.
//! - Where an atom of a precondition isn't a fact a world may refuse the action ([`refusals_are_allowed`]). Facts are a set of
//!   atoms over the building's objects and predicates ([`facts_are_atoms`]), ground, and there are few ([`facts_are_few`]).
//! - The laws are calls that do nothing. `specs/Added`, `specs/Looking` and `specs/RobotCounts` serve private functions
//!   alone.
#![tactic(auto)]

mod action;
mod adding;
mod building;
mod change;
mod errors;
mod fact_counts;
mod facts;
mod laws;
mod problem;
mod robots;
mod standing;
mod start;
#[cfg(test)]
mod tests;
mod things;
mod world;

pub use building::Building;
pub use errors::{NoSuchThing, RoomErr};
pub use laws::{
    actions_are_results, actions_are_runs, buildings_are_valid, edits_are_edits, facts_are_atoms,
    facts_are_few, instances_are_actions, refusals_are_allowed, room_edits_add_one,
    worked_building, worked_domain,
};
pub use problem::rooms_problem;
pub use world::RoomWorld;
