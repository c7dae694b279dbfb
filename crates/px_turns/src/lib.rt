//! The turns of a run, in a world of any kind (after PLANEX: Fikes, Hart and Nilsson 1972).
//!
//! # Calling it
//!
//! - A [`Recorded`] is what is recorded for a run from outside: edits for a turn, before its sensing or between that and its action.
//!   Contracts see it as a `Recorded` of `specs/Turns` of `px_planex`.
//! - [`run`] takes a valid problem, a table for it, a binding, what is recorded, and a world with the problem's objects, axioms and
//!   operators that admits each recorded edit. It takes all memory before the first turn, room in the world included; where there isn't
//!   enough, and where the binding names a parameter that the table does not have, the world and the list of turns are as they were.
//! - Turn by turn the edits that are recorded for it before the sensing come, the executor senses, the edits between that and the action
//!   come, and it acts, up to the goal or to a sensing that finds no kernel (`TakesTurns` of `px_planex`). The turns are put after those
//!   that are in the list, and are numbered from there on (`AddsRun` in `specs/Told`): so a later run goes on where an earlier one ended. A
//!   run is determined by the world's atoms (`runs_are_one` of `px_planex`). It always ends.
//! - [`RunEnd`] says whether it ended at the goal, and has the world's atoms after it.
//! - A run at whose start some kernel fits, and that ends where none does, uses a disturbance that no later turn can use
//!   ([`vain_runs_use`]).
//! - [`most_adds`] is for callers that count the places which steps may take.
//!
//! # Inside
//!
//! No public clause cites `specs/Turning` but for `adds_most`: how many places turns may take serves private functions alone.
#![tactic(auto)]

mod laws;
mod recorded;
mod running;
mod turns;

pub use laws::vain_runs_use;
pub use recorded::Recorded;
pub use running::{RunEnd, most_adds, run};
