//! The executor PLANEX (Fikes, Hart and Nilsson 1972): it senses which kernel of a table is the highest that fits, and acts by it.
//!
//! # Calling it
//!
//! - [`Planex::begin`] takes a valid problem, a table for it, a binding and the greatest number of atoms that a world may have. It
//!   takes all memory; it is refused where the binding names a parameter that the table does not have, with the first such number.
//!   Contracts see an executor by what it was begun with and by its memory (`PlanexValue` in `specs/Executors`).
//! - An [`Event`] is one step: the world is disturbed, or the executor senses, or it acts. [`Planex::step`] asks that the world's
//!   objects, axioms and operators are the problem's (`HaveSameRules` of `px_world`), that it has at most as many atoms as there is
//!   room for, that it admits a disturbance, and that it has the places that the event may take (`places_of`): one for a
//!   disturbance, none for a sensing, and for an action as many as the remembered step has adds. It does not allocate.
//! - Its [`Outcome`] is determined by the world's atoms and by what the executor remembers: at most one kernel, and the objects of the last
//!   kernel that it sensed. `Happens` in `specs/Execution` is the table of events and outcomes, line by line, and the clause
//!   `happens` of `step`. A sensing remembers the highest kernel that fits; if it is the last one, that is the goal. An action takes
//!   the remembered step if each mark of its row is true, and slips if one isn't. The world is as it was unless it was disturbed or a
//!   step was taken (`unchanged`). No world refuses a step whose row is true, so no outcome says that one did.
//! - [`Planex::action`] is the remembered step, which fits: `None` exactly where an action would have the outcome `NotSensed`.
//!   [`Planex::instance`] has the objects of the last kernel that was sensed.
//! - `Traces` is a list of events with their outcomes. Each list of events has one ([`traces_exist`]), and it is determined
//!   ([`traces_are_one`]). `RunsTable` in `specs/Turns` is a run: turn by
//!   turn the edits that are recorded for it before the sensing, the sensing, the edits between that and the action, and the
//!   action, up to the goal or to a sensing that finds no kernel.
//! - The laws are about sets of atoms, whatever an edit leaves of them. Where nothing disturbs the world each sensed action is taken and
//!   the next kernel is greater ([`acts_and_goes_on`]), so the goal is reached ([`goal_is_reached`]). By rules with the
//!   problem's objects, axioms and operators no step may be refused whose row is true ([`guard_never`]). A run is determined
//!   ([`runs_are_one`]), it is a trace ([`runs_are_traces`]), and it has few turns ([`turns_are_few`]). Where an edit leaves at most one
//!   atom more, an event leaves no more atoms than it may want places for ([`events_take_places`]).
//! - Three runs are worked out in `specs/WorkedRuns` ([`danger_runs`]).
#![tactic(auto)]

mod acting;
mod event;
mod laws;
mod planex;

pub use event::{Event, Outcome};
pub use laws::{
    acts_and_goes_on, danger_runs, events_take_places, goal_is_reached, guard_never, runs_are_one,
    runs_are_traces, traces_are_one, traces_exist, turns_are_few,
};
pub use planex::Planex;
