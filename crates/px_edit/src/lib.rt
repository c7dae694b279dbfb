//! Editing a table: of its first steps those that are needed for some wanted adds, as a table of its own (Fikes, Hart and Nilsson 1972).
//!
//! # Calling it
//!
//! - [`edit`] takes a table, how many of its first steps may be asked for, and pairs: the number of a step, counted from 1, and the place
//!   of one of its adds, counted from 0. The edited table (`IsEdited` of `specs/Editing`) keeps the least set of steps that has the step of
//!   each pair, and with a step each one that a mark of its row names (`AreKeptSteps`). Their rows stay, with columns by the kept steps;
//!   the goal is the wanted adds in the order of the pairs, each proved by the fact that its step adds it.
//! - Parameters that occur nowhere any more are gone. The others are numbered in the order in which they first occur in the marks, then in
//!   the steps, the goal and the rows. Each has the sort of the places of the kept steps at which it stands, or 0 where none has a sort.
//! - It is a table, so each proper instance of each of its kernels carries the steps that are left, and each of its steps serves a row:
//!   some mark of the table names it. A wanted add that a later kept step deletes isn't refused;
//!   objects under which it is deleted are proper at no kernel up to that step.
//! - It answers `BadPrefix`, `BadWant`, `TooLong` or `TooDeep` exactly where one of these is so, the first in this order
//!   (`specs/EditCauses`), unless it answers `NoMemory`, which may come after the first two. What it calls goes as deep as a proof is high.
//! - [`editing_is_sound`] is the law that one table is the edited one, what that is worth, and when it may be used in place of the first
//!   steps (`specs/EditClaims`). [`worked_edits`] has edits worked out by hand. These calls do nothing.
//! - No public clause cites `specs/Keeping`, `specs/Parts` and `specs/Refusals`.
#![tactic(auto)]

mod building;
mod causes;
mod columns;
mod edit_err;
mod editing;
mod keeping;
mod laws;
mod naming;
mod parts;
mod walking;

pub use edit_err::EditErr;
pub use editing::edit;
pub use laws::{editing_is_sound, worked_edits};
