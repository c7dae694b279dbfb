//! Generalising a plan: the table whose proper instances are the supports of the plan's shape (Fikes, Hart and Nilsson 1972).
//!
//! # Calling it
//!
//! - [`generalise`] makes that table of the table of a plan, which has no parameters (`Generalises` of `specs/General`). It opens
//!   the plan with fresh variables, replays its proofs (`px_replay`), and names the variables that stay open: equal objects get one
//!   parameter only where a proof needs them equal, and an object stays only where an operator or an axiom has it. A parameter has the
//!   sort of the places of steps at which it stands.
//! - It answers `TooLong`, `TooDeep` or `TooWide` exactly where one of these is so, the first in this order (`specs/Limits`), unless it
//!   answers `NoMemory`. It calls itself once for each level of a proof.
//! - The shape of a plan's table is its operators in order, its goal without its objects, and the forms of its proofs, with
//!   the column and the index of each leaf (`shape_of_table` in `specs/General`). `IsTableInstance` says that steps, a goal, rows
//!   and atoms are an instance of a table: objects for its parameters fit their sorts and are proper from the first step on, and the
//!   atoms have the first kernel.
//! - `Generalises` says that a table without parameters has this general table: each proper instance of the general one
//!   supports its steps, which fit, and its goal, and has the plan's shape (`IsSoundFor`), and each support of the plan's shape whose
//!   steps fit is a proper instance (`IsGeneralFor`). Any whole number may stand for an object there, and the numbers past the
//!   problem's objects may have any sorts. The parameters are numbered in the order in which they first occur in the marks, then in the
//!   steps, the goal and the proofs (`IsNumbered`); each has the sort of the sorted places of steps at which it stands,
//!   or 0 where there is none.
//! - Whether or not any instance is proper, the general table keeps the plan (`KeepsPlan`): its operators, and its proofs without their
//!   terms; with some of the problem's objects it has just the plan's steps, goal and proofs.
//! - A plan whose own steps delete nothing that its later rows rest on has at most one general table, proofs included
//!   ([`general_is_one`]). The table of each plan that a search finds is like this.
//! - Each plan has a general table ([`generals_exist`]), also one that is too long, too deep or too wide to be generalised here.
//! - A plan is too long above 64 steps (`IsTooLong`), too deep where a proof is higher than 56 (`IsTooDeep`), and too wide above
//!   1,000,000 fresh variables (`IsTooWide`), which `fresh_variables` of `px_replay` counts.
//! - [`worked_general`] says of a small plan which table generalises it, and of others that they don't.
//! - The laws are calls that do nothing.
//! - No public clause cites `specs/Naming` and `specs/Replayed`.
#![tactic(auto)]

mod building;
mod general_err;
mod generalising;
mod laws;
mod limits;
mod naming;
mod walking;

pub use general_err::GeneralErr;
pub use generalising::generalise;
pub use laws::{general_is_one, generals_exist, worked_general};
