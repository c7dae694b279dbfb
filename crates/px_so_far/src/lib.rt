//! What the lines of a script have declared so far.
//!
//! # Calling it
//!
//! - [`SoFar`] has the fields of `Declared` of `px_script` (`declared_of` in `specs/SoFarViews`): names, roles, the problem's parts, facts,
//!   a building's things, tables, commands, and the block that is open ([`OpenBlock`]). Its methods look a name up, and give terms, atoms,
//!   edits and the proofs of a row by numbers.
//! - `SoFar::problem_here` returns a copy of the problem that the lines so far give. `HasProblem` says when there is one: always, but for a
//!   building whose lines aren't all there.
//! - [`OpenTable`] is a table as far as its lines stood. `is_bad` says whether its parts make no table of a problem, by `rows_make_table`
//!   of `px_table`: nothing of its text is trusted; `made` returns the table that they make.
//! - [`Variables`] are the variables that a line's arguments may be: those of its atoms by first occurrence ([`variables`]), or the
//!   parameters of a table and the variables of its goal.
//! - What is given by numbers gives 0 for a name that isn't declared: `px_causes` tells whether a name is.
//!
//! The proofs of a row are made of their parts from the last to the first (`rows`). [`greatest_height`] says how high they would be before
//! any is made, and `fault` of `px_causes` refuses what is higher than the proofs of a script may be. Of `specs/`, public clauses cite
//! `SoFarViews`, `LineVariables`, `Readable`, `Heights` and `Problems`.
#![tactic(auto)]

mod blocks;
mod line_variables;
mod open_tables;
mod problem;
mod proof_heights;
mod rows;
mod so_far;
mod terms;

pub use blocks::{BlockKind, OpenBlock, OpenOperator};
pub use line_variables::{Variables, goal_place, goal_variables, is_one_of, parameter_place};
pub use open_tables::{OpenTable, WrittenStep};
pub use problem::fill_up;
pub use proof_heights::{any_part_great, greatest_height};
pub use so_far::{SoFar, place_of};
pub use terms::{has_many_variables, variables};
