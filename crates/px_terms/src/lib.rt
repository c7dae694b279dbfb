//! The language of planning problems, and what plans of them mean.
//!
//! # Calling it
//!
//! - A [`Term`] is an object, a variable (of an axiom or a goal) or parameter (of an operator), or the wild card. [`object_of`]
//!   returns the number of the object, and 0 for any other term.
//! - An [`Atom`] is a predicate with at most six terms, an [`OpInst`] an operator with at most eight. Both are `Copy`,
//!   contracts see them as a number with the list of the terms, and they are ordered by number, then by terms from
//!   the left. `new` answers `None` exactly where there are too many terms; `Atom::of` asks for at most six terms.
//! - [`apply_term`], [`apply`] and [`apply_inst`] replace variables. [`instance_of`] tests an atom without variables against a
//!   pattern with wild cards, [`fills`] any atom.
//! - A [`ClauseArena`] keeps the axioms by number. `push` refuses a clause of no literal or more than six, then a
//!   sixty-fifth clause; a refused clause leaves it as it was.
//! - A [`Schema`] is an operator, a [`Problem`] all that a search is about. Fields that are lists are [`Sequence`]s. `without_sorts` of
//!   each makes one without sorts; a problem's [`Limits`] are at most `MOST_HEIGHT`, `MOST_NODES` and `MOST_SHAPES`.
//! - Each object and each parameter has a sort, a number; 0 is no sort. An object fits a place that wants no sort or the object's
//!   ([`fits_sort`], [`objects_fit`]), and an instance fits where each of its objects does ([`fits`]). [`sort_at`] reads a list of sorts, and
//!   [`are_sorts_of`] tests one. What isn't said to fit is whatever the sorts: states, runs, and what a plan is worth.
//!   Calls of other crates that borrow a problem ask that it is valid: `IsValid` in `specs/Validity.antt`. [`is_valid`] tests
//!   it; [`is_atom_of`], [`are_atoms_of`], [`is_instance_of`] and [`is_term_of`] test what belongs to a problem; [`is_ground`],
//!   [`are_objects_below`], [`are_variables_below`] and [`are_plain_below`] test the conditions of other calls. Each answers exactly.
//! - What a plan is worth stands in `specs/`: finite interpretations (`States`), the states that an operator describes,
//!   runs, and `Carries` (`Plans`), after Lifschitz 1987.
//! - Laws about the definitions are calls that do nothing: [`merged_names`], the worked example that two objects may be
//!   one thing; [`drop_plan`], what a plan over them carries and what it doesn't; [`lit_lamp`], axioms that hold in some
//!   states and fail in others, and a goal with a variable that a plan reaches only by them; [`contradiction`], axioms that
//!   no state meets; [`sorted_instances`], which of four instances fit; [`atoms_are_ordered`], the order in words.
//! - No public clause cites `specs/Soundness` and the files of laws (`DropPlanLaws`, `InstanceLaws`, `MergedNamesLaws`, `OperatorLaws`,
//!   `SchemaLaws`, `SortLaws`, `ValidityLaws`).
#![tactic(auto)]

mod atom;
mod clause;
mod instance;
mod laws;
mod limits;
mod problem;
mod sorts;
mod substitution;
mod term;
#[cfg(test)]
mod tests;
mod validity;

pub use atom::{Atom, apply, equal, fills, instance_of};
pub use clause::{ArenaErr, Clause, ClauseArena, Lit};
pub use instance::{OpInst, apply_inst};
pub use laws::{
    atoms_are_ordered, contradiction, drop_plan, lit_lamp, merged_names, sorted_instances,
};
pub use limits::{
    MOST_ARGUMENTS, MOST_CLAUSES, MOST_FORMULA_VARIABLES, MOST_HEIGHT, MOST_LITERALS, MOST_NODES,
    MOST_PARAMETERS, MOST_SHAPES, MOST_WEIGHT,
};
pub use problem::{Limits, Problem, Schema};
pub use px_base::{NoMemory, Sequence};
pub use sorts::{fits, fits_sort, objects_fit, sort_at};
pub use substitution::apply_term;
pub use term::{Term, object_of};
pub use validity::{
    are_atoms_of, are_objects_below, are_plain_below, are_sorts_of, are_variables_below,
    is_atom_of, is_ground, is_instance_of, is_term_of, is_valid,
};
