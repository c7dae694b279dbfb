//! Triangle tables, and the entries, nodes and moves of a search.
//!
//! A triangle table keeps a plan with its reasons (Fikes, Hart and Nilsson 1972): for each step a proof of its
//! precondition, and at the end proofs of the goal. Each fact that a proof rests on names where it comes from: column 0
//! is the initial model, and column `j` is an add of step `j`.
//!
//! # Calling it
//!
//! - [`Table`] has its steps and goal over parameters, its [`Row`]s of proofs, its [`Mark`]s: the leaves of each row
//!   in order, each once, and the sort of each parameter. `Var(v)` with `v` below `params` is a parameter; in the goal its own
//!   variables follow. `Table::without_sorts` makes one whose parameters have no sorts.
//! - [`build`] makes the table of a support whose steps fit. A support is steps, a goal and rows of proofs over objects, where each
//!   fact is given at first or added by a step before its row, and no step in between deletes it (`Supports` of
//!   `specs/Supports.antt`). The call also says that a support carries its steps, whatever becomes of the memory.
//! - [`check_table`] says whether a table is a triangle table for the problem (`IsTable` of `specs/Tables.antt`). Where it says yes,
//!   each proper instance of each kernel carries the steps that are left to the goal (`KernelsCarry` of `specs/Kernels.antt`).
//!   [`rows_make_table`] says this of parts without marks. No clause says how long they take: measured, `rows_make_table` takes time as
//!   the size of its parts, and `check_table` compares the marks of a row with each other.
//! - A table is well-sorted (`IsWellSortedTable` of `specs/WellSorted.antt`) where each parameter has a sort of the problem or none,
//!   each object in a step fits its place, and each parameter stands in steps only at places that have its sort or none. Under
//!   objects that fit the parameters ([`fit_parameters`]) its steps then fit. [`sorts_by_places`] finds the sorts that parameters
//!   have by the places of some steps. That each parameter has the sort of the sorted places of the steps at which it stands, or 0
//!   where there is none, is said as `HasSortsOfPlaces`; of a well-sorted table it says the same (`WellSortedLaws`). Kernels,
//!   properness between steps, and what carries are whatever the sorts.
//! - [`marks`] makes the marks of rows, also of rows over parameters, for a caller that makes a table in another way (measured: in time
//!   as the leaves).
//! - [`kernel`] lists what has to hold so that the steps from one on lead to the goal: the atoms of the marks whose row
//!   is at least `i` and whose column is below `i`. Any `i` is allowed; kernel 1 is column 0, and the one after the last
//!   step is the goal's row.
//! - [`proper`] says whether, with objects for the parameters, each of which fits its parameter's sort, no step from `i` on deletes a
//!   mark that it stands between. Two parameters may have one object. Where it says yes, this instance carries. It asks for a table,
//!   for an object of the problem for each parameter, and for a number from 1 to one more than there are steps.
//! - [`is_macro`] says whether a number of a table's first steps, with these objects, may be taken as one operator
//!   (`IsMacro` of `specs/Prefixes.antt`). These steps fit; the sorts of later steps don't count. [`proper_prefix`] is the part of it
//!   about deletions, and [`is_used`] says which parameters the steps use; a parameter that they don't use has object 0.
//! - [`atom_with`] and [`instance_with`] put objects into an atom or a step, and do not allocate.
//! - "Carries" is `Carries` of `px_terms`: in each run of the steps that begins where the facts hold, each precondition
//!   is met, and a run of all steps ends in the goal.
//! - What the definitions say is proved as laws: an atom is in a kernel exactly where a mark between has it
//!   ([`kernels_are_marks`]); where the marks of a row hold, so does its step's precondition
//!   ([`rows_meet_preconditions`]); a support carries over whatever objects ([`supports_carry`]); and no support names a
//!   step that doesn't add the atom, one after which the atom is deleted, or its own row ([`supports_refuse`]). Further
//!   laws for callers are in `specs/KernelLaws`, `SupportLaws`, `SupportClaimLaws`, `Carrying`, `RowLaws`, `UnderLaws`,
//!   `MarkLaws`, `OnceLaws`, `PrefixLaws`, `TableLaws`, `WellSortedLaws` and `GrowthLaws` (a table of a problem is one of each problem
//!   that begins with it). No public clause cites these, nor `Conclusions` and `ObjectLaws`. `Parameters` says how the parameters of a
//!   table are numbered, for `px_general`.
//! - For definitions that have to compute, `is_table` of `specs/Deciding.antt` is a test of tables, which is true exactly of
//!   what `IsTable` says ([`tables_are_decided`]). It is `rows_are_table`, a test of derivations, and that the marks are those of the rows.
//! - [`Entry`] is what a search pushes: an operator instance, or the first steps of a learned table with an object for
//!   each of the table's parameters. Its order is the one in which entries are tried: operators before tables, then by
//!   number and arguments, or by number, prefix and objects (`order_of_entries` in `specs/EntryOrder.antt`;
//!   `specs/EntryLaws.antt` has the laws). It can be a key of a map or a member of a set.
//! - [`Move`] is a step of the search: an entry is pushed, or the top entry is applied. `==` is equality
//!   ([`moves_are_compared`]); moves have no order.
//! - [`Node`] is a world model with a stack of entries, the top one first. Contracts see it as these two lists
//!   (`NodeValue` in `specs/NodeValue.antt`); how much room is left in its model doesn't count. Two nodes are equal, and
//!   are hashed alike, where these are the same (`specs/Nodes.antt`, with the laws in `specs/NodeLaws.antt`).
//! - There are at most [`MOST_TABLES`] learned tables, of at most [`MOST_STEPS`] steps each (`specs/Limits`), which the crates above
//!   cite; nothing here asks for it.
//! - `try_copy` of each returns an equal value, or `NoMemory`. `check_table`, `rows_make_table`, `proper`, `fit_parameters` and
//!   `is_macro` do not allocate.
#![tactic(auto)]

mod building;
mod conclusions;
mod entry;
mod goal_row;
mod kept;
mod kernel_atoms;
mod laws;
mod leaf_sources;
mod limits;
mod mark;
mod mark_list;
mod node;
mod prefix;
mod proper_instance;
mod ranges;
mod table;
mod under_objects;
mod validation;
mod well_sorted;

pub use building::{build, marks};
pub use entry::{Entry, Move};
pub use kernel_atoms::kernel;
pub use laws::{
    entries_are_ordered, kernels_are_marks, marks_are_compared, moves_are_compared,
    nodes_are_compared, rows_meet_preconditions, supports_carry, supports_refuse,
    tables_are_decided,
};
pub use limits::{MOST_STEPS, MOST_TABLES};
pub use mark::Mark;
pub use node::Node;
pub use prefix::{is_macro, is_used, proper_prefix};
pub use proper_instance::proper;
pub use table::{Row, Table};
pub use under_objects::{atom_with, instance_with};
pub use validation::{check_table, rows_make_table};
pub use well_sorted::{fit_parameters, sort_in_step, sorts_by_places};
