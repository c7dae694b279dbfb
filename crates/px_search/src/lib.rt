//! The search over proofs: means-ends search over goal stacks (Fikes and Nilsson 1971), with the first steps of learned tables,
//! MACROPs, among what may be pushed (Fikes, Hart and Nilsson 1972).
//!
//! # Calling it
//!
//! - [`search`] asks for a valid problem, a goal over at most 12 variables, an object where there is a variable, and learned tables
//!   (`AreLearned` of `px_entries`). What it answers is stated over the task of these (`task_of` of `px_ends`).
//! - It goes by the problem's weight (`px_ends/specs/ByValue`): the node that is gone through next is the one of the least value, which is
//!   the number of moves to it and, as many times as the weight says, what it lacks. At weight 0 that is breadth.
//! - It answers a plan: the moves to the first solved node that is found (`IsFound`), the steps that they take, and the rows of the table
//!   of the moves (`MovesRows`). The rows are a support of the steps, and the initial model carries these to the goal (`Supports`,
//!   `Carries`): `build` of `px_table` makes the plan's table of them.
//! - Or `Exhausted`, where no list of moves reaches a solved node and all nodes fit the limit (`IsExhausted`); `NodeLimit` with the
//!   first nodes themselves (`IsNodeLimit`); `ShapeLimit` with a question that meets the limit of shapes, its node and its first
//!   shapes (`IsShapeLimit`, `MetLimit` of `px_gaps`); or `NoMemory`.
//! - Each of these comes exactly where its definition holds, but for `NoMemory`: where a task has one of the first three ends, this
//!   is the answer, or memory ran out; and where a question that is asked meets the limit, the answer is some such question.
//! - Which questions are asked is what the definition says (`IsAsked`): those of each node that is picked up to the one from which the
//!   stop is reached, and the goal at each node with an empty stack that is found before the stop, and at the stop itself if there is room.
//! - [`search_tree`] goes the same way, with room for as many nodes as it is told, and answers the tree (`IsTree` of
//!   `px_ends/specs/Trees`): for each node that was found the place of the one that it comes from, the move between them and what the node
//!   lacks, and how the search ended.
//!   Where a question meets the limit of shapes, these are the nodes that were found before the first such question. A search has one tree
//!   ([`trees_are_one`]).
//!
//! # Inside
//!
//! Models, entries, stacks and nodes are numbers (`px_numbers`). The model that is looked at is kept from one node to the next, with the
//! number of the part of it that decides what may be pushed (`current`). All else that is learned is kept in one place (`cache`). What an
//! entry allows in a model doesn't depend on what is below it on the stack, apart from which entries are there: what is learned of a pair
//! of entry and model is kept (`moves`), unless a question about it meets the limit of shapes. So is the model that applying the entry
//! leaves (`results`): of an operator, for all its instances that delete and add the same (`alterations`). What may be pushed for a wanted
//! atom is kept too (`offering`): for all models with the same deciding facts, where no question about an entry ever meets the limit, and
//! else for that model. The lists for the wanted atoms of a node are joined by their order (`merging`).
//!
//! Where no question ever meets the limit and a node may push more entries than the node limit has room for, only the first of them are
//! found, and kept (`successors`). All are asked for (`all_steps`) where the first were gone through and there is room left.
//!
//! Which node is gone through next is what the `picker` says: without a weight a counter, and else the agenda of `px_order`, with the value
//! of each node. What an entry lacks in a model is counted once (`estimates`, by `px_lacks`): a push adds one such number, and after an
//! application those of the stack are summed in the new model.
//!
//! Of the files of `specs/` public clauses cite `WorkedTrees` alone, the trees of the smallest searches. The others serve private functions
//! alone.
#![tactic(auto)]

mod after;
mod all_steps;
mod alterations;
mod best_first;
mod cache;
mod current;
mod effects;
mod ends;
mod estimates;
mod laws;
mod merging;
mod moves;
mod offering;
mod origins;
mod picker;
mod picks;
mod planning;
mod results;
mod step;
mod stop;
mod successors;
mod trees;
mod tried;

pub use ends::{Found, SearchErr};
pub use laws::{trees_are_one, worked_trees};
pub use planning::search;
pub use trees::search_tree;
