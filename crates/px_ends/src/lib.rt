//! What a search over proofs is asked, how it ends, and the table of its moves.
//!
//! These are definitions and their laws, which the search of `px_search` meets, with the weight of its problem. The nodes are those of the
//! goal stack of Fikes and Nilsson 1971, with the first steps of learned tables among the entries (Fikes, Hart and Nilsson 1972).
//!
//! # Calling it
//!
//! - `specs/Tasks`: a `Task` is to reach a goal from an initial model, by the operators of a problem and by learned tables.
//!   It says what a node needs, which moves it allows (`IsAllowed`), what they lead to (`after`), what is asked there
//!   (`AsksAt`), and which steps moves take (`steps_of`). Entries are those of `px_entries`, questions those of `px_gaps`.
//! - `specs/Order`: lists of moves are ordered by their number, and then by the entry at the first different push. A node
//!   stands where its least list of moves does (`specs/Moves`, for any nodes and moves).
//! - `specs/Ends`: `IsFound`, `IsExhausted`, `IsNodeLimit` and `IsShapeLimit` are the four ends. `IsStop` is the first node
//!   that is solved or that there is no room for; it says which questions are asked (`IsAsked`), and an end other than the
//!   limit of shapes comes only where none of these meets that limit (`IsUnlimited`).
//! - `specs/Made`: the table of a list of moves (`IsTableOfMoves`). Its rows have the first proofs of what each step needs, and
//!   a learned table's rows with such proofs in the places of its initial facts; each fact names the last step before that
//!   adds it.
//! - A search has one end ([`ends_are_one`]), a list of moves has one table, proofs included ([`tables_are_one`]), and which
//!   questions are asked is what the stop says ([`asked_by_stop`]; the statements are in `specs/Determined`).
//! - `specs/ByValue`: the same four ends with a weight, of a search that picks the node of the least value (`px_order`): the number of
//!   moves, and what the node lacks (`specs/Lacks`) as many times as the weight says. With each weight a search has one end
//!   ([`value_ends_are_one`]), and each node stands once ([`nodes_stand_once`]); where it is exhausted with one, it isn't found or limited
//!   with any ([`exhausted_with_all`]); weight 0 is breadth ([`weight_none_is_breadth`]; `weight_none_is_exactly_breadth` of `px_totality`
//!   has the other way, too). [`fits_is_match`] says what the test of an instance means.
//! - `specs/Trees`: the tree of a search (`IsTree`): each node that it finds, by its parent and the last move, and how it ends.
//! - [`worked_ends`] has the smallest searches, and [`worked_values`] those with a weight.
//! - The laws are calls that do nothing.
#![tactic(auto)]

mod laws;
#[cfg(test)]
mod tests;

pub use laws::{
    asked_by_stop, ends_are_one, exhausted_with_all, fits_is_match, nodes_stand_once,
    tables_are_one, value_ends_are_one, weight_none_is_breadth, worked_ends, worked_values,
};
