//! The models, entries, stacks and nodes of a search, each kept once and numbered.
//!
//! # Calling it
//!
//! - [`Numbers`] keeps atoms, models, entries and stacks. Contracts see it as `Kept`, the list of each kind, by number.
//!   `model_number`, `entry_number` and `pushed` return the number of a model, an entry, and a stack with one more entry, and
//!   keep what is new. `model`, `entry`, `top` and `is_stacked` say what a number stands for. The empty stack has number 0.
//! - A model is kept as the list of the numbers of its atoms, in the order of the atoms, so `model` puts each at the end.
//! - Which model and which stack a number stands for are relations: `IsModelAt`, `IsStackAt`. Numbers stay when more is kept
//!   (`KeepsAll`), after `NoMemory` too. `sound` hands out what is always true: nothing is kept twice (`AreSound`).
//! - A [`NodeKey`] is a node as two numbers, those of its model and of its stack (`IsKeyOf`). [`NodeSet`] is the list of
//!   the nodes that were found, each once: a search looks there to see whether a node is new. `node_at` and `stack_at` make the node
//!   of a key and the stack of a number.
//! - [`FirstNodes`] is the list of the first nodes of a search. It owns the numbers, and makes a node when it is asked for one.
//! - Laws for callers are in `specs/NumberLaws`: a pair of numbers is one node (`one_node`), a node has one pair (`one_key`), a
//!   pair is among the found ones exactly where its node is (`seen`, `unseen`), and all of this stays when more is kept
//!   (`stands-grows`, `all_stand-grows`).
//! - Each kind has room for 4,294,967,295 things; for new ones after that there is no memory.
#![tactic(auto)]

mod entries;
mod first_nodes;
mod lists;
mod making;
mod nodes;
mod numbers;
mod stacks;
#[cfg(test)]
mod tests;

pub use first_nodes::FirstNodes;
pub use making::{node_at, stack_at};
pub use nodes::{NodeKey, NodeSet};
pub use numbers::Numbers;
pub use stacks::Frame;
