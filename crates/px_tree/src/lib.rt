//! Search trees: for each node that a search finds how it was found, and how the search ended.
//!
//! These are types alone: `search_tree` of `px_search` makes a [`Tree`], and `px_printer` writes it. What a tree is of a search is said in
//! `px_ends/specs/Trees`.
#![tactic(auto)]

mod nodes;

pub use nodes::{MoveKind, Tree, TreeEnd, TreeMove, TreeNode, TreeOrigin};
