//! Plans with fresh variables for all that their shape leaves open, and the replay that binds them.
//!
//! A plan's table is generalised in two steps (Fikes, Hart and Nilsson 1972). It is opened: each argument of a step, each argument
//! of a fact of the initial model, each object and each variable of the goal, and each variable of an axiom that a proof uses gets
//! a variable of its own. Then its proofs are replayed: where one atom has to be another for a proof to have its form, the two are
//! unified. So what the proofs need is bound, and what the plan has by chance stays open.
//!
//! # Calling it
//!
//! - [`fresh_count`] counts the variables that opening a table takes.
//! - [`open_plan`] opens a table that takes at most 1,000,000 ([`Opened`]; `steps_opened`, `goal_opened` and `rows_opened` of
//!   `specs/Opened`). The variables of the steps come first, then those of the goal's objects, those that the goal has itself, and
//!   those of the proofs.
//! - [`replay_rows`] makes equal what has to be equal in an opened plan (`rows_pairs`). What fits the bindings afterwards is what
//!   fitted them before and makes each pair of atoms equal (`IsReplayOf` of `specs/Replaying`). The caller has to know that some
//!   substitution does (`CanReplayRows`), as that of the plan itself does where it is a table, so no pair clashes.
//! - [`named_goal`] puts other terms in the place of a goal's objects, and [`variables`] makes a list of variables.
//! - `opened` and `pairs_of` of `specs/Replay` say what becomes of one proof, and which atoms have to be equal in it.
//! - No public clause cites `specs/FreshOf`.
#![tactic(auto)]

mod counting;
mod goal;
mod opening;
mod pairing;
mod plan;
mod rows;

pub use counting::fresh_count;
pub use goal::named_goal;
pub use opening::variables;
pub use plan::{Opened, open_plan};
pub use rows::replay_rows;
