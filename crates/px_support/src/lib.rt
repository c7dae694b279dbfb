//! The support of a plan: from the moves that a search found to the proofs that carry their steps to the goal.
//!
//! # Calling it
//!
//! - [`support_of`] takes what a search over proofs was asked ([`Asked`], `IsAskable` of `specs/Asking`) and the moves that it found
//!   (`AreFoundMoves` of `specs/FoundMoves`, which [`found_with_weight`] gives), by operators and by learned tables (`AreLearned` of
//!   `px_entries`). It returns the steps that the moves take, and a row of proofs for each of them, and the goal's row last (`MovesRows`
//!   of `px_ends`): the first proofs of what each step needs in the model before it, where each fact names the last step before that adds
//!   it, or the initial model. The steps of a MACROP have the table's rows, with such proofs in the places of their initial facts. `build`
//!   of `px_table` makes a triangle table of these (Fikes, Hart and Nilsson 1972).
//! - The steps are instances of the problem's operators, whose objects fit the parameters. The rows are a support of the steps and the
//!   goal, over the problem's numbers, so that the initial model carries the steps to the goal. `NoMemory` is the only error: all that is
//!   proved has an answer below the limit of shapes, which the search saw.
//! - [`moves_have_supports`] is the law for definitions: whatever rows a list of moves has, they are a support of its steps
//!   (`MovesSupport` of `specs/MadeSupports`). The call does nothing.
//! - [`found_with_weight`] is the law that the moves which a search found, with whatever weight (`IsFound` of `px_ends/specs/ByValue`), are
//!   such. The call does nothing.
//! - [`apply_to`] applies an operator's instance to a model without a copy of it.
//! - No public clause cites `specs/Going`, `specs/Grafted`, `specs/MacroSteps` and `specs/Sources`.
#![tactic(auto)]

mod applying;
mod asked;
mod grafts;
mod laws;
mod macros;
mod rows;
mod sources;
mod support;
mod walk;

pub use applying::apply_to;
pub use asked::Asked;
pub use laws::{found_with_weight, moves_have_supports};
pub use support::{Support, support_of};
