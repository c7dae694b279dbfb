//! Closing a place by a gap.
ghost use Rattle.std.specs.Prelude.{◌≡◌, IfOk};
ghost use Rattle.px_unify.specs.Changes.{variables_of};
ghost use Rattle.px_proof_state.specs.Parts.{IsLitBelow};
ghost use Rattle.px_proof_state.specs.Matches.{ClosesBy};

use crate::open::{OpenGoal, ProofState};
use px_proof::Tick;
use px_terms::NoMemory;

/// Closes the first goal by a gap.
///
/// # Errors
/// `NoMemory` if memory for the choice runs out. The state is then of no further use.
pub fn close_by_gap(state: &mut ProofState, goal: &OpenGoal) -> Result<bool, NoMemory>
    requires { IsLitBelow (variables_of state.old.changes) goal.now.lit }
    ensures { IfOk result (λ found. ClosesBy state.old state.new Tick.Gap goal.now.lit goal.now.lit goal.now.next found) }
{
    state.close_by(Tick::Gap, &goal.lit, goal.next, &goal.lit)
}
