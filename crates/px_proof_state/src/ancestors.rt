//! Closing a place by the complement of a literal above it.
ghost use Rattle.std.specs.Prelude.{◌≡◌, ◌<◌, ◌≤◌, IfOk, All, length};
ghost use Rattle.px_base.specs.Bounds.{u32_max};
ghost use Rattle.px_unify.specs.Changes.{variables_of};
ghost use Rattle.px_proof_state.specs.Arena.{path_at, AreOlder};
ghost use Rattle.px_proof_state.specs.Parts.{IsLitBelow};
ghost use Rattle.px_proof_state.specs.Ranges.{TriesRange};
ghost use Rattle.px_proof_state.specs.Ancestors.{TriesAncestor, NeverAncestor, ComesAncestor};

use crate::open::{OpenGoal, ProofState};
use px_proof::{Tick, complement};
use px_terms::{Lit, NoMemory};

/// Closes the first goal by the complement of a literal above it, if its number is not below `from`. Returns whether it does.
fn try_ancestor(
    state: &mut ProofState,
    number: u32,
    above: &Lit,
    goal: &OpenGoal,
    from: usize,
) -> Result<bool, NoMemory>
    requires goal_below { IsLitBelow (variables_of state.old.changes) goal.now.lit }
    requires above_below { IsLitBelow (variables_of state.old.changes) above.now }
    ensures { IfOk result (λ found. TriesAncestor state.old state.new number above.now goal.now from found) }
{
    if (number as usize) < from {
        return Ok(false);
    }
    let lit = complement(above);
    state.close_by(Tick::Anc(number), &goal.lit, goal.next, &lit)
}

/// Closes the first goal by the nearest literal above it, from the number on, whose complement closes it. Returns whether there is one.
///
/// # Errors
/// `NoMemory` if memory for the choice runs out. The state is then of no further use.
pub fn try_ancestors(state: &mut ProofState, goal: &OpenGoal, from: usize) -> Result<bool, NoMemory>
    requires few { length (path_at state.old.goals goal.now.above) ≤ u32_max }
    requires above_older { goal.now.above ≤ length state.old.goals }
    requires arena { AreOlder state.old.goals }
    requires goal_below { IsLitBelow (variables_of state.old.changes) goal.now.lit }
    requires path_below { All (IsLitBelow (variables_of state.old.changes)) (path_at state.old.goals goal.now.above) }
    ensures { IfOk result (λ found. TriesRange (NeverAncestor (path_at state.old.goals goal.now.above) state.old goal.now)
        (ComesAncestor (path_at state.old.goals goal.now.above) state.old goal.now) from (length (path_at state.old.goals goal.now.above))
        state.old state.new found) }
{
    let mut at = goal.above;
    let mut number = 0;
    while at > 0 {
        let above = state.goal_at(at);
        match try_ancestor(state, number, &above.lit, goal, from) {
            Ok(true) => return Ok(true),
            Ok(false) => {}
            Err(NoMemory) => return Err(NoMemory),
        }
        at = above.above;
        number += 1;
    }
    Ok(false)
}
