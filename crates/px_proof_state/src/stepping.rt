//! A literal is made equal to one over new variables, or the bindings stay.
ghost use Rattle.std.specs.Prelude.{◌≡◌, ◌+◌, ◌≤◌, IfOk};
ghost use Rattle.px_unify.specs.Changes.{variables_of};
ghost use Rattle.px_proof_state.specs.Parts.{IsLitBelow};
ghost use Rattle.px_proof_state.specs.Steps.{MatchesFresh};

use crate::matching::matches;
use px_terms::{Lit, NoMemory};
use px_unify::{Bind, BindErr, MOST_VARIABLES};

/// Adds variables and makes the two literals equal, or leaves the bindings as they are. Returns whether they are equal.
pub(crate) fn matches_fresh(
    bind: &mut Bind,
    count: u32,
    goal: &Lit,
    lit: &Lit,
) -> Result<bool, NoMemory>
    requires small { variables_of bind.old + count ≤ MOST_VARIABLES }
    requires goal_below { IsLitBelow (variables_of bind.old) goal.now }
    requires lit_below { IsLitBelow (variables_of bind.old + count) lit.now }
    ensures { IfOk result (λ found. MatchesFresh bind.old bind.new count goal.now lit.now found) }
{
    let mark = bind.mark();
    match bind.fresh(count) {
        Ok(_) => {}
        Err(BindErr::Full) => unreachable!(),
        Err(BindErr::NoMemory) => return Err(NoMemory),
    }
    if matches(bind, goal, lit) {
        return Ok(true);
    }
    bind.undo_to(mark);
    Ok(false)
}
