//! Closing a place by an axiom, where the height leaves room.
ghost use Rattle.std.specs.Prelude.{◌≡◌, ◌↔◌, ◌+◌, ◌<◌, ◌≤◌, IfOk, IsTrue, All, length};
ghost use Rattle.px_terms.specs.Limits.{most_literals};
ghost use Rattle.px_unify.specs.Changes.{variables_of};
ghost use Rattle.px_proof_state.specs.Parts.{IsLitBelow};
ghost use Rattle.px_proof_state.specs.Ranges.{TriesRange};
ghost use Rattle.px_proof_state.specs.Axioms.{IsFit, HasBudget, IsFrom, TriesClause, NeverAxiom, ComesAxiom};

use crate::open::{OpenGoal, ProofState};
use px_proof::Tick;
use px_terms::{ClauseArena, Lit, NoMemory};

/// Returns whether the height of the goal leaves room for the parts of the clause.
fn has_room(goal: &OpenGoal, lits: &[Lit]) -> bool
    ensures { IsTrue result ↔ HasBudget goal.now lits.now }
{
    lits.len() <= 1 || 2 <= goal.budget
}

/// Returns the first place to try: the given one at the first axiom, and 0 at the others.
fn start_place(number: usize, from: usize, place: usize) -> usize
    ensures { IsFrom number from place result }
{
    if number == from { place } else { 0 }
}

/// Closes the first goal by the first literal of the clause, from the given place on, that closes it, if there is room. Returns whether it
/// is closed.
fn try_clause(
    state: &mut ProofState,
    number: u32,
    variable_count: u32,
    lits: &[Lit],
    goal: &OpenGoal,
    from: usize,
) -> Result<bool, NoMemory>
    requires fit { IsFit (variables_of state.old.changes) (record { variable_count = variable_count; lits = lits.now }) }
    requires short { length lits.now ≤ most_literals }
    requires goal_below { IsLitBelow (variables_of state.old.changes) goal.now.lit }
    requires next_older { goal.now.next ≤ length state.old.goals }
    requires first_older { state.old.first ≤ length state.old.goals }
    ensures { IfOk result (λ found. TriesClause number (record { variable_count = variable_count; lits = lits.now }) goal.now from state.old state.new found) }
{
    if !has_room(goal, lits) {
        return Ok(false);
    }
    for place in from..lits.len() {
        match state.close_by_step(
            Tick::Step(number, place as u32),
            goal,
            variable_count,
            lits,
            place,
        ) {
            Ok(true) => return Ok(true),
            Ok(false) => {}
            Err(NoMemory) => return Err(NoMemory),
        }
    }
    Ok(false)
}

/// Closes the first goal by the first literal that closes it, from the given place of the axiom `from` on. Returns whether there is one.
///
/// # Errors
/// `NoMemory` if memory for the choice, the variables or the parts runs out. The state is then of no further use.
pub fn try_axioms(
    state: &mut ProofState,
    axioms: &ClauseArena,
    goal: &OpenGoal,
    from: usize,
    place: usize,
) -> Result<bool, NoMemory>
    requires fit { All (IsFit (variables_of state.old.changes)) axioms.now }
    requires goal_below { IsLitBelow (variables_of state.old.changes) goal.now.lit }
    requires next_older { goal.now.next ≤ length state.old.goals }
    requires first_older { state.old.first ≤ length state.old.goals }
    ensures { IfOk result (λ found. TriesRange (NeverAxiom axioms.now state.old goal.now from place)
        (ComesAxiom axioms.now state.old goal.now from place) from (length axioms.now) state.old state.new found) }
{
    for number in from..axioms.count() as usize {
        let start = start_place(number, from, place);
        let clause = number as u32;
        match try_clause(
            state,
            clause,
            axioms.variable_count(clause),
            axioms.lits(clause),
            goal,
            start,
        ) {
            Ok(true) => return Ok(true),
            Ok(false) => {}
            Err(NoMemory) => return Err(NoMemory),
        }
    }
    Ok(false)
}
