//! Closing the first open place by the least tick after a given one: by facts, ancestors, axioms and gaps in turn.
ghost use Rattle.std.specs.Prelude.{IfOk};
ghost use Rattle.px_prover.specs.Tries.{IsReadyIn, TriesSince, TriesLater};

use crate::question::ProofQuestion;
use px_base::NoMemory;
use px_ops::is_added;
use px_proof::Tick;
use px_proof_state::{OpenGoal, ProofState, close_by_gap, try_ancestors, try_axioms, try_facts};

/// Closes the first goal by a gap, if that is allowed.
fn try_gap(
    state: &mut ProofState,
    question: &ProofQuestion,
    goal: &OpenGoal,
) -> Result<bool, NoMemory>
    requires { IsReadyIn question.now state.old goal.now }
    ensures { IfOk result (λ found. TriesSince question.now Tick.Gap state.old state.new found) }
{
    if !question.loose {
        return Ok(false);
    }
    if !goal.lit.positive {
        return Ok(false);
    }
    if !is_added(question.problem, goal.lit.atom.pred()) {
        return Ok(false);
    }
    close_by_gap(state, goal)
}

/// Closes the first goal by the first literal of an axiom from that place on, or by a gap.
fn try_since_axiom(
    state: &mut ProofState,
    question: &ProofQuestion,
    goal: &OpenGoal,
    from: usize,
    place: usize,
) -> Result<bool, NoMemory>
    requires { IsReadyIn question.now state.old goal.now }
    ensures { IfOk result (λ found. TriesSince question.now (Tick.Step from place) state.old state.new found) }
{
    match try_axioms(state, &question.problem.axioms, goal, from, place) {
        Ok(true) => return Ok(true),
        Ok(false) => {}
        Err(NoMemory) => return Err(NoMemory),
    }
    try_gap(state, question, goal)
}

// Alike: `try_since_fact` has the same frame: facts, ancestors, axioms and the gap are the four links of one chain.
/// Closes the first goal by the first ancestor from that number on, or by what comes after ancestors.
fn try_since_ancestor(
    state: &mut ProofState,
    question: &ProofQuestion,
    goal: &OpenGoal,
    from: usize,
) -> Result<bool, NoMemory>
    requires { IsReadyIn question.now state.old goal.now }
    ensures { IfOk result (λ found. TriesSince question.now (Tick.Anc from) state.old state.new found) }
{
    // no path is that long
    if from > u32::MAX as usize {
        return try_since_axiom(state, question, goal, 0, 0);
    }
    match try_ancestors(state, goal, from) {
        Ok(true) => return Ok(true),
        Ok(false) => {}
        Err(NoMemory) => return Err(NoMemory),
    }
    try_since_axiom(state, question, goal, 0, 0)
}

/// Closes the first goal by the first fact from that number on, or by what comes after facts.
fn try_since_fact(
    state: &mut ProofState,
    question: &ProofQuestion,
    goal: &OpenGoal,
    from: usize,
) -> Result<bool, NoMemory>
    requires { IsReadyIn question.now state.old goal.now }
    ensures { IfOk result (λ found. TriesSince question.now (Tick.Fact from) state.old state.new found) }
{
    match try_facts(state, question.problem.objects, question.facts, goal, from) {
        Ok(true) => return Ok(true),
        Ok(false) => {}
        Err(NoMemory) => return Err(NoMemory),
    }
    try_since_ancestor(state, question, goal, 0)
}

/// Closes the first goal by the least tick after the last one that was tried.
pub(crate) fn try_later(
    state: &mut ProofState,
    question: &ProofQuestion,
    goal: &OpenGoal,
    last: Option<Tick>,
) -> Result<bool, NoMemory>
    requires { IsReadyIn question.now state.old goal.now }
    ensures { IfOk result (λ found. TriesLater question.now last state.old state.new found) }
{
    match last {
        None => try_since_fact(state, question, goal, 0),
        Some(Tick::Open) => try_since_fact(state, question, goal, 0),
        Some(Tick::Fact(number)) => try_since_fact(state, question, goal, number as usize + 1),
        Some(Tick::Anc(number)) => try_since_ancestor(state, question, goal, number as usize + 1),
        Some(Tick::Step(number, place)) => {
            try_since_axiom(state, question, goal, number as usize, place as usize + 1)
        }
        Some(Tick::Gap) => Ok(false),
    }
}
