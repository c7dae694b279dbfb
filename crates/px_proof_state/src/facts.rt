//! Closing a place by a fact.
ghost use Rattle.std.specs.Prelude.{◌≡◌, ◌<◌, ◌≤◌, ℕ, IfOk, length};
ghost use Rattle.px_base.specs.Bounds.{u32_max};
ghost use Rattle.px_terms.specs.AtomSets.{IsAtomSet};
ghost use Rattle.px_terms.specs.Instances.{IsGround};
ghost use Rattle.px_unify.specs.Changes.{variables_of};
ghost use Rattle.px_proof_state.specs.Parts.{IsLitBelow};
ghost use Rattle.px_proof_state.specs.Apart.{AreOneAtomUnder};
ghost use Rattle.px_proof_state.specs.Ranges.{TriesRange, TriesFact, NeverFact, ComesFact};

use crate::apart::{are_apart, followed};
use crate::beginnings::{compare_beginnings, first_place, leading_objects};
use crate::open::{OpenGoal, ProofState};
use px_proof::Tick;
use px_terms::{Atom, Lit, NoMemory, are_objects_below};

/// Closes the first goal by the fact if all arguments of the fact are objects of the problem. `ends` is the goal's atom
/// with its bindings followed.
fn try_fact(
    state: &mut ProofState,
    objects: u32,
    number: u32,
    fact: &Atom,
    goal: &OpenGoal,
    ends: &Atom,
) -> Result<bool, NoMemory>
    requires goal_below { IsLitBelow (variables_of state.old.changes) goal.now.lit }
    requires ends_are { AreOneAtomUnder state.old.changes goal.now.lit.atom ends.now }
    ensures { IfOk result (λ found. TriesFact state.old state.new objects number fact.now goal.now found) }
{
    if are_apart(ends, fact) {
        return Ok(false);
    }
    if !are_objects_below(objects, fact.args()) {
        return Ok(false);
    }
    let lit = Lit {
        positive: true,
        atom: *fact,
    };
    state.close_by(Tick::Fact(number), &goal.lit, goal.next, &lit)
}

/// Closes the first goal by the first fact, from the number on, that closes it. Returns whether there is one.
///
/// # Errors
/// `NoMemory` if memory for the choice runs out. The state is then of no further use.
pub fn try_facts(
    state: &mut ProofState,
    objects: u32,
    facts: &[Atom],
    goal: &OpenGoal,
    from: usize,
) -> Result<bool, NoMemory>
    requires few { length facts.now ≤ u32_max }
    requires ascending { IsAtomSet facts.now }
    requires goal_below { IsLitBelow (variables_of state.old.changes) goal.now.lit }
    ensures { IfOk result (λ found. TriesRange (NeverFact objects facts.now state.old goal.now)
        (ComesFact objects facts.now state.old goal.now) from (length facts.now) state.old state.new found) }
{
    if !goal.lit.positive {
        return Ok(false);
    }
    let ends = followed(state.bind(), &goal.lit.atom);
    let count = leading_objects(ends.args());
    for number in first_place(facts, &ends, count, from)..facts.len() {
        let fact = &facts[number];
        if compare_beginnings(count, fact, &ends).is_gt() {
            return Ok(false);
        }
        match try_fact(state, objects, number as u32, fact, goal, &ends) {
            Ok(true) => return Ok(true),
            Ok(false) => {}
            Err(NoMemory) => return Err(NoMemory),
        }
    }
    Ok(false)
}
