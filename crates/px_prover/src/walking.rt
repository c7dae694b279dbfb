//! The prover's state as a walk over unfinished lists.
ghost use Rattle.std.specs.Prelude.{◌≡◌, ◌<◌, ◌≤◌, ◌-◌, ◌++◌, take, length, map as map_list, MatchBool};
ghost use Rattle.px_proof_state.specs.Arena.{goals_at, AreOlder};
ghost use Rattle.px_proof_state.specs.declared.open.Choice.{Choice as ChoiceValue};
ghost use Rattle.px_proof_walk.specs.Trail.{tick_or_none};

use crate::attempts::try_later;
use crate::question::ProofQuestion;
use px_base::NoMemory;
use px_proof::Tick;
use px_proof_state::{Choice, ProofState};
use px_proof_walk::{Visit, Walk};

/// Returns how many places are open.
fn open_places(state: &ProofState) -> usize
    requires arena { AreOlder state.now.goals }
    requires within { state.now.first ≤ length state.now.goals }
    ensures { result ≡ length (goals_at state.now.goals state.now.first) }
{
    let mut count = 0;
    let mut at = state.first();
    while at > 0 {
        count += 1;
        at = state.goal_at(at).next;
    }
    count
}

/// Returns whether another place is open besides the first.
pub(crate) fn are_two_open(state: &ProofState) -> bool
    requires arena { AreOlder state.now.goals }
    requires within { state.now.first ≤ length state.now.goals }
    ensures { MatchBool result (1 < length (goals_at state.now.goals state.now.first))
        (length (goals_at state.now.goals state.now.first) ≤ 1) }
{
    let place = state.first();
    if place == 0 {
        return false;
    }
    let goal = state.goal_at(place);
    goal.next > 0
}

/// Returns the tick of the last choice.
fn last_tick(choices: &[Choice]) -> Option<Tick>
    ensures { let ticks = map_list (λ (c : ChoiceValue). c.tick) choices.now in
        ticks ≡ take (length choices.now - 1) ticks ++ tick_or_none result }
{
    match choices.len().checked_sub(1) {
        Some(last) => Some(choices[last].tick),
        None => None,
    }
}

impl<'a> Walk<ProofQuestion<'a>> for ProofState {
    ghost use Rattle.px_prover.specs.Asking.{setting_in, IsPossibleIn, IsFinishedIn};
    ghost use Rattle.px_prover.specs.Standing.{ticks_in, IsStanding};
    ghost use Rattle.px_prover.specs.Shorter.{possible-shorter};
    ghost use Rattle.px_proof_walk.specs.Possible.{open_count};

    ghost ticks = { λ v. ticks_in v.choices };

    ghost stands = { λ q v. IsStanding q.loose (setting_in q) q.formula.now q.variable_count v };

    ghost possible = { λ q ticks. IsPossibleIn q ticks };

    ghost shorter = { λ q. possible-shorter q.loose (setting_in q) q.formula.now q.variable_count };

    ghost finished = { λ q ticks. IsFinishedIn q ticks };

    ghost places = { λ q ticks. open_count q.loose (setting_in q) q.formula.now q.variable_count ticks };

    ghost most = { λ q. q.problem.now.shapes };

    fn try_after(
        &mut self,
        question: &ProofQuestion<'a>,
        last: Option<Tick>,
    ) -> Result<bool, NoMemory> {
        let place = self.first();
        if place == 0 {
            return Ok(false);
        }
        let goal = self.goal_at(place);
        try_later(self, question, &goal, last)
    }

    fn retract(&mut self, _question: &ProofQuestion<'a>) -> Option<Tick> {
        self.retract_last()
    }

    fn is_finished(&self, _question: &ProofQuestion<'a>) -> bool {
        self.first() == 0
    }

    fn visit(&self, _question: &ProofQuestion<'a>) -> Visit {
        let choices = self.choices();
        Visit {
            kept: choices.len().saturating_sub(1),
            last: last_tick(choices),
            places: open_places(self),
        }
    }
}
