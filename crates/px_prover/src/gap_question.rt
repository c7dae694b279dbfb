//! Questions with gaps, whose walk visits unfinished lists only.
ghost use Rattle.std.specs.Prelude.{◌≡◌, ◌++◌, ◌∷◌, [], true};
ghost use Rattle.px_proof.specs.declared.shape.Tick.{Tick as TickValue};
ghost use Rattle.px_proof_walk.specs.Order.{IsAfter};
ghost use Rattle.px_prover.specs.GapAsking.{gap_setting, IsGoingOnIn};
ghost use Rattle.px_prover.specs.Passed.{AreSmall, IsSmall};
ghost use Rattle.px_prover.specs.Standing.{ticks_in, IsStanding};

use crate::question::ProofQuestion;
use crate::walking::are_two_open;
use px_base::NoMemory;
use px_proof::Tick;
use px_proof_state::ProofState;
use px_proof_walk::{Visit, Walk};
use px_terms::{Atom, Problem};

/// What is asked where gaps are allowed. The walk over it visits unfinished lists only.
#[derive(Clone, Copy)]
pub(crate) struct GapQuestion<'a> {
    pub problem: &'a Problem,
    pub formula: &'a [Atom],
    pub variable_count: u32,
    pub facts: &'a [Atom],
    /// Whether the terms of patterns are asked for, and not their atoms alone.
    pub with_terms: bool,
}

impl<'a> GapQuestion<'a> {
    /// Returns the question whose walk visits finished lists, too.
    pub(crate) fn loose(&self) -> ProofQuestion<'a>
        ensures { result ≡ record {
          problem = self.now.problem;
          formula = self.now.formula;
          variable_count = self.now.variable_count;
          facts =
              self.now.facts;
          loose = true;
        } }
    {
        ProofQuestion {
            problem: self.problem,
            formula: self.formula,
            variable_count: self.variable_count,
            facts: self.facts,
            loose: true,
        }
    }
}

/// Returns the tick, with the fact that its numbers have 32 bits.
pub(crate) fn sized(tick: Tick) -> Tick
    ensures same { result ≡ tick }
    ensures small { IsSmall result }
{
    match tick {
        Tick::Fact(number) => Tick::Fact(number),
        Tick::Anc(number) => Tick::Anc(number),
        Tick::Step(clause, place) => Tick::Step(clause, place),
        Tick::Gap => Tick::Gap,
        Tick::Open => Tick::Open,
    }
}

/// Returns the tick after which a place is tried at first. Facts and ancestors close it for good, so where no other place is open, they
/// leave none open.
fn least_after(_question: &GapQuestion, state: &ProofState) -> Option<Tick>
    requires { IsStanding true (gap_setting _question.now) _question.now.formula.now _question.now.variable_count state.now }
    ensures small { AreSmall result }
    ensures rest { (u : TickValue) → IsGoingOnIn _question.now (ticks_in state.now.choices ++ u ∷ []) → IsAfter result u }
{
    if are_two_open(state) {
        return None;
    }
    Some(Tick::Anc(u32::MAX))
}

/// Returns the tick after which a place is tried, where this one was tried last.
fn start_after(question: &GapQuestion, state: &ProofState, last: Option<Tick>) -> Option<Tick>
    requires { IsStanding true (gap_setting question.now) question.now.formula.now question.now.variable_count state.now }
    ensures small { AreSmall result }
    ensures rest { (u : TickValue) → IsAfter last u → IsGoingOnIn question.now (ticks_in state.now.choices ++ u ∷ []) → IsAfter result u }
    ensures later { (u : TickValue) → IsAfter result u → IsAfter last u }
{
    match last {
        None => least_after(question, state),
        Some(tick) => Some(sized(tick)),
    }
}

impl<'a> Walk<GapQuestion<'a>> for ProofState {
    ghost use Rattle.std.specs.Prelude.{true};
    ghost use Rattle.px_prover.specs.GapAsking.{gap_setting, IsGoingOnIn};
    ghost use Rattle.px_prover.specs.Standing.{ticks_in, IsStanding};
    ghost use Rattle.px_proof_walk.proofs.Starts.{going-shorter};
    ghost use Rattle.px_proof_walk.specs.Possible.{IsFinished, open_count};

    ghost ticks = { λ v. ticks_in v.choices };

    ghost stands = { λ q v. IsStanding true (gap_setting q) q.formula.now q.variable_count v };

    ghost possible = { λ q ticks. IsGoingOnIn q ticks };

    ghost shorter = { λ q. going-shorter true (gap_setting q) q.formula.now q.variable_count };

    ghost finished = { λ q ticks. IsFinished true (gap_setting q) q.formula.now q.variable_count ticks };

    ghost places = { λ q ticks. open_count true (gap_setting q) q.formula.now q.variable_count ticks };

    ghost most = { λ q. q.problem.now.shapes };

    fn try_after(
        &mut self,
        question: &GapQuestion<'a>,
        last: Option<Tick>,
    ) -> Result<bool, NoMemory> {
        let loose = question.loose();
        let mut after = start_after(question, self, last);
        while self.try_after(&loose, after)? {
            if self.first() > 0 {
                return Ok(true);
            }
            match self.retract(&loose) {
                None => return Ok(false),
                Some(tick) => after = Some(sized(tick)),
            }
        }
        Ok(false)
    }

    fn retract(&mut self, _question: &GapQuestion<'a>) -> Option<Tick> {
        self.retract_last()
    }

    fn is_finished(&self, _question: &GapQuestion<'a>) -> bool {
        self.first() == 0
    }

    fn visit(&self, question: &GapQuestion<'a>) -> Visit {
        self.visit(&question.loose())
    }
}
