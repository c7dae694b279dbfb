//! Whether a question of gaps meets the limit, told by a walk that gathers nothing.
ghost use Rattle.std.specs.Prelude.{IfOk, IfSome};
ghost use Rattle.px_question.specs.Limits.{IsGapLimited};
ghost use Rattle.px_prover.specs.Asked.{IsAsked};
ghost use Rattle.px_prover.specs.GapAsking.{gap_setting};

use crate::gap_question::GapQuestion;
use px_base::NoMemory;
use px_proof::Shape;
use px_proof_state::ProofState;
use px_proof_walk::{Gather, walk_to_end};
use std::alloc::Global;

/// Gathers nothing.
#[derive(Clone, Copy)]
struct Nothing;

impl<'a> Gather<GapQuestion<'a>, ProofState> for Nothing {
    ghost gathered = { λ q g seen. Unit {0} };

    fn gather(
        &mut self,
        _question: &GapQuestion<'a>,
        _walk: &mut ProofState,
    ) -> Result<(), NoMemory> {
        Ok(())
    }
}

/// Returns the first shapes of unfinished lists, as many as the limit, if so many exist.
pub(crate) fn shapes_at_limit(
    alloc: Global,
    question: &GapQuestion,
) -> Result<Option<Vec<Shape>>, NoMemory>
    requires { IsAsked question.now }
    ensures { IfOk result (λ met. IfSome met (λ shapes. IsGapLimited (gap_setting question.now) question.now.formula.now question.now.variable_count
        shapes.items)) }
{
    let height = question.problem.height;
    let mut state = ProofState::new(alloc, question.formula, question.variable_count, height)?;
    let mut nothing = Nothing;
    let limit = question.problem.shapes;
    walk_to_end(alloc, question, &mut state, &mut nothing, limit)
}
