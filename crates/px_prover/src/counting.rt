//! How many shapes a formula has, counted by a walk that gathers nothing.
ghost use Rattle.std.specs.Prelude.{◌≡◌, ◌<◌, ◌≤◌, ◌+◌, All, IfOk, IfSome};
ghost use Rattle.px_prover.specs.Counting.{CountsShapes};
ghost use Rattle.px_prover.specs.Limits.{most_gap_variables};
ghost use Rattle.px_question.specs.Settings.{setting_of};
ghost use Rattle.px_terms.specs.Validity.{IsValid, IsAtomOf};

use crate::question::ProofQuestion;
use px_base::NoMemory;
use px_ops::Model;
use px_proof_state::ProofState;
use px_proof_walk::{Gather, Walk, walk_to_end};
use px_terms::{Atom, Problem};
use std::alloc::Global;

/// Up to how many lists are counted.
const MOST_COUNTED: u32 = 1024;

/// How many shapes of lists of loose gap proofs there are.
#[derive(Clone, Copy)]
pub struct ShapeCount {
    /// Those of unfinished lists.
    pub unfinished: u32,
    /// Those of finished lists.
    pub finished: u32,
}

/// Returns the number after this one.
fn one_more(count: u32) -> Result<u32, NoMemory>
    ensures { IfOk result (λ next. next ≡ count + 1) }
{
    // no walk visits more lists than a `u32` can count
    match count.checked_add(1) {
        Some(next) => Ok(next),
        None => Err(NoMemory),
    }
}

impl<'a> Gather<ProofQuestion<'a>, ProofState> for ShapeCount {
    ghost use Rattle.px_prover.specs.Counting.{CountsSeen};

    ghost gathered = { λ q g seen. CountsSeen q seen g };

    fn gather(
        &mut self,
        question: &ProofQuestion<'a>,
        walk: &mut ProofState,
    ) -> Result<(), NoMemory> {
        if walk.is_finished(question) {
            self.finished = one_more(self.finished)?;
            return Ok(());
        }
        self.unfinished = one_more(self.unfinished)?;
        Ok(())
    }
}

/// Counts the shapes of lists of loose gap proofs of the formula. No more exist than the two numbers say. `None` says nothing: it comes
/// where together 1,024 exist, or as many as the problem's limit of shapes.
///
/// # Errors
/// `NoMemory` if memory runs out.
pub fn count_shapes(
    alloc: Global,
    problem: &Problem,
    formula: &[Atom],
    variable_count: u32,
    model: &Model,
) -> Result<Option<ShapeCount>, NoMemory>
    requires problem { IsValid problem.now }
    requires formula { All (IsAtomOf problem.now variable_count) formula.now }
    requires few_variables { variable_count ≤ most_gap_variables }
    requires some_object { 0 < variable_count → 0 < problem.now.objects }
    ensures { IfOk result (λ counted. IfSome counted (CountsShapes (setting_of problem.now model.now.atoms) formula.now variable_count)) }
{
    let question = ProofQuestion {
        problem,
        formula,
        variable_count,
        facts: model.atoms(),
        loose: true,
    };
    let mut state = ProofState::new(alloc, formula, variable_count, problem.height)?;
    let mut count = ShapeCount {
        unfinished: 0,
        finished: 0,
    };
    let limit = problem.shapes.min(MOST_COUNTED);
    match walk_to_end(alloc, &question, &mut state, &mut count, limit) {
        Ok(None) => Ok(Some(count)),
        Ok(Some(_)) => Ok(None),
        Err(NoMemory) => Err(NoMemory),
    }
}
