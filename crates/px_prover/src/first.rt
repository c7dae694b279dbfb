//! The first proof of a formula.
ghost use Rattle.std.specs.Prelude.{◌≡◌, ◌≤◌, ◌<◌, List, map as map_list, IfOk, All, false};
ghost use Rattle.px_terms.specs.Limits.{most_formula_variables};
ghost use Rattle.px_proof.specs.Derivation.{derivations};
ghost use Rattle.px_proof.specs.ProofTerm.{derivation_of};
ghost use Rattle.px_proof.specs.Range.{IsDerivationOf};
ghost use Rattle.px_proof.specs.declared.shape.Tick.{Tick};
ghost use Rattle.px_question.specs.Answers.{IsAnswer, IsFirst};
ghost use Rattle.px_question.specs.Limits.{AreFewBefore, AreFewShapes, IsLimited};
ghost use Rattle.px_question.specs.Settings.{setting_of};
ghost use Rattle.px_terms.specs.Validity.{IsValid, IsAtomOf};
ghost use Rattle.px_proof_walk.specs.Search.{ComesFirst};
ghost use Rattle.px_prover.specs.Asking.{setting_in, IsPossibleIn, IsFinishedIn};
ghost use Rattle.px_prover.specs.Outcomes.{IfShapeLimit};
ghost use Rattle.px_prover.specs.Standing.{ticks_in, IsStanding};

use crate::building::{build, least_objects};
use crate::outcome::{Answer, ProveErr};
use crate::question::ProofQuestion;
use px_base::{NoMemory, Sequence};
use px_ops::Model;
use px_proof_state::ProofState;
use px_proof_walk::{End, walk_to_finished};
use px_terms::{Atom, Problem};
use std::alloc::Global;

/// Returns the answer of a state in which no place is open.
fn answer(alloc: Global, question: &ProofQuestion, state: &ProofState) -> Result<Answer, NoMemory>
    requires strict { question.now.loose ≡ false }
    requires stands { IsStanding question.now.loose (setting_in question.now) question.now.formula.now question.now.variable_count state.now }
    requires first { ComesFirst (IsPossibleIn question.now) (IsFinishedIn question.now) question.now.problem.now.shapes
        (ticks_in state.now.choices) }
    ensures { IfOk result (λ answer. IsFirst (setting_in question.now) question.now.formula.now question.now.variable_count answer.objects
        (derivations (map_list derivation_of answer.proofs))) }
{
    let mut objects = least_objects(alloc, state.bind())?;
    let mut proofs = build(
        alloc,
        question.problem,
        question.facts,
        state.choices(),
        &objects,
    )?;
    proofs.reverse();
    objects.truncate(question.variable_count as usize);
    Ok(Answer {
        objects: Sequence::from_vec(objects),
        proofs: Sequence::from_vec(proofs),
    })
}

/// Returns the first finished proof of the formula from the facts of the model (after the prover of Fikes and Nilsson 1971). Only objects
/// of the problem stand in it, and its leaves are atoms of the problem. Where there is a variable, there has to be an object.
///
/// # Errors
/// `Unprovable` if there is no proof, `ShapeLimit` if as many shapes of unfinished lists as the shape limit come first, and
/// `NoMemory`. The clauses say that the first two come only then, and exclude each other.
pub fn prove(
    alloc: Global,
    problem: &Problem,
    formula: &[Atom],
    variable_count: u32,
    model: &Model,
) -> Result<Answer, ProveErr>
    requires problem { IsValid problem.now }
    requires formula { All (IsAtomOf problem.now variable_count) formula.now }
    requires few_variables { variable_count ≤ most_formula_variables }
    requires objects { 0 < variable_count → 0 < problem.now.objects }
    ensures first { IfOk result (λ answer. IsFirst (setting_of problem.now model.now.atoms) formula.now variable_count answer.objects
        (derivations (map_list derivation_of answer.proofs))) }
    ensures of_problem { IfOk result (λ answer. All (IsDerivationOf problem.now 0) (map_list derivation_of answer.proofs)) }
    ensures few { IfOk result (λ answer. (shapes : List (List Tick))
        → ¬ IsLimited (setting_of problem.now model.now.atoms) formula.now variable_count shapes) }
    ensures few_before { IfOk result (λ answer. AreFewBefore (setting_of problem.now model.now.atoms) formula.now variable_count
        (derivations (map_list derivation_of answer.proofs))) }
    ensures none { result ≡ Err ProveErr.Unprovable → ¬ IsAnswer (setting_of problem.now model.now.atoms) formula.now variable_count }
    ensures none_few { result ≡ Err ProveErr.Unprovable → (shapes : List (List Tick))
        → ¬ IsLimited (setting_of problem.now model.now.atoms) formula.now variable_count shapes }
    ensures few_shapes { result ≡ Err ProveErr.Unprovable → AreFewShapes (setting_of problem.now model.now.atoms) formula.now variable_count }
    ensures limited { IfShapeLimit result (IsLimited (setting_of problem.now model.now.atoms) formula.now variable_count) }
{
    let question = ProofQuestion {
        problem,
        formula,
        variable_count,
        facts: model.atoms(),
        loose: false,
    };
    let mut state = match ProofState::new(alloc, formula, variable_count, problem.height) {
        Ok(state) => state,
        Err(NoMemory) => return Err(ProveErr::NoMemory),
    };
    match walk_to_finished(alloc, &question, &mut state, problem.shapes) {
        Ok(End::Found) => match answer(alloc, &question, &state) {
            Ok(answer) => Ok(answer),
            Err(NoMemory) => Err(ProveErr::NoMemory),
        },
        Ok(End::NoMore) => Err(ProveErr::Unprovable),
        Ok(End::Limit(shapes)) => Err(ProveErr::ShapeLimit(shapes)),
        Err(NoMemory) => Err(ProveErr::NoMemory),
    }
}
