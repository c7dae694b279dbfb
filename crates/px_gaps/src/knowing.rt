//! Whether a formula has an answer, and what is known of one that has none.
ghost use Rattle.std.specs.Prelude.{◌≡◌, ◌<◌, ◌≤◌, ◌∷◌, [], All, IfOk};
ghost use Rattle.px_terms.specs.Limits.{most_formula_variables};
ghost use Rattle.px_terms.specs.Validity.{IsValid, IsAtomOf};
ghost use Rattle.px_gaps.specs.Needs.{HasAnswer};
ghost use Rattle.px_gaps.specs.Known.{IsKnownOf, IsTriedOf};

use crate::ask_err::AskErr;
use crate::differences::gaps;
use crate::known::{Known, Tried};
use crate::question::{MetLimit, Obligation, Question};
use px_ops::Model;
use px_prover::{ProveErr, prove};
use px_terms::{Atom, NoMemory, Problem, Sequence};
use std::alloc::Global;

/// Returns what is needed: the formula, from the facts of the model.
fn needed(
    alloc: Global,
    formula: &[Atom],
    variable_count: u32,
    model: &Model,
) -> Result<Obligation, NoMemory>
    ensures { IfOk result (λ needed'. needed' ≡ record { formula = formula.now; variable_count = variable_count; facts = model.now.atoms }) }
{
    let formula = Sequence::from_slice(alloc, formula)?;
    let facts = Sequence::from_slice(alloc, model.atoms())?;
    Ok(Obligation {
        formula,
        variable_count,
        facts,
    })
}

/// Returns whether the formula has an answer from the facts of the model: some objects for its variables that make each of its atoms
/// provable. Each answer is exact; the first two also say that proving it stays below the shape limit.
///
/// # Errors
/// `NoMemory` if there isn't enough memory.
pub fn try_formula(
    alloc: Global,
    problem: &Problem,
    formula: &[Atom],
    variable_count: u32,
    model: &Model,
) -> Result<Tried, NoMemory>
    requires problem { IsValid problem.now }
    requires formula { All (IsAtomOf problem.now variable_count) formula.now }
    requires few_variables { variable_count ≤ most_formula_variables }
    requires some_object { 0 < variable_count → 0 < problem.now.objects }
    ensures { IfOk result (IsTriedOf problem.now (record { formula = formula.now; variable_count = variable_count; facts = model.now.atoms })) }
{
    match prove(alloc, problem, formula, variable_count, model) {
        Ok(_) => Ok(Tried::Answered),
        Err(ProveErr::Unprovable) => Ok(Tried::Unanswered),
        Err(ProveErr::ShapeLimit(shapes)) => {
            let asked = needed(alloc, formula, variable_count, model)?;
            let formula = Sequence::from_slice(alloc, formula)?;
            let shapes = Sequence::from_vec(shapes);
            let question = Question::Proving(asked);
            let limit = MetLimit {
                question,
                formula,
                shapes,
            };
            Ok(Tried::Limited(limit))
        }
        Err(ProveErr::NoMemory) => Err(NoMemory),
    }
}

/// Returns what is known of a formula that has no answer from the facts of the model: its gaps, that it has no gap, or that finding them
/// meets the shape limit.
///
/// # Errors
/// `NoMemory` if there isn't enough memory.
pub fn known_formula(
    alloc: Global,
    problem: &Problem,
    formula: &[Atom],
    variable_count: u32,
    model: &Model,
) -> Result<Known, NoMemory>
    requires problem { IsValid problem.now }
    requires formula { All (IsAtomOf problem.now variable_count) formula.now }
    requires few_variables { variable_count ≤ most_formula_variables }
    requires some_object { 0 < variable_count → 0 < problem.now.objects }
    requires no_answer { ¬ HasAnswer problem.now (record { formula = formula.now; variable_count = variable_count; facts = model.now.atoms }) }
    ensures { IfOk result (IsKnownOf problem.now (record { formula = formula.now; variable_count = variable_count; facts = model.now.atoms } ∷ [])) }
{
    match gaps(alloc, problem, formula, variable_count, model) {
        Ok(found) => {
            if found.is_empty() {
                return Ok(Known::Closed);
            }
            Ok(Known::Open(Sequence::from_vec(found)))
        }
        Err(
            AskErr::ShapeLimit {
                formula: kept,
                shapes,
            },
        ) => {
            let asked = needed(alloc, formula, variable_count, model)?;
            let question = Question::FindingGaps(asked);
            let limit = MetLimit {
                question,
                formula: kept,
                shapes,
            };
            Ok(Known::Limited(limit))
        }
        Err(AskErr::NoMemory) => Err(NoMemory),
    }
}
