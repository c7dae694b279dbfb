//! The gaps of a formula.
ghost use Rattle.std.specs.Prelude.{◌≡◌, ◌<◌, ◌≤◌, ◌↔◌, List, All, Contains, IfOk, IsTrue};
ghost use Rattle.px_terms.specs.Limits.{most_formula_variables};
ghost use Rattle.px_proof.specs.declared.shape.Tick.{Tick};
ghost use Rattle.px_question.specs.Answers.{IsAnswer};
ghost use Rattle.px_question.specs.Gaps.{IsGapOf, MeetsGapLimit, StaysBelowGapLimit};
ghost use Rattle.px_question.specs.Settings.{setting_of};
ghost use Rattle.px_terms.specs.AtomSets.{IsAtomSet};
ghost use Rattle.px_terms.specs.Validity.{IsValid, IsAtomOf};
ghost use Rattle.px_terms.specs.declared.atom.Atom.{Atom};
ghost use Rattle.px_gaps.specs.Outcomes.{IfLimit};

use crate::ask_err::AskErr;
use crate::asker::Asker;
use crate::by_atoms::{asks_apart, gaps_by_atoms};
use crate::gap_answer::ask_closings;
use crate::missing::missing_by;
use px_ops::Model;
use px_terms::{Atom, NoMemory, Problem, Sequence};
use std::alloc::Global;

/// Returns the atoms of the set, as a list.
fn listed(alloc: Global, set: &Model) -> Result<Vec<Atom>, NoMemory>
    ensures order { IfOk result (λ atoms. IsAtomSet atoms.items) }
    ensures same { IfOk result (λ atoms. atoms.items ≡ set.now.atoms) }
{
    Ok(Sequence::from_slice(alloc, set.atoms())?.into_vec())
}

// Alike: `gaps`, whose clauses it has, since it is one of the two ways to them.
/// Returns the gaps of a formula without an answer, asking about the whole formula.
fn gaps_of_whole(
    alloc: Global,
    problem: &Problem,
    formula: &[Atom],
    variable_count: u32,
    model: &Model,
) -> Result<Vec<Atom>, AskErr>
    requires problem { IsValid problem.now }
    requires formula { All (IsAtomOf problem.now variable_count) formula.now }
    requires some_object { 0 < variable_count → 0 < problem.now.objects }
    requires few_variables { variable_count ≤ most_formula_variables }
    requires no_answer { ¬ IsAnswer (setting_of problem.now model.now.atoms) formula.now variable_count }
    ensures order { IfOk result (λ gaps. IsAtomSet gaps.items) }
    ensures exact { IfOk result (λ gaps. (atom : Atom) → Contains gaps.items atom
        ↔ IsGapOf (setting_of problem.now model.now.atoms) formula.now variable_count atom) }
    ensures unlimited { IfOk result (λ gaps. (kept : List Atom) (shapes : List (List Tick))
        → ¬ MeetsGapLimit (setting_of problem.now model.now.atoms) formula.now variable_count kept shapes) }
    ensures below { IfOk result (λ gaps. StaysBelowGapLimit (setting_of problem.now model.now.atoms) formula.now variable_count) }
    ensures limited { IfLimit result (MeetsGapLimit (setting_of problem.now model.now.atoms) formula.now variable_count) }
{
    let mut asker = Asker::new(alloc);
    let answer = ask_closings(&mut asker, problem, formula, variable_count, model)?;
    let missing = missing_by(alloc, problem.objects, &answer.patterns, &answer.provable)?;
    let gaps = listed(alloc, &missing)?;
    Ok(gaps)
}

/// Returns all gaps of a formula without an answer, ascending, each once: the atoms that are closed as gaps in some list of gap
/// proofs of it.
///
/// # Errors
/// `ShapeLimit`, with the formula itself, where as many unfinished gap proofs of it exist as the limit, by their shapes; and with one atom
/// alone, where a loose gap proof of the formula closes this atom and proving it meets the limit. `NoMemory` if there isn't enough memory.
pub fn gaps(
    alloc: Global,
    problem: &Problem,
    formula: &[Atom],
    variable_count: u32,
    model: &Model,
) -> Result<Vec<Atom>, AskErr>
    requires problem { IsValid problem.now }
    requires formula { All (IsAtomOf problem.now variable_count) formula.now }
    requires some_object { 0 < variable_count → 0 < problem.now.objects }
    requires few_variables { variable_count ≤ most_formula_variables }
    requires no_answer { ¬ IsAnswer (setting_of problem.now model.now.atoms) formula.now variable_count }
    ensures order { IfOk result (λ gaps. IsAtomSet gaps.items) }
    ensures exact { IfOk result (λ gaps. (atom : Atom) → Contains gaps.items atom
        ↔ IsGapOf (setting_of problem.now model.now.atoms) formula.now variable_count atom) }
    ensures unlimited { IfOk result (λ gaps. (kept : List Atom) (shapes : List (List Tick))
        → ¬ MeetsGapLimit (setting_of problem.now model.now.atoms) formula.now variable_count kept shapes) }
    ensures below { IfOk result (λ gaps. StaysBelowGapLimit (setting_of problem.now model.now.atoms) formula.now variable_count) }
    ensures limited { IfLimit result (MeetsGapLimit (setting_of problem.now model.now.atoms) formula.now variable_count) }
{
    if !asks_apart(problem, formula, variable_count) {
        return gaps_of_whole(alloc, problem, formula, variable_count, model);
    }
    match gaps_by_atoms(alloc, problem, formula, model) {
        Ok(Some(found)) => {
            let gaps = listed(alloc, &found)?;
            Ok(gaps)
        }
        Ok(None) => gaps_of_whole(alloc, problem, formula, variable_count, model),
        Err(NoMemory) => Err(AskErr::NoMemory),
    }
}
