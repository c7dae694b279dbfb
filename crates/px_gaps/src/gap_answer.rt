//! One question of gaps, and what it says of a formula.
ghost use Rattle.std.specs.Prelude.{◌<◌, ◌≤◌, All, IfOk};
ghost use Rattle.px_prover.specs.Limits.{most_gap_variables};
ghost use Rattle.px_question.specs.Gaps.{MeetsGapLimit};
ghost use Rattle.px_question.specs.Limits.{AreFewGapShapes};
ghost use Rattle.px_question.specs.Settings.{setting_of};
ghost use Rattle.px_prover.specs.Patterns.{AreGapClosings, AreGapPatterns};
ghost use Rattle.px_terms.specs.Validity.{IsValid, IsAtomOf};
ghost use Rattle.px_gaps.specs.GapAnswers.{IsClosingAnswer, IsGapAnswer};
ghost use Rattle.px_gaps.specs.Outcomes.{IfLimit};

use crate::ask_err::AskErr;
use crate::asker::Asker;
use crate::asking::provable_of;
use crate::forms::forms_of;
use px_ops::Model;
use px_prover::{GapErr, GapPattern, gap_closings};
use px_terms::{Atom, Problem, Sequence};

/// What a question of gaps says of a formula.
#[derive(Drop)]
pub struct GapAnswer {
    /// The gap patterns of the formula, with their terms or without them.
    pub patterns: Vec<GapPattern>,
    /// Those of the atoms that they close which have a proof.
    pub provable: Model,
}

// Alike: `gap_patterns` of px_prover, whose clauses it repeats, since it passes on what is answered; only the error differs.
/// Returns the gap patterns of the formula.
fn patterns_of(
    asker: &mut Asker,
    problem: &Problem,
    formula: &[Atom],
    variable_count: u32,
    model: &Model,
) -> Result<Vec<GapPattern>, AskErr>
    requires problem { IsValid problem.now }
    requires formula { All (IsAtomOf problem.now variable_count) formula.now }
    requires few_variables { variable_count ≤ most_gap_variables }
    requires some_object { 0 < variable_count → 0 < problem.now.objects }
    ensures patterns { IfOk result (λ patterns. AreGapPatterns (setting_of problem.now model.now.atoms) formula.now variable_count patterns.items) }
    ensures few { IfOk result (λ patterns. AreFewGapShapes (setting_of problem.now model.now.atoms) formula.now variable_count) }
    ensures limited { IfLimit result (MeetsGapLimit (setting_of problem.now model.now.atoms) formula.now variable_count) }
{
    match asker.gap_patterns(problem, formula, variable_count, model) {
        Ok(patterns) => Ok(patterns),
        Err(GapErr::ShapeLimit(shapes)) => {
            let formula = Sequence::from_slice(asker.alloc, formula)?;
            let shapes = Sequence::from_vec(shapes);
            Err(AskErr::ShapeLimit { formula, shapes })
        }
        Err(GapErr::NoMemory) => Err(AskErr::NoMemory),
    }
}

/// Asks for the gaps of a formula: its patterns, and which of the atoms that they close have a proof.
///
/// # Errors
/// `ShapeLimit`, with the formula itself, where as many unfinished gap proofs of it exist as the limit, by their shapes; and with one atom
/// alone, where a loose gap proof of the formula closes this atom and proving it meets the limit. `NoMemory` if there isn't enough memory.
pub fn ask_gaps(
    asker: &mut Asker,
    problem: &Problem,
    formula: &[Atom],
    variable_count: u32,
    model: &Model,
) -> Result<GapAnswer, AskErr>
    requires problem { IsValid problem.now }
    requires formula { All (IsAtomOf problem.now variable_count) formula.now }
    requires few_variables { variable_count ≤ most_gap_variables }
    requires some_object { 0 < variable_count → 0 < problem.now.objects }
    ensures answer { IfOk result (λ answer. IsGapAnswer (setting_of problem.now model.now.atoms) formula.now variable_count answer.patterns.items
        answer.provable.atoms) }
    ensures limited { IfLimit result (MeetsGapLimit (setting_of problem.now model.now.atoms) formula.now variable_count) }
{
    let patterns = patterns_of(asker, problem, formula, variable_count, model)?;
    let forms = forms_of(asker.alloc, &patterns)?;
    let provable = provable_of(asker, problem, model, &forms)?;
    Ok(GapAnswer { patterns, provable })
}

// Alike: `patterns_of`, which asks for the terms, too, and counts the question.
/// Returns the gap patterns of the formula without their terms.
fn closings_of(
    asker: &mut Asker,
    problem: &Problem,
    formula: &[Atom],
    variable_count: u32,
    model: &Model,
) -> Result<Vec<GapPattern>, AskErr>
    requires problem { IsValid problem.now }
    requires formula { All (IsAtomOf problem.now variable_count) formula.now }
    requires few_variables { variable_count ≤ most_gap_variables }
    requires some_object { 0 < variable_count → 0 < problem.now.objects }
    ensures closings { IfOk result (λ closings. AreGapClosings (setting_of problem.now model.now.atoms) formula.now variable_count closings.items) }
    ensures few { IfOk result (λ closings. AreFewGapShapes (setting_of problem.now model.now.atoms) formula.now variable_count) }
    ensures limited { IfLimit result (MeetsGapLimit (setting_of problem.now model.now.atoms) formula.now variable_count) }
{
    match gap_closings(asker.alloc, problem, formula, variable_count, model) {
        Ok(closings) => Ok(closings),
        Err(GapErr::ShapeLimit(shapes)) => {
            let formula = Sequence::from_slice(asker.alloc, formula)?;
            let shapes = Sequence::from_vec(shapes);
            Err(AskErr::ShapeLimit { formula, shapes })
        }
        Err(GapErr::NoMemory) => Err(AskErr::NoMemory),
    }
}

// Alike: `ask_gaps`, whose answer has the terms of its patterns, too; so its clauses but one are the same.
/// Asks for the gaps of a formula, whatever the objects for its variables: its patterns without their terms, and which of the atoms that
/// they close have a proof.
///
/// # Errors
/// Those of [`ask_gaps`].
pub(crate) fn ask_closings(
    asker: &mut Asker,
    problem: &Problem,
    formula: &[Atom],
    variable_count: u32,
    model: &Model,
) -> Result<GapAnswer, AskErr>
    requires problem { IsValid problem.now }
    requires formula { All (IsAtomOf problem.now variable_count) formula.now }
    requires few_variables { variable_count ≤ most_gap_variables }
    requires some_object { 0 < variable_count → 0 < problem.now.objects }
    ensures answer { IfOk result (λ answer. IsClosingAnswer (setting_of problem.now model.now.atoms) formula.now variable_count
        answer.patterns.items answer.provable.atoms) }
    ensures limited { IfLimit result (MeetsGapLimit (setting_of problem.now model.now.atoms) formula.now variable_count) }
{
    let patterns = closings_of(asker, problem, formula, variable_count, model)?;
    let forms = forms_of(asker.alloc, &patterns)?;
    let provable = provable_of(asker, problem, model, &forms)?;
    Ok(GapAnswer { patterns, provable })
}
