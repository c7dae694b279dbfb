//! Asking the prover, and counting. Apart from this, only [`try_formula`](crate::try_formula) and [`gaps`](crate::gaps) ask it.
ghost use Rattle.std.specs.Prelude.{◌≡◌, ◌≤◌, ◌<◌, List, map as map_list, IfOk, All};
ghost use Rattle.px_prover.specs.Limits.{most_gap_variables};
ghost use Rattle.px_terms.specs.Limits.{most_formula_variables};
ghost use Rattle.px_proof.specs.Derivation.{derivations};
ghost use Rattle.px_proof.specs.ProofTerm.{derivation_of};
ghost use Rattle.px_proof.specs.declared.shape.Tick.{Tick};
ghost use Rattle.px_prover.specs.Outcomes.{IfGapLimit, IfShapeLimit};
ghost use Rattle.px_prover.specs.Patterns.{AreGapPatterns};
ghost use Rattle.px_question.specs.Answers.{IsAnswer, IsFirst};
ghost use Rattle.px_question.specs.Limits.{AreFewBefore, AreFewGapShapes, AreFewShapes, IsGapLimited, IsLimited};
ghost use Rattle.px_question.specs.Settings.{setting_of};
ghost use Rattle.px_terms.specs.Validity.{IsValid, IsAtomOf};
ghost use Rattle.px_base.specs.Counting.{next_count};

use px_ops::Model;
use px_prover::{Answer, GapErr, GapPattern, ProveErr, gap_patterns, prove};
use px_terms::{Atom, Problem};
use std::alloc::Global;

/// Asks the prover, and counts the questions.
#[derive(Drop)]
pub struct Asker {
    /// Where memory is taken from.
    pub alloc: Global,
    /// How many questions were asked; the greatest number if there were more.
    pub questions: u64,
}

impl Asker {
    /// Returns an asker that has asked nothing.
    pub fn new(alloc: Global) -> Asker
        ensures { result.questions ≡ 0 }
    {
        Asker {
            alloc,
            questions: 0,
        }
    }

    // Alike: `gap_patterns` and `prove` of px_prover, whose clauses the two methods repeat, since they pass on what is answered.
    /// Asks for the gap patterns of the formula: one question.
    pub fn gap_patterns(
        &mut self,
        problem: &Problem,
        formula: &[Atom],
        variable_count: u32,
        model: &Model,
    ) -> Result<Vec<GapPattern>, GapErr>
        requires problem { IsValid problem.now }
        requires formula { All (IsAtomOf problem.now variable_count) formula.now }
        requires few_variables { variable_count ≤ most_gap_variables }
        requires some_object { 0 < variable_count → 0 < problem.now.objects }
        ensures counted { self.new.questions ≡ next_count self.old.questions }
        ensures patterns { IfOk result (λ patterns. AreGapPatterns (setting_of problem.now model.now.atoms) formula.now variable_count
            patterns.items) }
        ensures few { IfOk result (λ patterns. AreFewGapShapes (setting_of problem.now model.now.atoms) formula.now variable_count) }
        ensures limited { IfGapLimit result (IsGapLimited (setting_of problem.now model.now.atoms) formula.now variable_count) }
    {
        self.questions = self.questions.saturating_add(1);
        gap_patterns(self.alloc, problem, formula, variable_count, model)
    }

    /// Asks for the first proof of the formula: one question.
    pub fn prove(
        &mut self,
        problem: &Problem,
        formula: &[Atom],
        variable_count: u32,
        model: &Model,
    ) -> Result<Answer, ProveErr>
        requires problem { IsValid problem.now }
        requires formula { All (IsAtomOf problem.now variable_count) formula.now }
        requires few_variables { variable_count ≤ most_formula_variables }
        requires objects { 0 < variable_count → 0 < problem.now.objects }
        ensures counted { self.new.questions ≡ next_count self.old.questions }
        ensures first { IfOk result (λ answer. IsFirst (setting_of problem.now model.now.atoms) formula.now variable_count answer.objects
            (derivations (map_list derivation_of answer.proofs))) }
        ensures few { IfOk result (λ answer. (shapes : List (List Tick))
            → ¬ IsLimited (setting_of problem.now model.now.atoms) formula.now variable_count shapes) }
        ensures few_before { IfOk result (λ answer. AreFewBefore (setting_of problem.now model.now.atoms) formula.now variable_count
            (derivations (map_list derivation_of answer.proofs))) }
        ensures none { result ≡ Err ProveErr.Unprovable → ¬ IsAnswer (setting_of problem.now model.now.atoms) formula.now variable_count }
        ensures none_few { result ≡ Err ProveErr.Unprovable → (shapes : List (List Tick))
            → ¬ IsLimited (setting_of problem.now model.now.atoms) formula.now variable_count shapes }
        ensures few_shapes { result ≡ Err ProveErr.Unprovable → AreFewShapes (setting_of problem.now model.now.atoms) formula.now variable_count }
        ensures limited { IfShapeLimit result (IsLimited (setting_of problem.now model.now.atoms) formula.now variable_count) }
    {
        self.questions = self.questions.saturating_add(1);
        prove(self.alloc, problem, formula, variable_count, model)
    }
}
