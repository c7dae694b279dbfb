//! The row of the goal: its proofs prove the goal's atoms under one choice of terms for its variables.
ghost use Rattle.std.specs.Prelude.{◌≡◌, ◌↔◌, ◌+◌, List, All, IsTrue, map};
ghost use Rattle.px_terms.specs.declared.atom.Atom.{Atom};
ghost use Rattle.px_terms.specs.Validity.{IsAtomOf};
ghost use Rattle.px_proof.specs.ProofTerm.{derivation_of};
ghost use Rattle.px_proof.specs.Proves.{IsObjectOrParameter};
ghost use Rattle.px_table.specs.Choices.{term_if, term_beside, choice_of, chosen_or_any, term_by, atom_by};
ghost use Rattle.px_table.specs.Conclusions.{AreConclusions, IsConclusion};
ghost use Rattle.px_table.specs.Supports.{ProvesGoal};

use crate::conclusions::{conclusion, each_proves_some};
use px_proof::Proof;
use px_terms::{Atom, ClauseArena, Problem, Term};

/// Returns the term, if `pattern` is the variable.
fn beside(variable: u32, pattern: Term, term: Term) -> Option<Term>
    ensures { result ≡ term_if variable pattern term }
{
    match pattern {
        Term::Var(number) => { if number == variable { Some(term) } else { None } }
        Term::Obj(_) | Term::Any => None,
    }
}

/// Returns the term that stands where the variable stands first among the patterns.
fn first_beside(variable: u32, patterns: &[Term], terms: &[Term]) -> Option<Term>
    ensures { result ≡ term_beside variable patterns.now terms.now }
{
    for (k, pattern) in patterns.iter().enumerate() {
        if k >= terms.len() {
            return None;
        }
        if let Some(term) = beside(variable, *pattern, terms[k]) {
            return Some(term);
        }
    }
    None
}

/// Returns the term that the conclusion of the proof has where the variable stands first in the pattern.
fn term_of_proof(axioms: &ClauseArena, variable: u32, pattern: &Atom, proof: &Proof) -> Option<Term>
    ensures { (atom : Atom) → IsConclusion axioms.now atom proof.now → result ≡ term_beside variable pattern.now.args atom.args }
{
    match conclusion(axioms, proof) {
        Some(atom) => first_beside(variable, pattern.args(), atom.args()),
        None => None,
    }
}

/// Returns the term that the conclusions of the row have where the variable stands first in the goal.
fn choice(axioms: &ClauseArena, goal: &[Atom], row: &[Proof], variable: u32) -> Term
    ensures { (atoms : List Atom) → AreConclusions axioms.now atoms row.now → result ≡ chosen_or_any (choice_of variable goal.now atoms) }
{
    for (k, pattern) in goal.iter().enumerate() {
        if k >= row.len() {
            return Term::Any;
        }
        if let Some(term) = term_of_proof(axioms, variable, pattern, &row[k]) {
            return term;
        }
    }
    Term::Any
}

/// Returns the term of the goal, with the choice for a variable that is no parameter.
fn chosen(axioms: &ClauseArena, params: u32, goal: &[Atom], row: &[Proof], term: Term) -> Term
    ensures { (atoms : List Atom) → AreConclusions axioms.now atoms row.now → result ≡ term_by params goal.now atoms term }
{
    match term {
        Term::Var(number) => {
            if number < params {
                term
            } else {
                choice(axioms, goal, row, number)
            }
        }
        Term::Obj(_) | Term::Any => term,
    }
}

/// Returns whether the terms are those of the pattern with the choices.
fn are_chosen(
    axioms: &ClauseArena,
    params: u32,
    goal: &[Atom],
    row: &[Proof],
    patterns: &[Term],
    terms: &[Term],
) -> bool
    ensures { (atoms : List Atom) → AreConclusions axioms.now atoms row.now → IsTrue result
        ↔ (map (term_by params goal.now atoms) patterns.now ≡ terms.now) }
{
    if patterns.len() != terms.len() {
        return false;
    }
    for (k, pattern) in patterns.iter().enumerate() {
        if chosen(axioms, params, goal, row, *pattern) != terms[k] {
            return false;
        }
    }
    true
}

/// Returns whether the conclusion of the proof is the pattern with the choices.
fn concludes(
    axioms: &ClauseArena,
    params: u32,
    goal: &[Atom],
    row: &[Proof],
    pattern: &Atom,
    proof: &Proof,
) -> bool
    ensures { (atoms : List Atom) (atom : Atom) → AreConclusions axioms.now atoms row.now → IsConclusion axioms.now atom proof.now
        → IsTrue result ↔ (atom_by params goal.now atoms pattern.now ≡ atom) }
{
    match conclusion(axioms, proof) {
        Some(atom) => {
            atom.pred() == pattern.pred()
                && are_chosen(axioms, params, goal, row, pattern.args(), atom.args())
        }
        None => false,
    }
}

/// Returns whether the conclusions of the row are the goal with the choices.
fn row_concludes(axioms: &ClauseArena, params: u32, goal: &[Atom], row: &[Proof]) -> bool
    ensures { (atoms : List Atom) → AreConclusions axioms.now atoms row.now → IsTrue result
        ↔ (map (atom_by params goal.now atoms) goal.now ≡ atoms) }
{
    if goal.len() != row.len() {
        return false;
    }
    for (k, pattern) in goal.iter().enumerate() {
        if !concludes(axioms, params, goal, row, pattern, &row[k]) {
            return false;
        }
    }
    true
}

/// Returns whether the proofs prove the goal under some terms for its own variables, which follow the parameters.
pub fn goal_is_proved(
    problem: &Problem,
    params: u32,
    goal_variable_count: u32,
    goal: &[Atom],
    row: &[Proof],
) -> bool
    requires { All (IsAtomOf problem.now (params + goal_variable_count)) goal.now }
    ensures { IsTrue result ↔ ProvesGoal (IsObjectOrParameter problem.now.objects params) problem.now.axioms params goal.now goal_variable_count
        (map derivation_of row.now) }
{
    each_proves_some(&problem.axioms, problem.objects, params, row)
        && row_concludes(&problem.axioms, params, goal, row)
}
