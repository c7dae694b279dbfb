//! Which instances of atoms have a proof. Where no axiom concludes an atom's predicate, these are facts. Else an atom with variables is
//! one question, and only where the answer isn't that none of its instances has a proof, one of its variables is bound to each object in
//! turn.
ghost use Rattle.std.specs.Prelude.{◌≡◌, ◌↔◌, ◌⊎◌, ◌≤◌, ◌<◌, [], ◌∷◌, length, List, All, Contains, MatchBool, IsTrue, IfOk, OnOk};
ghost use Rattle.px_terms.specs.Limits.{most_arguments};
ghost use Rattle.px_proof.specs.declared.shape.Tick.{Tick};
ghost use Rattle.px_question.specs.Answers.{IsAnswer, IsProvable};
ghost use Rattle.px_question.specs.Limits.{AreFewShapes, IsLimited};
ghost use Rattle.px_question.specs.Settings.{setting_of};
ghost use Rattle.px_terms.specs.Validity.{IsValid, IsAtomOf};
ghost use Rattle.px_gaps.specs.Bindings.{IsBinding, IsInstanceUnder};
ghost use Rattle.px_gaps.specs.Forms.{IsForm, IsInstanceIn, IsStoodFor};
ghost use Rattle.px_gaps.specs.Outcomes.{IfLimit};
ghost use Rattle.px_gaps.specs.Provable.{FindsProvable, LimitsOne};

use crate::ask_err::AskErr;
use crate::asker::Asker;
use crate::bindings::{bound, open_variable, unbound};
use crate::facts::{insert_facts, is_concluded};
use px_ops::Model;
use px_prover::ProveErr;
use px_terms::{Atom, NoMemory, Problem, Sequence, Term, apply};
use std::alloc::Global;

/// Returns whether the atom, which has no variables, has a proof from the facts of the model.
///
/// # Errors
/// `ShapeLimit` where proving it meets the shape limit, with the atom alone and the first shapes.
/// `NoMemory` if there isn't enough memory.
pub fn is_provable(
    asker: &mut Asker,
    problem: &Problem,
    model: &Model,
    atom: &Atom,
) -> Result<bool, AskErr>
    requires problem { IsValid problem.now }
    requires atom { IsAtomOf problem.now 0 atom.now }
    ensures answer { IfOk result (λ yes. MatchBool yes (IsProvable (setting_of problem.now model.now.atoms) atom.now)
        (¬ IsProvable (setting_of problem.now model.now.atoms) atom.now)) }
    ensures few { IfOk result (λ yes. (shapes : List (List Tick))
        → ¬ IsLimited (setting_of problem.now model.now.atoms) (atom.now ∷ []) 0 shapes) }
    ensures limited { IfLimit result (λ formula shapes. (formula ≡ atom.now ∷ [])
        × IsLimited (setting_of problem.now model.now.atoms) (atom.now ∷ []) 0 shapes) }
{
    let formula = [*atom];
    match asker.prove(problem, &formula, 0, model) {
        Ok(_) => Ok(true),
        Err(ProveErr::Unprovable) => Ok(false),
        Err(ProveErr::ShapeLimit(shapes)) => {
            let formula = Sequence::from_slice(asker.alloc, &formula)?;
            let shapes = Sequence::from_vec(shapes);
            Err(AskErr::ShapeLimit { formula, shapes })
        }
        Err(ProveErr::NoMemory) => Err(AskErr::NoMemory),
    }
}

/// Puts the atom into the set, where it has a proof.
fn insert_provable(
    asker: &mut Asker,
    found: &mut Model,
    problem: &Problem,
    model: &Model,
    atom: &Atom,
) -> Result<(), AskErr>
    requires problem { IsValid problem.now }
    requires atom { IsAtomOf problem.now 0 atom.now }
    ensures found { OnOk result (FindsProvable (setting_of problem.now model.now.atoms) (λ q. atom.now ≡ q) found.old.atoms
        found.new.atoms) }
    ensures limited { IfLimit result (LimitsOne (setting_of problem.now model.now.atoms) (λ q. atom.now ≡ q)) }
{
    if !is_provable(asker, problem, model, atom)? {
        return Ok(());
    }
    found.insert(*atom)?;
    Ok(())
}

/// Returns whether one question shows that no instance of the atom has a proof, and that proving none meets the limit.
fn has_none(
    asker: &mut Asker,
    problem: &Problem,
    model: &Model,
    atom: &Atom,
    variable_count: u32,
) -> Result<bool, NoMemory>
    requires problem { IsValid problem.now }
    requires atom { IsAtomOf problem.now variable_count atom.now }
    requires few_variables { variable_count ≤ most_arguments }
    requires some_object { 0 < variable_count → 0 < problem.now.objects }
    ensures none { IfOk result (λ none. IsTrue none → ¬ IsAnswer (setting_of problem.now model.now.atoms) (atom.now ∷ []) variable_count) }
    ensures few { IfOk result (λ none. IsTrue none → AreFewShapes (setting_of problem.now model.now.atoms) (atom.now ∷ []) variable_count) }
{
    match asker.prove(problem, &[*atom], variable_count, model) {
        Err(ProveErr::Unprovable) => Ok(true),
        Ok(_) => Ok(false),
        Err(ProveErr::ShapeLimit(_)) => Ok(false),
        Err(ProveErr::NoMemory) => Err(NoMemory),
    }
}

/// Puts the instances of the form, with the objects that are chosen, into the set, as far as they have a proof. Each recursive call has
/// one variable less.
fn insert_instances(
    asker: &mut Asker,
    found: &mut Model,
    problem: &Problem,
    model: &Model,
    terms: &[Term],
    form: &Atom,
) -> Result<(), AskErr>
    requires problem { IsValid problem.now }
    requires form { IsAtomOf problem.now (length terms.now) form.now }
    requires few { length terms.now ≤ most_arguments }
    requires binding { IsBinding problem.now.objects terms.now }
    ensures found { OnOk result (FindsProvable (setting_of problem.now model.now.atoms)
        (IsInstanceUnder problem.now.objects terms.now form.now) found.old.atoms found.new.atoms) }
    ensures limited { IfLimit result (LimitsOne (setting_of problem.now model.now.atoms)
        (IsInstanceUnder problem.now.objects terms.now form.now)) }
{
    let here = apply(terms, form);
    let variable = match open_variable(terms, form) {
        Some(variable) => variable,
        None => return insert_provable(asker, found, problem, model, &here),
    };
    if has_none(asker, problem, model, &here, terms.len() as u32)? {
        return Ok(());
    }
    for object in 0..problem.objects {
        let next = bound(asker.alloc, terms, variable, object)?;
        insert_instances(asker, found, problem, model, &next, form)?;
    }
    Ok(())
}

/// Puts the instances of the form that have a proof into the set. Where no axiom concludes its predicate, the prover isn't asked.
fn insert_form(
    asker: &mut Asker,
    found: &mut Model,
    problem: &Problem,
    model: &Model,
    form: &Atom,
) -> Result<(), AskErr>
    requires problem { IsValid problem.now }
    requires form { IsForm problem.now form.now }
    ensures found { OnOk result (FindsProvable (setting_of problem.now model.now.atoms) (IsInstanceIn problem.now.objects form.now)
        found.old.atoms found.new.atoms) }
    ensures limited { IfLimit result (LimitsOne (setting_of problem.now model.now.atoms) (IsInstanceIn problem.now.objects form.now)) }
{
    let is_derived = is_concluded(problem, form.pred());
    if is_derived {
        let terms = unbound(asker.alloc, form.args().len() as u32)?;
        return insert_instances(asker, found, problem, model, &terms, form);
    }
    insert_facts(found, problem, model, form)?;
    Ok(())
}

/// Returns the instances of the forms that have a proof.
pub fn provable_of(
    asker: &mut Asker,
    problem: &Problem,
    model: &Model,
    forms: &[Atom],
) -> Result<Model, AskErr>
    requires problem { IsValid problem.now }
    requires forms { All (IsForm problem.now) forms.now }
    ensures found { IfOk result (λ provable. FindsProvable (setting_of problem.now model.now.atoms)
        (IsStoodFor problem.now.objects forms.now) [] provable.atoms) }
    ensures limited { IfLimit result (LimitsOne (setting_of problem.now model.now.atoms) (IsStoodFor problem.now.objects forms.now)) }
{
    let mut provable = Model::new(asker.alloc);
    for form in forms {
        insert_form(asker, &mut provable, problem, model, form)?;
    }
    Ok(provable)
}
