//! The facts of a world model that decide which entries are open.
ghost use Rattle.std.specs.Prelude.{◌≡◌, ◌↔◌, ◌⊎◌, Any, Contains, IfOk, IfSome, IsTrue, MatchBool, OnOk};
ghost use Rattle.px_terms.specs.AtomSets.{with_atom};
ghost use Rattle.px_terms.specs.Instances.{IsGround};
ghost use Rattle.px_terms.specs.Validity.{IsValid};
ghost use Rattle.px_terms.specs.declared.clause.Lit.{Lit as LitValue};
ghost use Rattle.px_entries.specs.Deciding.{AreDeciding, IsDeciding, IsMentioned};
ghost use Rattle.px_entries.specs.Decisions.{IsRightDecision};

use px_ops::{Model, is_addable};
use px_terms::{Atom, Lit, NoMemory, Problem};
use std::alloc::Global;

/// Returns whether one of the literals is about the predicate.
fn mentions(lits: &[Lit], pred: u32) -> bool
    ensures { IsTrue result ↔ Any (λ (lit : LitValue). lit.atom.pred ≡ pred) lits.now }
{
    lits.iter().any(|lit| lit.atom.pred() == pred)
}

/// Returns whether some axiom mentions the predicate.
fn is_mentioned(problem: &Problem, pred: u32) -> bool
    ensures { IsTrue result ↔ IsMentioned problem.now.axioms pred }
{
    for number in 0..problem.axioms.count() {
        if mentions(problem.axioms.lits(number), pred) {
            return true;
        }
    }
    false
}

/// Returns whether the atom decides: whether no operator adds its predicate, or some axiom mentions it.
fn decides(problem: &Problem, atom: &Atom) -> bool
    ensures { IsTrue result ↔ IsDeciding problem.now atom.now }
{
    !is_addable(problem, atom) || is_mentioned(problem, atom.pred())
}

/// Whether the atoms of a predicate decide.
#[derive(Clone, Copy)]
pub struct Decision {
    pub pred: u32,
    pub decides: bool,
}

/// Returns whether the atoms of this one's predicate decide.
fn decision_of(problem: &Problem, atom: &Atom) -> Decision
    ensures pred { result.pred ≡ atom.now.pred }
    ensures right { IsRightDecision problem.now result }
{
    Decision {
        pred: atom.pred(),
        decides: decides(problem, atom),
    }
}

/// Returns whether the atoms of this one's predicate decide, taken from the atom before where that has the same predicate, as it mostly
/// has: the facts of a model stand by predicate.
fn decision_after(problem: &Problem, last: Option<Decision>, atom: &Atom) -> Decision
    requires last { IfSome last (IsRightDecision problem.now) }
    ensures pred { result.pred ≡ atom.now.pred }
    ensures right { IsRightDecision problem.now result }
{
    match last {
        Some(decision) if decision.pred == atom.pred() => decision,
        _ => decision_of(problem, atom),
    }
}

/// Adds the atom, if it is wanted.
fn insert_if(part: &mut Model, atom: Atom, is_wanted: bool) -> Result<(), NoMemory>
    requires { IsGround atom }
    ensures { OnOk result (MatchBool is_wanted (part.new.atoms ≡ with_atom atom part.old.atoms) (part.new.atoms ≡ part.old.atoms)) }
{
    if is_wanted {
        part.insert(atom)?;
    }
    Ok(())
}

/// Returns the deciding facts of a world model: those whose predicate no operator adds, or some axiom mentions. The same entries may
/// be pushed in all models with the same deciding facts (`relevance_over_models`).
///
/// # Errors
/// `NoMemory` if there isn't enough memory for the copy.
pub fn deciding_part(alloc: Global, problem: &Problem, model: &Model) -> Result<Model, NoMemory>
    requires problem { IsValid problem.now }
    ensures { IfOk result (λ part. AreDeciding problem.now model.now.atoms part.atoms) }
{
    let facts = model.atoms();
    let mut part = Model::new(alloc);
    let mut last = None;
    for atom in facts {
        let here = decision_after(problem, last, atom);
        insert_if(&mut part, *atom, here.decides)?;
        last = Some(here);
    }
    Ok(part)
}
