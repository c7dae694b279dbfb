//! Which instances of an atom have a proof, where no axiom concludes its predicate: those that are facts. So the prover isn't asked.
ghost use Rattle.std.specs.Prelude.{◌≡◌, ◌↔◌, ◌⊎◌, All, Contains, IsTrue, OnOk};
ghost use Rattle.px_terms.specs.Instances.{IsGround};
ghost use Rattle.px_terms.specs.declared.atom.Atom.{Atom as AtomValue};
ghost use Rattle.px_gaps.specs.Concluding.{Asserts, IsConcluded};
ghost use Rattle.px_gaps.specs.Forms.{IsForm, IsInstanceIn};

use px_ops::Model;
use px_proof_state::places_of;
use px_terms::{Atom, Lit, NoMemory, Problem, apply, are_objects_below};

/// Returns whether one of the literals asserts an atom of the predicate.
fn asserts(lits: &[Lit], pred: u32) -> bool
    ensures { IsTrue result ↔ Asserts pred lits.now }
{
    lits.iter()
        .any(|lit| lit.positive && lit.atom.pred() == pred)
}

/// Returns whether some axiom concludes the predicate.
pub fn is_concluded(problem: &Problem, pred: u32) -> bool
    ensures { IsTrue result ↔ IsConcluded problem.now.axioms pred }
{
    for number in 0..problem.axioms.count() {
        if asserts(problem.axioms.lits(number), pred) {
            return true;
        }
    }
    false
}

/// Returns whether the fact is an instance of the form. The object for a variable stands in the fact where the variable stands first in
/// the form.
fn is_instance(problem: &Problem, form: &Atom, fact: &Atom) -> bool
    requires { IsForm problem.now form.now }
    ensures { IsTrue result ↔ IsInstanceIn problem.now.objects form.now fact.now }
{
    let objects = fact.args();
    if fact.pred() != form.pred() || objects.len() != form.args().len() {
        return false;
    }
    are_objects_below(problem.objects, objects) && apply(objects, form) == *fact
}

/// Puts the fact into the set, where it is an instance of the form.
fn insert_instance(
    found: &mut Model,
    problem: &Problem,
    form: &Atom,
    fact: &Atom,
) -> Result<(), NoMemory>
    requires form { IsForm problem.now form.now }
    requires is_ground { IsGround fact.now }
    ensures { OnOk result ((q : AtomValue) → Contains found.new.atoms q
        ↔ (Contains found.old.atoms q ⊎ ((fact.now ≡ q) × IsInstanceIn problem.now.objects form.now q))) }
{
    if !is_instance(problem, form, fact) {
        return Ok(());
    }
    found.insert(*fact)?;
    Ok(())
}

/// Puts the facts that are instances of the form into the set.
pub fn insert_facts(
    found: &mut Model,
    problem: &Problem,
    model: &Model,
    form: &Atom,
) -> Result<(), NoMemory>
    requires { IsForm problem.now form.now }
    ensures { OnOk result ((q : AtomValue) → Contains found.new.atoms q
        ↔ (Contains found.old.atoms q ⊎ (Contains model.now.atoms q × IsInstanceIn problem.now.objects form.now q))) }
{
    let facts = model.atoms();
    let (first, end) = places_of(facts, form);
    for number in first..end {
        insert_instance(found, problem, form, &facts[number])?;
    }
    Ok(())
}
