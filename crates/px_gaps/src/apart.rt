//! Atoms that share no variable without an object: what one part of them does has no effect on the others.
ghost use Rattle.std.specs.Prelude.{◌≡◌, ◌↔◌, ◌⊎◌, ◌<◌, ℕ, List, length, All, Any, Contains, IsTrue, IfSome, IfNone, IfOk, OnOk};
ghost use Rattle.px_terms.specs.Substitution.{substitute_atom};
ghost use Rattle.px_terms.specs.declared.atom.Atom.{Atom as AtomValue};
ghost use Rattle.px_terms.specs.declared.term.Term.TheVariants.{Var};
ghost use Rattle.px_gaps.specs.Apart.{ShareNoVariable, Links, StandsIn};
ghost use Rattle.px_gaps.specs.Bindings.{ArePlain};

use px_terms::{Atom, NoMemory, Term, apply};
use std::alloc::Global;

/// Atoms taken apart: one with all that are linked to it by variables without an object, and the others.
#[derive(Drop)]
pub struct Parts {
    pub linked: Vec<Atom>,
    pub others: Vec<Atom>,
}

/// Adds the variables among the arguments.
fn reach(reached: &mut Vec<u32>, args: &[Term]) -> Result<(), NoMemory>
    ensures { OnOk result ((v : ℕ) → Contains reached.new.items v ↔ (Contains reached.old.items v ⊎ Contains args.now (Var v))) }
{
    for term in args {
        if let Term::Var(variable) = term {
            reached.push(*variable)?;
        }
    }
    Ok(())
}

/// Returns whether one of the variables is among the arguments.
fn is_reached(reached: &[u32], args: &[Term]) -> bool
    ensures { IsTrue result ↔ Any (λ v. Contains args.now (Var v)) reached.now }
{
    reached
        .iter()
        .any(|variable| args.contains(&Term::Var(*variable)))
}

/// Returns the place of the first atom in which one of the variables stands and has no object.
fn first_reached(terms: &[Term], reached: &[u32], atoms: &[Atom]) -> Option<usize>
    requires { ArePlain (length terms.now) atoms.now }
    ensures some { IfSome result (λ place. place < length atoms.now) }
    ensures none { IfNone result (All (λ (atom : AtomValue). ¬ Any (λ v. StandsIn terms.now v atom) reached.now) atoms.now) }
{
    for (place, atom) in atoms.iter().enumerate() {
        let here = apply(terms, atom);
        if is_reached(reached, here.args()) {
            return Some(place);
        }
    }
    None
}

/// Moves the atom at the place to those that are linked, and reaches its variables.
fn link(
    terms: &[Term],
    reached: &mut Vec<u32>,
    parts: &mut Parts,
    place: usize,
) -> Result<(), NoMemory>
    requires plain { ArePlain (length terms.now) parts.old.others.items }
    requires place { place < length parts.old.others.items }
    ensures { OnOk result (Links terms.now reached.old.items reached.new.items parts.old parts.new) }
{
    let atom = parts.others.remove(place);
    let here = apply(terms, &atom);
    reach(reached, here.args())?;
    parts.linked.push(atom)?;
    Ok(())
}

/// Takes the atoms apart: the one at the place with all that are linked to it, and the others.
pub fn apart(alloc: Global, terms: &[Term], atoms: &[Atom], place: usize) -> Result<Parts, NoMemory>
    requires plain { ArePlain (length terms.now) atoms.now }
    requires place { place < length atoms.now }
    ensures members { IfOk result (λ parts. (atom : AtomValue) → Contains atoms.now atom
        ↔ (Contains parts.linked.items atom ⊎ Contains parts.others.items atom)) }
    ensures apart { IfOk result (λ parts. ShareNoVariable terms.now parts.linked.items parts.others.items) }
    ensures fewer { IfOk result (λ parts. length parts.others.items < length atoms.now) }
{
    let mut others = Vec::new(alloc);
    others.extend_from_slice(atoms)?;
    let mut parts = Parts {
        linked: Vec::new(alloc),
        others,
    };
    let mut reached = Vec::new(alloc);
    link(terms, &mut reached, &mut parts, place)?;
    while let Some(next) = first_reached(terms, &reached, &parts.others) {
        link(terms, &mut reached, &mut parts, next)?;
    }
    Ok(parts)
}
