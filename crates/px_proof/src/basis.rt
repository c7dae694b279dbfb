//! What proofs may stand on: facts, or objects and parameters.
ghost use Rattle.std.specs.Prelude.{◌↔◌, IsTrue, Contains, All};
ghost use Rattle.px_proof.specs.Basis.{rules_of};

use crate::proof::Leaf;
use px_terms::{Atom, Term};

/// What proofs may stand on: the terms that a step may choose, and the leaves that close a place.
#[derive(Clone, Copy)]
pub enum Basis<'a> {
    /// Objects, and the facts among these that have no variables.
    Facts(&'a [Atom]),
    /// The first objects and parameters; each leaf over them closes its own atom.
    Names { objects: u32, params: u32 },
}

/// Returns whether the atom is among the facts.
fn is_fact(facts: &[Atom], atom: &Atom) -> bool
    ensures { IsTrue result ↔ Contains facts.now atom.now }
{
    facts.contains(atom)
}

/// Returns whether a step may choose the term.
fn is_choice(basis: &Basis, term: Term) -> bool
    ensures { IsTrue result ↔ (rules_of basis.now).IsChoice term }
{
    match (basis, term) {
        (Basis::Facts(_), Term::Obj(_)) => true,
        (Basis::Names { objects, .. }, Term::Obj(number)) => number < *objects,
        (Basis::Names { params, .. }, Term::Var(number)) => number < *params,
        _ => false,
    }
}

/// Returns whether a step may choose each of the terms.
pub fn are_choices(basis: &Basis, terms: &[Term]) -> bool
    ensures { IsTrue result ↔ All (rules_of basis.now).IsChoice terms.now }
{
    terms.iter().all(|term| is_choice(basis, *term))
}

/// Returns whether the leaf may close a place.
pub fn is_leaf(basis: &Basis, leaf: &Leaf) -> bool
    ensures { IsTrue result ↔ (rules_of basis.now).IsFact leaf.now }
{
    let is_there = match basis {
        Basis::Facts(facts) => is_fact(facts, &leaf.atom),
        Basis::Names { .. } => true,
    };
    is_there && are_choices(basis, leaf.atom.args())
}
