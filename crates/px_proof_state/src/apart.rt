//! What is never equal, and is told apart before anything is bound.
ghost use Rattle.std.specs.Prelude.{◌≡◌, All, IsTrue};
ghost use Rattle.px_terms.specs.Language.{IsPlainBelow};
ghost use Rattle.px_unify.specs.Changes.{variables_of};
ghost use Rattle.px_proof_state.specs.Apart.{AreApart, AreLiteralsApart, AreOneAtomUnder, AreTermsApart};

use px_terms::{Atom, Lit, MOST_ARGUMENTS, Term};
use px_unify::Bind;

/// Returns the atom with each argument followed to the end of its bindings.
pub(crate) fn followed(bind: &Bind, atom: &Atom) -> Atom
    requires { All (IsPlainBelow (variables_of bind.now)) atom.now.args }
    ensures { AreOneAtomUnder bind.now atom.now result }
{
    let args = atom.args();
    let mut terms = [Term::Any; MOST_ARGUMENTS];
    for (place, term) in args.iter().enumerate() {
        terms[place] = bind.resolve(*term);
    }
    Atom::of(atom.pred(), &terms[..args.len()])
}

/// Returns whether the terms are two different objects.
fn are_terms_apart(s: Term, t: Term) -> bool
    ensures { IsTrue result → AreTermsApart s t }
{
    match (s, t) {
        (Term::Obj(a), Term::Obj(b)) => a != b,
        _ => false,
    }
}

/// Returns whether the atoms differ in their predicates, their numbers of arguments, or two objects at one place.
pub(crate) fn are_apart(a: &Atom, b: &Atom) -> bool
    ensures { IsTrue result → AreApart a.now b.now }
{
    let (xs, ys) = (a.args(), b.args());
    if a.pred() != b.pred() || xs.len() != ys.len() {
        return true;
    }
    for (place, x) in xs.iter().enumerate() {
        if are_terms_apart(*x, ys[place]) {
            return true;
        }
    }
    false
}

/// Returns whether the literals differ in their signs, or their atoms in predicates, numbers of arguments, or two objects at one place.
pub(crate) fn are_literals_apart(a: &Lit, b: &Lit) -> bool
    ensures { IsTrue result → AreLiteralsApart a.now b.now }
{
    a.positive != b.positive || are_apart(&a.atom, &b.atom)
}
