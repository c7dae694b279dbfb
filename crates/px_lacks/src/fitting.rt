//! Whether an atom is an instance of one that is needed.
ghost use Rattle.std.specs.Prelude.{◌≡◌, ◌||◌, not};
ghost use Rattle.std.specs.List.{list_all, zip};
ghost use Rattle.std.specs.Cmp.Lexicographic.{pointwise};
ghost use Rattle.px_terms.specs.Order.{term_eq};
ghost use Rattle.px_ends.specs.Lacks.{are_alike as are_alike_in, fits as fits_in, fits_place as fits_place_in};

use px_terms::{Atom, Term};

/// Returns whether the term may stand in the place: an object for itself, and for a variable an object.
fn fits_place(pattern: Term, term: Term) -> bool
    ensures { result ≡ fits_place_in pattern term }
{
    match (pattern, term) {
        (Term::Obj(m), Term::Obj(n)) => m == n,
        (Term::Var(_), Term::Obj(_)) => true,
        (Term::Any, Term::Any) => true,
        _ => false,
    }
}

/// Returns whether the lists are equally long, and each of the terms may stand in its place.
fn fit_places(pattern: &[Term], terms: &[Term]) -> bool
    ensures { result ≡ pointwise fits_place_in pattern.now terms.now }
{
    if pattern.len() != terms.len() {
        return false;
    }
    for (i, place) in pattern.iter().enumerate() {
        if !fits_place(*place, terms[i]) {
            return false;
        }
    }
    true
}

/// Returns whether the second list has the term at each place where the first has this one.
fn stands_for(pattern: &[Term], terms: &[Term], one: Term, term: Term) -> bool
    ensures { result ≡ list_all (λ q. not (term_eq one q.0) || term_eq term q.1) (zip pattern.now terms.now) }
{
    pattern
        .iter()
        .zip(terms)
        .all(|q| one != *q.0 || term == *q.1)
}

/// Returns whether the terms are the same where those of the pattern are.
fn are_alike(pattern: &[Term], terms: &[Term]) -> bool
    ensures { result ≡ are_alike_in pattern.now terms.now }
{
    pattern
        .iter()
        .zip(terms)
        .all(|p| stands_for(pattern, terms, *p.0, *p.1))
}

/// Returns whether some objects for the variables of the pattern, one for each, make it the atom. Does not allocate.
pub fn fits(pattern: &Atom, atom: &Atom) -> bool
    ensures { result ≡ fits_in pattern.now atom.now }
{
    atom.pred() == pattern.pred()
        && fit_places(pattern.args(), atom.args())
        && are_alike(pattern.args(), atom.args())
}
