//! The facts that begin as an atom does, found by binary search in their order.
ghost use Rattle.std.specs.Prelude.{◌≡◌, ◌≤◌, All, length, take};
ghost use Rattle.std.specs.Cmp.Lexicographic.{slice_cmp};
ghost use Rattle.px_terms.specs.AtomSets.{IsAtomSet};
ghost use Rattle.px_terms.specs.Language.{IsObject};
ghost use Rattle.px_terms.specs.Order.{atom_cmp, term_cmp};
ghost use Rattle.px_proof_state.specs.Beginnings.{HasItsFacts, HasNone, beginning};

use px_terms::{Atom, Term};
use std::cmp::Ordering;

/// Returns how many terms stand before the first one that is no object.
pub(crate) fn leading_objects(terms: &[Term]) -> usize
    ensures within { result ≤ length terms.now }
    ensures objects { All IsObject (take result terms.now) }
{
    for (place, term) in terms.iter().enumerate() {
        match term {
            Term::Obj(_) => {}
            _ => return place,
        }
    }
    terms.len()
}

/// Returns the first `count` terms, or all of them if there are fewer.
fn prefix(terms: &[Term], count: usize) -> &[Term]
    ensures { result.now ≡ take count terms.now }
{
    &terms[..count.min(terms.len())]
}

/// Compares two lists by their first `count` terms.
fn compare_prefixes(count: usize, xs: &[Term], ys: &[Term]) -> Ordering
    ensures { result ≡ slice_cmp term_cmp (take count xs.now) (take count ys.now) }
{
    if count == 0 {
        return Ordering::Equal;
    }
    prefix(xs, count).cmp(prefix(ys, count))
}

/// Compares two atoms by their predicates and their first `count` arguments.
pub(crate) fn compare_beginnings(count: usize, a: &Atom, b: &Atom) -> Ordering
    ensures { result ≡ atom_cmp (beginning count a.now) (beginning count b.now) }
{
    match a.pred().cmp(&b.pred()) {
        Ordering::Equal => compare_prefixes(count, a.args(), b.args()),
        other => other,
    }
}

/// Returns a place before which no fact from the given place on begins as the atom does: where a search begins, the first place of a fact
/// that doesn't begin before it, and the given place where a search goes on.
pub(crate) fn first_place(facts: &[Atom], atom: &Atom, count: usize, from: usize) -> usize
    requires ascending { IsAtomSet facts.now }
    requires objects { All IsObject (take count atom.now.args) }
    ensures later { from ≤ result }
    ensures before { HasNone facts.now atom.now from result }
{
    if from > 0 {
        return from;
    }
    facts.partition_point(|fact| compare_beginnings(count, fact, atom).is_lt())
}

/// Returns two places: each ground fact before the first of them, or at the second or after it, is no instance of the atom. They are found
/// by binary search for the predicate and the leading objects. Does not allocate.
pub fn places_of(facts: &[Atom], atom: &Atom) -> (usize, usize)
    requires { IsAtomSet facts.now }
    ensures { HasItsFacts facts.now atom.now result.0 result.1 }
{
    let count = leading_objects(atom.args());
    let first = facts.partition_point(|fact| compare_beginnings(count, fact, atom).is_lt());
    let end = facts.partition_point(|fact| compare_beginnings(count, fact, atom).is_le());
    (first, end)
}
