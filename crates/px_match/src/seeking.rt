//! Where in an ascending list the atoms stand that a mark may become. A mark's first terms, as long as they are objects and
//! parameters up to the place, say on which side of an atom all these stand.
ghost use Rattle.std.specs.Prelude.{◌≡◌, ◌≢◌, ◌⊎◌, ◌<◌, ◌≤◌, ℕ, List, Option, Some, All, IsTrue, IfSome, length, slice_index_or};
ghost use Rattle.std.specs.declared.cmp.Ordering.TheVariants.{Less, Greater};
ghost use Rattle.px_terms.specs.AtomSets.{IsAtomSet};
ghost use Rattle.px_terms.specs.Language.{IsVariableBelow};
ghost use Rattle.px_match.specs.Seeking.{IsAboveInstances, IsBelowInstances, AreTermsAbove, AreTermsBelow, IsExpected, IsNoneBefore, IsPast};

use px_terms::{Atom, Term};
use std::cmp::Ordering;

/// Returns what an atom has where the mark has the term: the object of `work` for a parameter before the place, and for the parameter of
/// the place the limit. `None` where nothing is known of it.
fn expected(term: Term, work: &[u32], place: usize, limit: Option<u32>) -> Option<Term>
    requires variable { IsVariableBelow (length work.now) term }
    ensures { IfSome result (IsExpected work.now place limit term) }
{
    match term {
        Term::Obj(_) => Some(term),
        Term::Var(number) => {
            let at = number as usize;
            if at < place {
                return Some(Term::Obj(work[at]));
            }
            if at > place {
                return None;
            }
            match limit {
                None => None,
                Some(object) => Some(Term::Obj(object)),
            }
        }
        Term::Any => None,
    }
}

/// Returns `Less` where the found terms stand before all that the terms become with at least the limit at the place, `Greater` where they
/// stand after all that these become with at most the limit.
#[tactic(auto, using(crate::proofs::Sides::side_less, crate::proofs::Sides::side_greater, crate::proofs::Sides::side_next))]
fn side_of(
    terms: &[Term],
    found: &[Term],
    work: &[u32],
    place: usize,
    limit: Option<u32>,
) -> Ordering
    requires variables { All (IsVariableBelow (length work.now)) terms.now }
    requires lengths { length terms.now ≡ length found.now }
    ensures below { result ≡ Less → AreTermsBelow work.now place limit terms.now found.now }
    ensures above { result ≡ Greater → AreTermsAbove work.now place limit terms.now found.now }
{
    for (at, term) in terms.iter().enumerate() {
        match expected(*term, work, place, limit) {
            None => return Ordering::Equal,
            Some(fixed) => match found[at].cmp(&fixed) {
                Ordering::Less => return Ordering::Less,
                Ordering::Equal => {}
                Ordering::Greater => return Ordering::Greater,
            },
        }
    }
    Ordering::Equal
}

/// Returns `Less` where the atom stands before all that the mark becomes with at least the limit at the place, `Greater` where it
/// stands after all that this becomes with at most the limit.
#[tactic(auto, using(crate::proofs::Sides::mark_below, crate::proofs::Sides::mark_above))]
fn side(mark: &Atom, atom: &Atom, work: &[u32], place: usize, limit: Option<u32>) -> Ordering
    requires variables { All (IsVariableBelow (length work.now)) mark.now.args }
    ensures below { result ≡ Less → IsBelowInstances work.now place limit mark.now atom.now }
    ensures above { result ≡ Greater → IsAboveInstances work.now place limit mark.now atom.now }
{
    if mark.pred() != atom.pred() || mark.args().len() != atom.args().len() {
        return Ordering::Equal;
    }
    side_of(mark.args(), atom.args(), work, place, limit)
}

/// Returns a place, found by binary search, before which the mark becomes none of the atoms with at least `from` at the place.
#[tactic(auto, using(crate::proofs::Sides::none_yet, crate::proofs::Sides::none_so_far))]
pub fn first_near(atoms: &[Atom], mark: &Atom, work: &[u32], place: usize, from: u32) -> usize
    requires set { IsAtomSet atoms.now }
    requires variables { All (IsVariableBelow (length work.now)) mark.now.args }
    ensures { IsNoneBefore work.now place from mark.now atoms.now result }
{
    let mut low = 0;
    let mut high = atoms.len();
    while low < high {
        let middle = low + (high - low) / 2;
        match side(mark, &atoms[middle], work, place, Some(from)) {
            Ordering::Less => low = middle + 1,
            Ordering::Equal | Ordering::Greater => high = middle,
        }
    }
    low
}

/// Returns whether all atoms that the mark becomes stand before this one, but for those that have at least the best object at the place.
#[tactic(auto, using(crate::proofs::Sides::past_all, crate::proofs::Sides::past_first, crate::proofs::Sides::past_best))]
pub fn is_past(
    atom: &Atom,
    mark: &Atom,
    work: &[u32],
    place: usize,
    from: u32,
    best: Option<u32>,
) -> bool
    requires variables { All (IsVariableBelow (length work.now)) mark.now.args }
    ensures { IsTrue result → IsPast work.now place from best mark.now atom.now }
{
    match best {
        None => side(mark, atom, work, place, None).is_gt(),
        Some(object) => {
            object <= from || side(mark, atom, work, place, Some(object - 1)).is_gt()
        }
    }
}
