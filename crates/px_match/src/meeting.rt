//! Passing over an object because no object is left for a later parameter: marks that have this one and no other parameter after the
//! place don't agree on its object.
ghost use Rattle.std.specs.Prelude.{◌≡◌, ◌≢◌, ◌<◌, ◌≤◌, ◌+◌, ℕ, List, Option, All, IsTrue, IfSome, length};
ghost use Rattle.px_base.specs.Bounds.{u32_max};
ghost use Rattle.px_match.specs.Asking.{IsFitFor, IsLeft, IsTried};
ghost use Rattle.px_match.specs.Reasons.{Agree, Grown, IsBlamed, IsNear, object_at};

use crate::marks::{least_of, mark_of};
use crate::question::KernelQuestion;
use crate::reasons::blame;
use px_terms::Term;

/// Returns whether the term is no parameter between the place and the later one.
fn is_near(term: Term, place: usize, later: usize) -> bool
    ensures { IsTrue result → IsNear place later term }
{
    match term {
        Term::Var(number) => number as usize <= place || later <= number as usize,
        Term::Obj(_) | Term::Any => true,
    }
}

/// Returns whether no parameter of the terms is between the place and the later one.
fn are_near(terms: &[Term], place: usize, later: usize) -> bool
    ensures { IsTrue result → All (IsNear place later) terms.now }
{
    terms.iter().all(|term| is_near(*term, place, later))
}

/// Records the parameters among the terms that come before the place as reasons, where that is asked.
fn blame_if(cells: &mut [bool], params: usize, place: usize, terms: &[Term], is_blamed: bool)
    requires params { params ≤ u32_max }
    requires place { place < params }
    ensures grown { Grown cells.old cells.new }
    ensures blamed { IsTrue is_blamed → All (IsBlamed cells.new params place) terms.now }
{
    if is_blamed {
        blame(cells, params, place, terms);
    }
}

/// Returns the least object from `from` on that the mark of that number allows at the later place, whatever stands between.
// Alike: `least_left_by_marks`, which asks the marks in turn; the parameters and clauses of `is_none_left` are like them, too.
fn least_left(
    question: &KernelQuestion,
    cells: &mut [bool],
    work: &[u32],
    place: usize,
    later: usize,
    from: u32,
    number: usize,
    is_blamed: bool,
) -> Option<u32>
    requires tried { IsTried question.now work.now later }
    requires place { place < later }
    ensures grown { Grown cells.old cells.new }
    ensures at_least { IfSome result (λ r. from ≤ r) }
    ensures left { IsTrue is_blamed → IsLeft question.now cells.new work.now place later from result }
{
    let Some(mark) = mark_of(question, number) else {
        return Some(from);
    };
    if !are_near(mark.atom.args(), place, later) {
        return Some(from);
    }
    blame_if(cells, work.len(), place, mark.atom.args(), is_blamed);
    least_of(question, work, later, from, number, mark)
}

/// Returns the least object from `from` on that all marks with the parameter of the later place, in turn, allow there.
#[tactic(auto, using(crate::proofs::Left::left_itself, crate::proofs::Left::left_then))]
fn least_left_by_marks(
    question: &KernelQuestion,
    cells: &mut [bool],
    work: &[u32],
    place: usize,
    later: usize,
    from: u32,
    is_blamed: bool,
) -> Option<u32>
    requires tried { IsTried question.now work.now later }
    requires place { place < later }
    ensures grown { Grown cells.old cells.new }
    ensures at_least { IfSome result (λ r. from ≤ r) }
    ensures left { IsTrue is_blamed → IsLeft question.now cells.new work.now place later from result }
{
    let Some(hints) = question.hints.get(later) else {
        return Some(from);
    };
    let mut object = from;
    for number in hints.marks.as_slice() {
        match least_left(
            question, cells, work, place, later, object, *number, is_blamed,
        ) {
            None => return None,
            Some(next) => object = next,
        }
    }
    Some(object)
}

/// Returns whether no object is left for the later place.
#[tactic(auto, using(crate::proofs::Left::left_itself, crate::proofs::Left::left_then, crate::proofs::Left::none_left))]
fn is_none_left(
    question: &KernelQuestion,
    cells: &mut [bool],
    work: &[u32],
    place: usize,
    later: usize,
    is_blamed: bool,
) -> bool
    requires tried { IsTried question.now work.now later }
    requires place { place < later }
    ensures grown { Grown cells.old cells.new }
    ensures never { IsTrue is_blamed → IsTrue result → (objects : List ℕ) → IsFitFor question.now objects
        → Agree cells.new (length work.now) work.now place objects → object_at work.now place ≢ object_at objects place }
{
    let mut from = 0;
    loop {
        match least_left_by_marks(question, cells, work, place, later, from, is_blamed) {
            None => return true,
            Some(object) => {
                if object <= from {
                    return false;
                }
                from = object;
            }
        }
    }
}

/// Returns whether no object is left for a later place. Reasons are recorded only where that is so.
// Alike: `has_clash`. `true` from either says that the object of the place is in no answer, for another reason.
pub fn has_meeting(
    question: &KernelQuestion,
    cells: &mut [bool],
    work: &[u32],
    place: usize,
) -> bool
    requires { IsTried question.now work.now place }
    ensures grown { Grown cells.old cells.new }
    ensures never { IsTrue result → (objects : List ℕ) → IsFitFor question.now objects
        → Agree cells.new (length work.now) work.now place objects → object_at work.now place ≢ object_at objects place }
{
    let Some(hints) = question.hints.get(place) else {
        return false;
    };
    for number in hints.meetings.as_slice() {
        let later = *number;
        if place < later
            && later < work.len()
            && is_none_left(question, cells, work, place, later, false)
            && is_none_left(question, cells, work, place, later, true)
        {
            return true;
        }
    }
    false
}
