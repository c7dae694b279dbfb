//! Passing over objects that can't stand at a place, with the reasons.
ghost use Rattle.std.specs.Prelude.{◌≡◌, ◌≢◌, ◌↔◌, ◌<◌, ◌≤◌, ◌+◌, ℕ, List, Option, Some, None, All, IsTrue, IfSome, length};
ghost use Rattle.px_base.specs.Bounds.{u32_max};
ghost use Rattle.px_terms.specs.Language.{IsVariableBelow};
ghost use Rattle.px_table.specs.Kernels.{IsInstantiation};
ghost use Rattle.px_match.specs.Asking.{Excludes, IsFitFor, IsQuestion, IsRaised, IsTried};
ghost use Rattle.px_match.specs.Matching.{Extends};
ghost use Rattle.px_match.specs.Reasons.{Agree, Grown, IsAtMost, IsChanged, IsReason, IsStale, object_at};

use crate::hints::MarkClash;
use crate::marks::{least_of, mark_of};
use crate::meeting::has_meeting;
use crate::question::KernelQuestion;
use crate::reasons::{blame, make_stale_after};
use px_ops::schema_of;
use px_table::atom_with;
use px_terms::{Atom, Term, apply, fits_sort, instance_of, sort_at};

/// Returns whether the term is no parameter after the place.
fn is_up_to(term: Term, place: usize) -> bool
    ensures { IsTrue result → IsVariableBelow (place + 1) term }
{
    match term {
        Term::Var(number) => number as usize <= place,
        Term::Obj(_) | Term::Any => true,
    }
}

/// Returns whether all parameters among the terms are up to the place.
fn are_up_to(terms: &[Term], place: usize) -> bool
    ensures { IsTrue result → All (IsVariableBelow (place + 1)) terms.now }
{
    terms.iter().all(|term| is_up_to(*term, place))
}

/// Returns the least object from `from` on that the binding allows at the place.
fn least_bound(bound: &[(u32, u32)], place: usize, from: u32) -> Option<u32>
    requires place { place < u32_max }
    ensures at_least { IfSome result (λ r. from ≤ r) }
    ensures at_most { (objects : List ℕ) → Extends bound.now objects → from ≤ object_at objects place
        → IsAtMost result (object_at objects place) }
{
    for pair in bound {
        if pair.0 as usize == place + 1 {
            if pair.1 < from {
                return None;
            }
            return Some(pair.1);
        }
    }
    Some(from)
}

/// Returns the least object from `from` on that fits the sort of the parameter of the place.
fn least_fitting(question: &KernelQuestion, place: usize, from: u32) -> Option<u32>
    requires asked { IsQuestion question.now }
    requires place { place < question.now.table.now.params }
    ensures at_least { IfSome result (λ r. from ≤ r) }
    ensures at_most { (objects : List ℕ) → IsFitFor question.now objects → from ≤ object_at objects place
        → IsAtMost result (object_at objects place) }
{
    let sorts = question.problem.object_sorts.as_slice();
    let wanted = sort_at(question.table.param_sorts.as_slice(), place);
    for object in from..question.objects {
        if fits_sort(sorts, wanted, object) {
            return Some(object);
        }
    }
    None
}

/// Returns the first object from that of the place on that the mark of that number allows.
// Alike: `raise_by_marks` and `raise`, since each is a part of the next.
fn raise_by_mark(
    question: &KernelQuestion,
    cells: &mut [bool],
    work: &[u32],
    place: usize,
    number: usize,
) -> Option<u32>
    requires { IsTried question.now work.now place }
    ensures grown { Grown cells.old cells.new }
    ensures raised { IsRaised question.now cells.new work.now place (object_at work.now place) result }
{
    let from = work[place];
    let Some(mark) = mark_of(question, number) else {
        return Some(from);
    };
    let raised = least_of(question, work, place, from, number, mark);
    if raised == Some(from) {
        return raised;
    }
    blame(cells, work.len(), place, mark.atom.args());
    raised
}

/// Returns the first object from that of the place on that the first mark which passes over one allows.
fn raise_by_marks(
    question: &KernelQuestion,
    cells: &mut [bool],
    work: &[u32],
    place: usize,
) -> Option<u32>
    requires { IsTried question.now work.now place }
    ensures grown { Grown cells.old cells.new }
    ensures raised { IsRaised question.now cells.new work.now place (object_at work.now place) result }
{
    let from = work[place];
    let Some(hints) = question.hints.get(place) else {
        return Some(from);
    };
    for number in hints.marks.as_slice() {
        let raised = raise_by_mark(question, cells, work, place, *number);
        if raised != Some(from) {
            return raised;
        }
    }
    Some(from)
}

/// Returns the pattern over the table's parameters, if it and the mark have all their parameters up to the place and it deletes the mark.
fn deleting(
    question: &KernelQuestion,
    work: &[u32],
    place: usize,
    clash: &MarkClash,
) -> Option<(Atom, Atom)>
    requires { IsTried question.now work.now place }
    ensures { IfSome result (λ pair. Excludes question.now work.now (place + 1) pair.0 pair.1) }
{
    let marks = question.table.marks.as_slice();
    let steps = question.table.steps.as_slice();
    if clash.mark >= marks.len() || clash.step >= steps.len() {
        return None;
    }
    let mark = &marks[clash.mark];
    let step = &steps[clash.step];
    let number = clash.step + 1;
    if number < question.number as usize
        || number <= mark.column as usize
        || number >= mark.row as usize
    {
        return None;
    }
    let patterns = schema_of(question.problem, step).del.as_slice();
    if clash.pattern >= patterns.len() {
        return None;
    }
    let pattern = apply(step.args(), &patterns[clash.pattern]);
    if !are_up_to(pattern.args(), place) || !are_up_to(mark.atom.args(), place) {
        return None;
    }
    if !instance_of(&atom_with(work, &mark.atom), &atom_with(work, &pattern)) {
        return None;
    }
    Some((pattern, mark.atom))
}

/// Returns whether a step deletes a mark, whatever the objects after the place are.
fn has_clash(question: &KernelQuestion, cells: &mut [bool], work: &[u32], place: usize) -> bool
    requires { IsTried question.now work.now place }
    ensures grown { Grown cells.old cells.new }
    ensures never { IsTrue result → (objects : List ℕ) → IsFitFor question.now objects
        → Agree cells.new (length work.now) work.now place objects → object_at work.now place ≢ object_at objects place }
{
    let Some(hints) = question.hints.get(place) else {
        return false;
    };
    for clash in hints.clashes.as_slice() {
        if let Some((pattern, atom)) = deleting(question, work, place, clash) {
            blame(cells, work.len(), place, pattern.args());
            blame(cells, work.len(), place, atom.args());
            return true;
        }
    }
    false
}

/// Returns the first object from that of the place on that isn't passed over at once.
fn raise(question: &KernelQuestion, cells: &mut [bool], work: &[u32], place: usize) -> Option<u32>
    requires { IsTried question.now work.now place }
    ensures grown { Grown cells.old cells.new }
    ensures raised { IsRaised question.now cells.new work.now place (object_at work.now place) result }
{
    let from = work[place];
    let allowed = least_bound(question.bound, place, from);
    if allowed != Some(from) {
        return allowed;
    }
    let fitting = least_fitting(question, place, from);
    if fitting != Some(from) {
        return fitting;
    }
    let raised = raise_by_marks(question, cells, work, place);
    if raised != Some(from) {
        return raised;
    }
    if has_clash(question, cells, work, place) || has_meeting(question, cells, work, place) {
        return Some(from + 1);
    }
    Some(from)
}

/// Puts the object at the place. Where another one stood, the later places that rest on it are stale.
fn put_object(cells: &mut [bool], work: &mut [u32], place: usize, object: u32)
    requires short { length work.old ≤ u32_max }
    requires place { place < length work.old }
    ensures grown { Grown cells.old cells.new }
    ensures same_length { length work.new ≡ length work.old }
    ensures objects { (limit : ℕ) → object < limit → All (λ n. n < limit) work.old → All (λ n. n < limit) work.new }
    ensures put { object_at work.new place ≡ object }
    ensures others { (k : ℕ) → k ≢ place → object_at work.new k ≡ object_at work.old k }
    ensures stale { object_at work.old place ≢ object → (k : ℕ) → place < k → k < length work.old
        → IsReason cells.old (length work.old) k place → IsStale cells.new (length work.old) k }
{
    if work[place] == object {
        return;
    }
    work[place] = object;
    make_stale_after(cells, work.len(), place);
}

/// Puts the object at the place, and returns the first object from it on that isn't passed over at once.
#[tactic(auto, using(crate::proofs::Floors::unchanged))]
pub fn try_object(
    question: &KernelQuestion,
    cells: &mut [bool],
    work: &mut [u32],
    place: usize,
    from: u32,
) -> Option<u32>
    requires asked { IsQuestion question.now }
    requires short { length work.old ≤ u32_max }
    requires work { IsInstantiation question.now.problem.now question.now.table.now work.old }
    requires place { place < length work.old }
    ensures same_length { length work.new ≡ length work.old }
    ensures work { IsInstantiation question.now.problem.now question.now.table.now work.new }
    ensures changed { IsChanged cells.old cells.new (length work.old) work.old work.new place }
    ensures taken { result ≡ Some from → (object_at work.new place ≡ from) × (from < question.now.problem.now.objects) }
    ensures raised { IsRaised question.now cells.new work.new place from result }
{
    if from >= question.objects {
        return None;
    }
    put_object(cells, work, place, from);
    raise(question, cells, work, place)
}
