//! The marks of the kernel that is asked about, and the objects that they allow.
ghost use Rattle.std.specs.Prelude.{◌<◌, ◌≤◌, ℕ, List, All, IfSome, length};
ghost use Rattle.px_table.specs.Kernels.{IsInstantiation};
ghost use Rattle.px_match.specs.Asking.{IsFitFor, IsMarkOf, IsQuestion};
ghost use Rattle.px_match.specs.Reasons.{IsAtMost, IsSameBefore, object_at};

use crate::filling::least;
use crate::question::KernelQuestion;
use px_table::Mark;

/// Returns the mark of that number, if the kernel has it.
pub fn mark_of<'a>(question: &KernelQuestion<'a>, number: usize) -> Option<&'a Mark>
    ensures { IfSome result (λ mark. IsMarkOf question.now number mark.now) }
{
    let mark = question.table.marks.as_slice().get(number)?;
    if question.number > mark.row || mark.column >= question.number {
        return None;
    }
    Some(mark)
}

/// Returns the least object from `from` on that the mark of that number allows at the place, given the objects before.
pub fn least_of(
    question: &KernelQuestion,
    work: &[u32],
    place: usize,
    from: u32,
    number: usize,
    mark: &Mark,
) -> Option<u32>
    requires asked { IsQuestion question.now }
    requires work { IsInstantiation question.now.problem.now question.now.table.now work.now }
    requires place { place < length work.now }
    requires mark { IsMarkOf question.now number mark.now }
    ensures at_least { IfSome result (λ r. from ≤ r) }
    ensures at_most { (objects : List ℕ) → IsFitFor question.now objects → All (IsSameBefore work.now place objects) mark.now.atom.args
        → from ≤ object_at objects place → IsAtMost result (object_at objects place) }
{
    least(
        question.lists[number].atoms(),
        &mark.atom,
        work,
        place,
        from,
    )
}
