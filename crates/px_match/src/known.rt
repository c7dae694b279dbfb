//! From which kernel on the instances with the objects that were found last are proper, so that this is tested once.
ghost use Rattle.std.specs.Prelude.{◌≡◌, ◌↔◌, ◌≤◌, ◌+◌, IsTrue, length};
ghost use Rattle.px_terms.specs.Validity.{IsValid};
ghost use Rattle.px_table.specs.Kernels.{IsInstantiation, IsProper};
ghost use Rattle.px_table.specs.Tables.{IsTable};
ghost use Rattle.px_table.specs.WellSorted.{ParametersFit};
ghost use Rattle.px_match.specs.Asking.{AreProperFrom, IsQuestion};

use crate::question::KernelQuestion;
use px_table::{Table, proper};
use px_terms::Problem;

/// Returns the number of the goal's kernel, which is proper with any objects: no step is left.
pub fn goal_number(problem: &Problem, table: &Table, objects: &[u32]) -> u32
    requires table { IsTable problem.now table.now }
    ensures number { result ≡ length table.now.steps + 1 }
    ensures proper { AreProperFrom problem.now table.now objects.now result }
{
    table.steps.len() as u32 + 1
}

/// Returns whether the kernel's instance with these objects, which fit the parameters, is proper.
pub fn is_proper(question: &KernelQuestion, work: &[u32]) -> bool
    requires asked { IsQuestion question.now }
    requires work { IsInstantiation question.now.problem.now question.now.table.now work.now }
    requires fitting { ParametersFit question.now.problem.now.object_sorts question.now.table.now work.now }
    ensures { IsTrue result ↔ IsProper question.now.problem.now question.now.table.now work.now question.now.number }
{
    if question.proper_from <= question.number && *question.known == *work {
        return true;
    }
    proper(question.problem, question.table, work, question.number)
}

/// Keeps the objects with which a kernel was found, and returns from which number on the kernels are now known to be proper.
pub fn keep_found(
    problem: &Problem,
    table: &Table,
    known: &mut [u32],
    proper_from: u32,
    work: &[u32],
    number: u32,
) -> u32
    requires before { AreProperFrom problem.now table.now known.old proper_from }
    requires found { IsProper problem.now table.now work.now number }
    requires lengths { length known.old ≡ length work.now }
    ensures kept { known.new ≡ work.now }
    ensures proper { AreProperFrom problem.now table.now known.new result }
{
    if proper_from <= number && *known == *work {
        return proper_from;
    }
    known.copy_from_slice(work);
    number
}
