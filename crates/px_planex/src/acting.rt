//! Acting by a kernel: its step is taken where each mark of its row is true.
ghost use Rattle.std.specs.Prelude.{◌≡◌, ◌↔◌, ◌≤◌, ◌+◌, All, MatchBool, Some, length};
ghost use Rattle.px_terms.specs.Sorts.{IsWellSorted};
ghost use Rattle.px_table.specs.WellSorted.{ParametersFit};
ghost use Rattle.px_terms.specs.declared.instance.OpInst.{OpInst};
ghost use Rattle.px_terms.specs.Operators.{adds};
ghost use Rattle.px_terms.specs.Validity.{IsInstanceOf, IsValid};
ghost use Rattle.px_table.specs.Kernels.{IsInstantiation};
ghost use Rattle.px_table.specs.Tables.{IsTable};
ghost use Rattle.px_match.specs.MatcherValue.{kernel_with};
ghost use Rattle.px_world.specs.Worlds.{HaveSameRules};
ghost use Rattle.px_planex.specs.Execution.{RowFails, KernelRowHolds, step_of_kernel};
ghost use Rattle.px_planex.specs.Executors.{IsKernelStepTaken, places_for};

use px_table::{Table, atom_with, instance_with};
use px_terms::{OpInst as Instance, Problem};
use px_world::World;

/// Returns the step of that number, with these objects for the parameters, which they fit.
pub(crate) fn step_of(problem: &Problem, table: &Table, objects: &[u32], number: u32) -> Instance
    requires problem { IsValid problem.now }
    requires table { IsTable problem.now table.now }
    requires objects { IsInstantiation problem.now table.now objects.now }
    requires fitting { ParametersFit problem.now.object_sorts table.now objects.now }
    requires number { (1 ≤ number) × (number ≤ length table.now.steps) }
    ensures step { step_of_kernel table.now (kernel_with objects.now number) ≡ Some result }
    ensures instance { IsInstanceOf problem.now result }
    ensures fits { IsWellSorted problem.now result }
{
    instance_with(objects, &table.steps.as_slice()[number as usize - 1])
}

/// Returns whether each mark of the row is true in the world, with these objects for the parameters.
fn row_holds<W: World>(
    problem: &Problem,
    table: &Table,
    objects: &[u32],
    row: u32,
    world: &W,
) -> bool
    requires table { IsTable problem.now table.now }
    requires objects { IsInstantiation problem.now table.now objects.now }
    ensures { MatchBool result (KernelRowHolds table.now (kernel_with objects.now row) (W.atoms world.now))
        (RowFails table.now (kernel_with objects.now row) (W.atoms world.now)) }
{
    for mark in table.marks.as_slice() {
        if mark.row == row && !world.holds(&atom_with(objects, &mark.atom)) {
            return false;
        }
    }
    true
}

/// Takes the step of that number with these objects, if each mark of its row is true, and returns whether it was taken.
pub(crate) fn act_by<W: World>(
    problem: &Problem,
    table: &Table,
    objects: &[u32],
    number: u32,
    world: &mut W,
) -> bool
    requires problem { IsValid problem.now }
    requires table { IsTable problem.now table.now }
    requires rules { HaveSameRules (W.rules world.old) problem.now }
    requires objects { IsInstantiation problem.now table.now objects.now }
    requires fitting { ParametersFit problem.now.object_sorts table.now objects.now }
    requires number { (1 ≤ number) × (number ≤ length table.now.steps) }
    requires places { places_for problem.now (step_of_kernel table.now (kernel_with objects.now number)) ≤ W.spare world.old }
    ensures taken { MatchBool result (IsKernelStepTaken problem.now table.now (kernel_with objects.now number) (W.atoms world.old)
        (W.atoms world.new)) (RowFails table.now (kernel_with objects.now number) (W.atoms world.old) × (world.new ≡ world.old)) }
    ensures spare { W.spare world.old ≤ W.spare world.new + places_for problem.now
        (step_of_kernel table.now (kernel_with objects.now number)) }
    ensures rules { W.rules world.new ≡ W.rules world.old }
    ensures edits { (edit : W.Edit) → W.admits world.new edit ↔ W.admits world.old edit }
{
    if !row_holds(problem, table, objects, number, world) {
        return false;
    }
    let inst = step_of(problem, table, objects, number);
    match world.act(&inst) {
        Ok(()) => true,
        Err(_) => unreachable!(),
    }
}
