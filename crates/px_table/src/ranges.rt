//! Whether the numbers of a table are in range.
ghost use Rattle.std.specs.Prelude.{◌≡◌, ◌↔◌, ◌+◌, ◌<◌, All, IsTrue, length};
ghost use Rattle.px_base.specs.Bounds.{u32_max};
ghost use Rattle.px_terms.specs.Validity.{IsAtomOf};
ghost use Rattle.px_table.specs.Tables.{IsStepOf};

use px_terms::{Atom, OpInst, Problem, are_atoms_of, is_term_of};

/// Returns whether it is an instance of an operator of the problem over its objects and the first `params` parameters.
// Alike: `is_instance_of` of `px_terms`, which is the test of an instance without parameters by a definition of its own.
pub fn is_step_of(problem: &Problem, params: u32, inst: &OpInst) -> bool
    ensures { IsTrue result ↔ IsStepOf problem.now params inst.now }
{
    let schemas = problem.schemas.as_slice();
    let variable_count = u64::from(params);
    let op = inst.op() as usize;
    op < schemas.len()
        && inst.args().len() == schemas[op].params as usize
        && inst
            .args()
            .iter()
            .all(|term| is_term_of(problem, variable_count, term))
}

/// Returns whether each step is an instance of an operator of the problem over its objects and the first `params` parameters.
fn are_steps_of(problem: &Problem, params: u32, steps: &[OpInst]) -> bool
    ensures { IsTrue result ↔ All (IsStepOf problem.now params) steps.now }
{
    steps.iter().all(|inst| is_step_of(problem, params, inst))
}

/// Returns whether there are fewer than `u32::MAX` steps, and the numbers of the steps and the goal are in range.
pub fn are_in_range(
    problem: &Problem,
    params: u32,
    steps: &[OpInst],
    goal: &[Atom],
    goal_variable_count: u32,
) -> bool
    ensures { IsTrue result ↔ ((length steps.now < u32_max) × All (IsStepOf problem.now params) steps.now
        × All (IsAtomOf problem.now (params + goal_variable_count)) goal.now) }
{
    let variable_count = u64::from(params) + u64::from(goal_variable_count);
    steps.len() < u32::MAX as usize
        && are_steps_of(problem, params, steps)
        && are_atoms_of(problem, variable_count, goal)
}
