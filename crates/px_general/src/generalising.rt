//! Generalising a plan.
ghost use Rattle.std.specs.Prelude.{◌≡◌, ◌↔◌, ◌≤◌, ◌+◌, ◌-◌, ◌^◌, All, Err, IfOk, length, replicate};
ghost use Rattle.px_base.specs.Bounds.{u32_max};
ghost use Rattle.px_terms.specs.Language.{IsVariableBelow};
ghost use Rattle.px_terms.specs.Validity.{IsValid};
ghost use Rattle.px_unify.specs.declared.change.Change.TheVariants.{Fresh};
ghost use Rattle.px_table.specs.Kernels.{KernelsCarry};
ghost use Rattle.px_table.specs.Tables.{IsTable, rows_of};
ghost use Rattle.px_replay.specs.FreshVariables.{fresh_variables};
ghost use Rattle.px_replay.specs.Opened.{goal_objects, rows_pairs};
ghost use Rattle.px_replay.specs.Replaying.{CanReplayRows, HasSchema};
ghost use Rattle.px_general.specs.General.{Generalises, KeepsPlan, row_terms, step_terms};
ghost use Rattle.px_general.specs.Limits.{IsTooDeep, IsTooLong, IsTooWide};
ghost use Rattle.px_general.specs.Naming.{IsMadeOf, IsSolutionOf};

use crate::building::{named_rows, named_steps};
use crate::general_err::GeneralErr;
use crate::limits::is_too_deep;
use crate::naming::{labels_along, resolve_all};
use crate::walking::walk;
use px_base::{NoMemory, Sequence};
use px_proof::substitute_terms;
use px_replay::{Opened, fresh_count, named_goal, open_plan, replay_rows};
use px_table::{MOST_STEPS, Table, marks, sorts_by_places};
use px_terms::{Problem, Term};
use px_unify::{Bind, BindErr, MOST_VARIABLES};
use std::alloc::Global;

/// Returns the table whose proper instances are the supports of the plan's shape.
///
/// # Errors
/// `TooLong` exactly where there are more than 64 steps; `TooDeep` exactly where there are at most 64 steps and a proof is higher than 56;
/// `TooWide` exactly where neither is so and the plan takes more than 1,000,000 fresh variables; `NoMemory` where there is no memory.
pub fn generalise(alloc: Global, problem: &Problem, table: &Table) -> Result<Table, GeneralErr>
    requires problem { IsValid problem.now }
    requires table { IsTable problem.now table.now }
    requires no_params { table.now.params ≡ 0 }
    // Its proper instances are the supports of the plan's shape, over whatever objects, of whatever sorts.
    ensures general { IfOk result (λ general. Generalises problem.now table.now general) }

    // Proper or not: it has the plan's operators and the skeletons of its proofs, and with some of the problem's objects it is the plan.
    ensures plan { IfOk result (λ general. KeepsPlan problem.now table.now general) }

    // Each proper instance of each of its kernels carries the steps that are left to the goal.
    ensures kernels { IfOk result (λ general. KernelsCarry problem.now general) }

    // Each refusal comes exactly where its cause is there and none before it in this order is.
    ensures too_long { (result ≡ Err GeneralErr.TooLong) ↔ IsTooLong table.now }
    ensures too_deep { (result ≡ Err GeneralErr.TooDeep) ↔ ((¬ IsTooLong table.now) × IsTooDeep table.now) }
    ensures too_wide { (result ≡ Err GeneralErr.TooWide) ↔ ((¬ IsTooLong table.now) × (¬ IsTooDeep table.now) × IsTooWide table.now) }
{
    if table.steps.len() > MOST_STEPS {
        return Err(GeneralErr::TooLong);
    }
    if is_too_deep(table) {
        return Err(GeneralErr::TooDeep);
    }
    let count = fresh_count(table);
    if count > MOST_VARIABLES as usize {
        return Err(GeneralErr::TooWide);
    }
    match general_table(alloc, problem, table, count as u32) {
        Ok(general) => Ok(general),
        Err(NoMemory) => Err(GeneralErr::NoMemory),
    }
}

/// Returns the general table of a plan that takes `count` fresh variables.
fn general_table(
    alloc: Global,
    problem: &Problem,
    table: &Table,
    count: u32,
) -> Result<Table, NoMemory>
    requires problem { IsValid problem.now }
    requires table { IsTable problem.now table.now }
    requires no_params { table.now.params ≡ 0 }
    requires count { count ≡ fresh_variables table.now }
    requires few { count ≤ MOST_VARIABLES }
    ensures { IfOk result (λ general. Generalises problem.now table.now general × KeepsPlan problem.now table.now general) }
{
    let plan = open_plan(alloc, problem, table)?;
    let resolved = replayed(alloc, problem, &plan, count)?;
    let walked = walk(
        alloc,
        &plan.steps,
        &plan.rows,
        plan.first_object,
        plan.objects,
    )?;
    let labels = labels_along(alloc, &resolved, &walked)?;
    let names = substitute_terms(alloc, &resolved, &labels.terms)?;
    build_general(alloc, problem, table, &plan, labels.params, &names)
}

/// Returns what each of `count` fresh variables is bound to after the replay of the plan.
fn replayed(
    alloc: Global,
    problem: &Problem,
    plan: &Opened,
    count: u32,
) -> Result<Vec<Term>, NoMemory>
    requires problem { IsValid problem.now }
    requires schemas { All (HasSchema problem.now) plan.now.steps.items }
    requires few { count ≤ MOST_VARIABLES }
    requires can { CanReplayRows problem.now plan.now.steps.items plan.now.goal.items (rows_of plan.now.rows.items)
        (replicate count Fresh) }
    ensures { IfOk result (λ resolved. IsSolutionOf (rows_pairs problem.now plan.now.steps.items plan.now.goal.items
        (rows_of plan.now.rows.items)) count resolved.items) }
{
    let mut bind = Bind::new(alloc);
    match bind.fresh(count) {
        Ok(_) => {}
        Err(BindErr::Full) => unreachable!(),
        Err(BindErr::NoMemory) => return Err(NoMemory),
    }
    replay_rows(
        alloc,
        problem,
        &plan.steps,
        &plan.goal,
        &plan.rows,
        &mut bind,
    )?;
    resolve_all(alloc, &bind)
}

/// Returns the table of the opened plan with these names for its variables.
fn build_general(
    alloc: Global,
    problem: &Problem,
    table: &Table,
    plan: &Opened,
    params: u32,
    names: &[Term],
) -> Result<Table, NoMemory>
    requires few { length names.now ≤ MOST_VARIABLES }
    requires steps { All (IsVariableBelow (length names.now)) (step_terms plan.now.steps.items) }
    requires objects { plan.now.first_object + goal_objects table.now.goal ≤ length names.now }
    requires goal { All (λ atom. All (IsVariableBelow (u32_max + 1 - params)) atom.args) table.now.goal }
    requires rows { All (IsVariableBelow (length names.now)) (row_terms (rows_of plan.now.rows.items)) }
    requires short { length plan.now.rows.items ≤ u32_max }
    ensures params { IfOk result (λ general. general.params ≡ params) }
    ensures made { IfOk result (λ general. IsMadeOf problem.now plan.now.steps.items (rows_of plan.now.rows.items)
        plan.now.first_object table.now general names.now) }
{
    let steps = named_steps(alloc, names, &plan.steps)?;
    let goal = named_goal(
        alloc,
        names,
        params,
        plan.first_object,
        table.goal.as_slice(),
    )?;
    let rows = named_rows(alloc, names, &plan.rows)?;
    let found = marks(alloc, &rows)?;
    let sorts = sorts_by_places(alloc, problem, &steps, params)?;
    Ok(Table {
        params,
        steps: Sequence::from_vec(steps),
        goal: Sequence::from_vec(goal),
        goal_variable_count: table.goal_variable_count,
        marks: found,
        proofs: Sequence::from_vec(rows),
        param_sorts: sorts,
    })
}
