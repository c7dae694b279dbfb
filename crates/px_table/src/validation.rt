//! Whether something is a triangle table for the problem.
ghost use Rattle.std.specs.Prelude.{◌≡◌, ◌↔◌, ◌+◌, All, IsTrue, map};
ghost use Rattle.px_terms.specs.Operators.{precondition};
ghost use Rattle.px_terms.specs.Validity.{IsAtomOf, IsValid};
ghost use Rattle.px_proof.specs.ProofTerm.{derivation_of};
ghost use Rattle.px_proof.specs.Proves.{IsObjectOrParameter};
ghost use Rattle.px_table.specs.Deciding.{rows_are_table};
ghost use Rattle.px_table.specs.Kernels.{KernelsCarry};
ghost use Rattle.px_table.specs.Supports.{ProvesEachOf, RowsProve};
ghost use Rattle.px_table.specs.TableLaws.{marked_anew};
ghost use Rattle.px_table.specs.Tables.{IsStepOf, IsTable, rows_of, table_of_rows};

use crate::conclusions::positive;
use crate::goal_row::goal_is_proved;
use crate::leaf_sources::leaves_are_named;
use crate::mark_list::marks_are_leaves;
use crate::ranges::are_in_range;
use crate::table::{Row, Table};
use crate::well_sorted::are_well_sorted;
use px_ops::{pre, schema_of};
use px_proof::{Proof, is_tree};
use px_terms::{Atom, OpInst, Problem};

/// Returns whether it is a table for the problem: whether it has fewer than `u32::MAX` steps, its other numbers are in range, it has a sort
/// of the problem for each parameter and each term of its steps may stand at its place, its rows prove the preconditions of its steps and
/// an instance of its goal over the problem's objects and the parameters, each mark names where its atom comes from, and the marks are the
/// leaves of the rows, each once in its row.
///
/// If so, each proper instance of each kernel carries the steps that are left (Fikes, Hart and Nilsson 1972): in each run of
/// them that begins in a state in which the instance holds, in which the axioms hold throughout, and each step of which
/// leaves what its operator describes, each precondition is met, and a run of all of them ends in the goal. Does not allocate.
pub fn check_table(problem: &Problem, table: &Table) -> bool
    requires { IsValid problem.now }
    ensures exact { IsTrue result ↔ IsTable problem.now table.now }
    ensures carries { IsTrue result → KernelsCarry problem.now table.now }
{
    own_rows_make_table(problem, table) && marks_are_leaves(table)
}

/// Returns whether the table's parts, with the marks of its rows, are a table.
fn own_rows_make_table(problem: &Problem, table: &Table) -> bool
    requires { IsValid problem.now }
    ensures { IsTrue result ↔ IsTable problem.now (marked_anew table.now) }
{
    rows_make_table(
        problem,
        table.params,
        table.param_sorts.as_slice(),
        table.steps.as_slice(),
        table.goal.as_slice(),
        table.goal_variable_count,
        table.proofs.as_slice(),
    )
}

/// Returns whether these parameters, steps, goal and rows, with the marks of the rows, are a table for the problem (`check_table`). It
/// asks of no marks whether they are those of the rows, and does not allocate.
pub fn rows_make_table(
    problem: &Problem,
    params: u32,
    param_sorts: &[u32],
    steps: &[OpInst],
    goal: &[Atom],
    goal_variable_count: u32,
    rows: &[Row],
) -> bool
    requires { IsValid problem.now }
    ensures exact { IsTrue result ↔ IsTable problem.now (table_of_rows params param_sorts.now steps.now goal.now goal_variable_count rows.now) }
    ensures computes { result ≡ rows_are_table problem.now params param_sorts.now steps.now goal.now goal_variable_count (rows_of rows.now) }
    ensures carries { IsTrue result
        → KernelsCarry problem.now (table_of_rows params param_sorts.now steps.now goal.now goal_variable_count rows.now) }
{
    meets_each(
        problem,
        params,
        param_sorts,
        steps,
        goal,
        goal_variable_count,
        rows,
    )
}

/// Returns whether these meet each of the conditions of a table.
fn meets_each(
    problem: &Problem,
    params: u32,
    param_sorts: &[u32],
    steps: &[OpInst],
    goal: &[Atom],
    goal_variable_count: u32,
    rows: &[Row],
) -> bool
    requires { IsValid problem.now }
    ensures { IsTrue result ↔ IsTable problem.now (table_of_rows params param_sorts.now steps.now goal.now goal_variable_count rows.now) }
{
    if !are_in_range(problem, params, steps, goal, goal_variable_count)
        || !are_well_sorted(problem, params, param_sorts, steps)
    {
        return false;
    }
    rows_prove(problem, params, steps, goal, goal_variable_count, rows)
        && leaves_are_named(problem, params, steps, rows)
}

/// Returns whether the proofs of the row prove the step's precondition.
pub fn row_proves(problem: &Problem, params: u32, inst: &OpInst, row: &[Proof]) -> bool
    requires problem { IsValid problem.now }
    requires inst { IsStepOf problem.now params inst.now }
    ensures { IsTrue result ↔ ProvesEachOf (IsObjectOrParameter problem.now.objects params) problem.now.axioms
        (precondition problem.now inst.now) (map derivation_of row.now) }
{
    let schema = schema_of(problem, inst);
    if row.len() != schema.pre.len() {
        return false;
    }
    for (k, proof) in row.iter().enumerate() {
        let wanted = positive(pre(schema, inst, k));
        if !is_tree(&problem.axioms, problem.objects, params, &wanted, proof) {
            return false;
        }
    }
    true
}

/// Returns whether the rows prove the preconditions of the steps and the goal.
fn rows_prove(
    problem: &Problem,
    params: u32,
    steps: &[OpInst],
    goal: &[Atom],
    goal_variable_count: u32,
    rows: &[Row],
) -> bool
    requires problem { IsValid problem.now }
    requires steps { All (IsStepOf problem.now params) steps.now }
    requires goal { All (IsAtomOf problem.now (params + goal_variable_count)) goal.now }
    ensures { IsTrue result ↔ RowsProve (IsObjectOrParameter problem.now.objects params) problem.now params steps.now goal.now goal_variable_count
        (rows_of rows.now) }
{
    let count = steps.len();
    if rows.len() != count + 1 {
        return false;
    }
    for (k, inst) in steps.iter().enumerate() {
        if !row_proves(problem, params, inst, rows[k].proofs()) {
            return false;
        }
    }
    goal_is_proved(
        problem,
        params,
        goal_variable_count,
        goal,
        rows[count].proofs(),
    )
}
