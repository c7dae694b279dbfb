//! The table of a support.
ghost use Rattle.std.specs.Prelude.{◌≡◌, ◌<◌, ◌≤◌, ◌++◌, [], ℕ, List, All, IfOk, length, map};
ghost use Rattle.px_base.specs.Bounds.{u32_max};
ghost use Rattle.px_terms.specs.Plans.{Carries};
ghost use Rattle.px_terms.specs.Sorts.{IsWellSorted};
ghost use Rattle.px_terms.specs.Validity.{IsAtomOf, IsInstanceOf, IsValid};
ghost use Rattle.px_proof.specs.ProofTerm.{derivation_of};
ghost use Rattle.px_table.specs.Kernels.{KernelsCarry};
ghost use Rattle.px_table.specs.Marks.{marks_from, row_marks};
ghost use Rattle.px_table.specs.Supports.{Supports};
ghost use Rattle.px_table.specs.Tables.{IsTable, AreOfProblem, rows_of, table_of_rows};

use crate::kept::put_leaves;
use crate::mark::Mark;
use crate::table::{Row, Table};
use indexmap::IndexSet;
use px_base::{NoMemory, Sequence, push};
use px_proof::{Proof, leaves};
use px_terms::{Atom, OpInst, Problem};
use std::alloc::Global;

/// Returns the table of a support: of steps, which fit, and a goal with the proofs that carry them, over the problem's numbers. It has no
/// parameters.
/// In each run that begins in a state in which the atoms hold, in which the axioms hold throughout, and each step of which
/// leaves what its operator describes, each precondition is met, and a run of all steps ends in the goal (Lifschitz 1987).
///
/// # Errors
/// `NoMemory` where there is no memory for the table. The support is then dropped.
pub fn build(
    alloc: Global,
    problem: &Problem,
    goal: &[Atom],
    goal_variable_count: u32,
    steps: &[OpInst],
    support: Vec<Row>,
) -> Result<Table, NoMemory>
    requires problem { IsValid problem.now }
    requires supports { (atoms : List _) × Supports problem.now atoms steps.now goal.now goal_variable_count (rows_of support.items) }
    requires steps { All (IsInstanceOf problem.now) steps.now }
    requires fitting { All (IsWellSorted problem.now) steps.now }
    requires goal { All (IsAtomOf problem.now goal_variable_count) goal.now }
    requires rows { AreOfProblem problem.now (rows_of support.items) }
    requires short { length steps.now < u32_max }
    ensures table { IfOk result (λ table. IsTable problem.now table) }
    ensures kernels { IfOk result (λ table. KernelsCarry problem.now table) }
    ensures value { IfOk result (λ table. table ≡ table_of_rows 0 [] steps.now goal.now goal_variable_count support.items) }
    ensures carries { (atoms : List _) → Supports problem.now atoms steps.now goal.now goal_variable_count (rows_of support.items)
        → Carries problem.now atoms steps.now goal_variable_count goal.now }
{
    let table_marks = marks(alloc, &support)?;
    let table_steps = Sequence::from_slice(alloc, steps)?;
    let table_goal = Sequence::from_slice(alloc, goal)?;
    let proofs = Sequence::from_vec(support);
    let table = Table::without_sorts(
        alloc,
        0,
        table_steps,
        table_goal,
        goal_variable_count,
        table_marks,
        proofs,
    )?;
    Ok(table)
}

/// Returns the marks of the rows, the first of which has number 1: their leaves in order, each once in its row. The proofs may have
/// parameters.
///
/// # Errors
/// `NoMemory` where there is no memory for the list.
pub fn marks(alloc: Global, rows: &[Row]) -> Result<Sequence<Mark>, NoMemory>
    requires { length rows.now ≤ u32_max }
    ensures { IfOk result (λ marks. marks ≡ marks_from 1 (rows_of rows.now)) }
{
    let mut made = Vec::new(alloc);
    for (k, row) in rows.iter().enumerate() {
        let found = marks_of_row(alloc, k as u32 + 1, row.proofs())?;
        append(&mut made, &found)?;
    }
    Ok(Sequence::from_vec(made))
}

/// Appends the marks in their order.
fn append(marks: &mut Vec<Mark>, more: &IndexSet<Mark>) -> Result<(), NoMemory>
    ensures { IfOk result (λ _. marks.new.items ≡ marks.old.items ++ more.now.keys) }
{
    for mark in more.iter() {
        push(marks, *mark)?;
    }
    Ok(())
}

/// Returns the marks of one row.
fn marks_of_row(alloc: Global, number: u32, proofs: &[Proof]) -> Result<IndexSet<Mark>, NoMemory>
    ensures { IfOk result (λ marks. marks.keys ≡ row_marks number (map derivation_of proofs.now)) }
{
    let mut marks = IndexSet::new(alloc);
    for proof in proofs {
        let found = leaves(alloc, proof)?;
        put_leaves(&mut marks, number, &found)?;
    }
    Ok(marks)
}
