//! A plan with fresh variables for all that its shape leaves open.
ghost use Rattle.std.specs.Prelude.{◌≡◌, ◌≤◌, IfOk};
ghost use Rattle.px_terms.specs.Validity.{IsValid};
ghost use Rattle.px_table.specs.Tables.{IsTable, rows_of};
ghost use Rattle.px_replay.specs.FreshVariables.{fresh_variables};
ghost use Rattle.px_replay.specs.Opened.{goal_objects, goal_opened, rows_opened, step_variables, steps_opened};

use crate::counting::{count_goal, count_steps};
use crate::goal::open_goal;
use crate::opening::{open_rows, open_steps};
use px_base::NoMemory;
use px_table::{Row, Table};
use px_terms::{Atom, OpInst, Problem};
use px_unify::MOST_VARIABLES;
use std::alloc::Global;

/// A plan with fresh variables for all that its shape leaves open.
#[derive(Drop)]
pub struct Opened {
    /// The steps, each with a variable for each argument.
    pub steps: Vec<OpInst>,
    /// The goal, with a variable for each of its objects and its own variables after those.
    pub goal: Vec<Atom>,
    /// The proofs, with a variable for each argument of a fact of the initial model and for each variable of an axiom.
    pub rows: Vec<Row>,
    /// The number of the variable for the goal's first object.
    pub first_object: u32,
    /// How many objects stand in the goal.
    pub objects: u32,
}

/// Returns the plan of the table, which has no parameters, with fresh variables for all that its shape leaves open.
///
/// # Errors
/// `NoMemory` where there is no memory for the plan.
pub fn open_plan(alloc: Global, problem: &Problem, table: &Table) -> Result<Opened, NoMemory>
    requires problem { IsValid problem.now }
    requires table { IsTable problem.now table.now }
    requires no_params { table.now.params ≡ 0 }
    requires few { fresh_variables table.now ≤ MOST_VARIABLES }
    ensures steps { IfOk result (λ plan. plan.steps.items ≡ steps_opened table.now) }
    ensures goal { IfOk result (λ plan. plan.goal.items ≡ goal_opened table.now) }
    ensures rows { IfOk result (λ plan. rows_of plan.rows.items ≡ rows_opened problem.now table.now) }
    ensures first_object { IfOk result (λ plan. plan.first_object ≡ step_variables table.now.steps) }
    ensures objects { IfOk result (λ plan. plan.objects ≡ goal_objects table.now.goal) }
{
    let first_object = count_steps(table.steps.as_slice()) as u32;
    let objects = count_goal(table.goal.as_slice()) as u32;
    let first_own = first_object + objects;
    let steps = open_steps(alloc, table.steps.as_slice())?;
    let goal = open_goal(alloc, table.goal.as_slice(), first_object, first_own)?;
    let mut next = first_own + table.goal_variable_count;
    let rows = open_rows(alloc, problem, &steps, &mut next, table.proofs.as_slice())?;
    Ok(Opened {
        steps,
        goal,
        rows,
        first_object,
        objects,
    })
}
