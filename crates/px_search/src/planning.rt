//! The search.
ghost use Rattle.std.specs.Prelude.{◌≡◌, ◌<◌, ◌≤◌, ◌⊎◌, ℕ, List, [], length, All, IfOk, IfErr, IsErrOf, IsTrue};
ghost use Rattle.px_terms.specs.Limits.{most_formula_variables};
ghost use Rattle.px_base.specs.Bounds.{u32_max};
ghost use Rattle.px_terms.specs.Plans.{Carries};
ghost use Rattle.px_terms.specs.Sorts.{IsWellSorted};
ghost use Rattle.px_terms.specs.Validity.{IsValid, IsAtomOf, IsInstanceOf};
ghost use Rattle.px_table.specs.declared.entry.Move.{Move};
ghost use Rattle.px_table.specs.declared.node.Node.{Node};
ghost use Rattle.px_table.specs.Supports.{Supports};
ghost use Rattle.px_table.specs.Tables.{AreOfProblem, rows_of};
ghost use Rattle.px_entries.specs.Learned.{AreLearned};
ghost use Rattle.px_gaps.specs.declared.question.MetLimit.{MetLimit};
ghost use Rattle.px_entries.specs.Unlimited.{IsNeverLimited};
ghost use Rattle.px_ends.specs.ByValue.{IsFound, IsExhausted, IsNodeLimit, IsShapeLimit};
ghost use Rattle.px_ends.specs.Made.{MovesRows};
ghost use Rattle.px_ends.specs.Tasks.{initial_node, steps_of, task_of};
ghost use Rattle.px_support.specs.Asking.{IsAskable, task_for};
ghost use Rattle.px_search.specs.Looping.{IsEnd};
ghost use Rattle.px_search.specs.Planned.{IsPlanned};

use crate::best_first::found_by_moves;
use crate::ends::{Found, SearchErr};
use px_entries::never_limited;
use px_ops::Model;
use px_support::{Asked, Support, support_of};
use px_table::{Move, Table};
use px_terms::{Atom, NoMemory, Problem, Sequence};
use std::alloc::Global;

/// Returns the plan of the moves that were found: their steps, and the proofs that carry them.
fn plan_of(asked: &Asked, moves: Sequence<Move>) -> Result<Found, NoMemory>
    requires asked { IsAskable asked.now }
    requires found { IsFound (task_for asked.now) asked.now.problem.now.weight moves }
    ensures { IfOk result (IsPlanned (task_for asked.now)) }
{
    let Support { steps, rows } = support_of(asked, moves.as_slice())?;
    Ok(Found {
        moves,
        steps,
        support: rows,
    })
}

/// Searches, and returns the plan of what is found.
fn found_plan(asked: &Asked, is_never_limited: bool) -> Result<Found, SearchErr>
    requires asked { IsAskable asked.now }
    requires never_limited { IsTrue is_never_limited → IsNeverLimited asked.now.problem.now asked.now.tables.now }
    ensures planned { IfOk result (IsPlanned (task_for asked.now)) }
    ensures ends { IfErr result (IsEnd (task_for asked.now)) }
{
    let moves = found_by_moves(asked, is_never_limited)?;
    match plan_of(asked, moves) {
        Ok(plan) => Ok(plan),
        Err(_) => Err(SearchErr::NoMemory),
    }
}

// Alike: `plan` of px_session asks for the same, since it hands these arguments on.
/// Searches for a plan: the moves to the first solved node, the steps that they take, and the proofs that carry these to the goal.
///
/// # Errors
/// Those of `SearchErr`.
pub fn search(
    alloc: Global,
    problem: &Problem,
    initial: &Model,
    goal: &[Atom],
    variable_count: u32,
    tables: &[Table],
) -> Result<Found, SearchErr>
    requires problem { IsValid problem.now }
    requires goal { All (IsAtomOf problem.now variable_count) goal.now }
    requires few_variables { variable_count ≤ most_formula_variables }
    requires some_object { 0 < variable_count → 0 < problem.now.objects }
    requires tables { AreLearned problem.now tables.now }
    ensures found { IfOk result (λ plan. IsFound (task_of problem.now tables.now initial.now.atoms goal.now variable_count) problem.now.weight
        plan.moves) }
    ensures few { IfOk result (λ plan. length plan.moves < problem.now.nodes) }
    ensures steps { IfOk result (λ plan. plan.steps ≡ steps_of tables.now [] plan.moves) }
    ensures rows { IfOk result (λ plan. MovesRows (task_of problem.now tables.now initial.now.atoms goal.now variable_count)
        (initial_node (task_of problem.now tables.now initial.now.atoms goal.now variable_count)) [] plan.moves (rows_of plan.support.items)) }
    ensures supports { IfOk result (λ plan. Supports problem.now initial.now.atoms plan.steps goal.now variable_count (rows_of plan.support.items)) }
    ensures of_problem { IfOk result (λ plan. AreOfProblem problem.now (rows_of plan.support.items)) }
    ensures instances { IfOk result (λ plan. All (IsInstanceOf problem.now) plan.steps) }
    ensures fitting { IfOk result (λ plan. All (IsWellSorted problem.now) plan.steps) }
    ensures carries { IfOk result (λ plan. Carries problem.now initial.now.atoms plan.steps variable_count goal.now) }
    ensures short { IfOk result (λ plan. length plan.steps < u32_max) }
    ensures exhausted { IsErrOf result SearchErr.Exhausted
        → IsExhausted (task_of problem.now tables.now initial.now.atoms goal.now variable_count) problem.now.weight }
    ensures node_limit { (nodes : List Node) (moves : ℕ) → IsErrOf result (SearchErr.NodeLimit nodes moves)
        → IsNodeLimit (task_of problem.now tables.now initial.now.atoms goal.now variable_count) problem.now.weight nodes moves }
    ensures shape_limit { (node : Node) (limit : MetLimit) → IsErrOf result (SearchErr.ShapeLimit node limit)
        → IsShapeLimit (task_of problem.now tables.now initial.now.atoms goal.now variable_count) problem.now.weight node limit }
    ensures always_found { (moves : List Move)
        → IsFound (task_of problem.now tables.now initial.now.atoms goal.now variable_count) problem.now.weight moves
        → IfOk result (λ plan. plan.moves ≡ moves) × IfErr result (λ e. e ≡ SearchErr.NoMemory) }
    ensures always_exhausted { IsExhausted (task_of problem.now tables.now initial.now.atoms goal.now variable_count) problem.now.weight
        → IsErrOf result SearchErr.Exhausted ⊎ IsErrOf result SearchErr.NoMemory }
    ensures always_node_limit { (nodes : List Node) (moves : ℕ)
        → IsNodeLimit (task_of problem.now tables.now initial.now.atoms goal.now variable_count) problem.now.weight nodes moves
        → IsErrOf result (SearchErr.NodeLimit nodes moves) ⊎ IsErrOf result SearchErr.NoMemory }
    ensures always_shape_limit { (node : Node) (limit : MetLimit)
        → IsShapeLimit (task_of problem.now tables.now initial.now.atoms goal.now variable_count) problem.now.weight node limit
        → ((there : Node) × (first : MetLimit) × IsErrOf result (SearchErr.ShapeLimit there first))
        ⊎ IsErrOf result SearchErr.NoMemory }
{
    let asked = Asked {
        alloc,
        problem,
        nodes: problem.nodes,
        tables,
        initial,
        goal,
        variable_count,
    };
    match never_limited(alloc, problem, tables) {
        Ok(is_never_limited) => found_plan(&asked, is_never_limited),
        Err(_) => Err(SearchErr::NoMemory),
    }
}
