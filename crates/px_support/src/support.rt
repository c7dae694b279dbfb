//! The support of the moves that a search found.
ghost use Rattle.std.specs.Prelude.{◌≡◌, ◌<◌, ◌*◌, [], length, All, IfOk};
ghost use Rattle.px_table.specs.Limits.{most_steps};
ghost use Rattle.px_base.specs.Bounds.{u32_max};
ghost use Rattle.px_terms.specs.Plans.{Carries};
ghost use Rattle.px_terms.specs.Sorts.{IsWellSorted};
ghost use Rattle.px_terms.specs.Validity.{IsInstanceOf};
ghost use Rattle.px_table.specs.Supports.{Supports};
ghost use Rattle.px_table.specs.Tables.{AreOfProblem, rows_of};
ghost use Rattle.px_ends.specs.Made.{MovesRows};
ghost use Rattle.px_ends.specs.Tasks.{initial_node, steps_of};
ghost use Rattle.px_support.specs.Asking.{IsAskable, task_for};
ghost use Rattle.px_support.specs.FoundMoves.{AreFoundMoves};
ghost use Rattle.px_support.specs.Going.{AreMovesTaken};

use crate::asked::Asked;
use crate::laws::moves_have_supports;
use crate::rows::first_row;
use crate::walk::{Walk, take_all};
use px_base::{NoMemory, Sequence, push};
use px_table::{Move, Row};
use px_terms::OpInst;

/// The steps of a plan with the proofs that carry them.
#[derive(Drop)]
pub struct Support {
    /// The steps, in order.
    pub steps: Sequence<OpInst>,
    /// A row of proofs for each step, and the goal's row last.
    pub rows: Vec<Row>,
}

/// Appends the goal's row.
fn with_goal(asked: &Asked, walk: Walk, moves: &[Move]) -> Result<Support, NoMemory>
    requires asked { IsAskable asked.now }
    requires taken { AreMovesTaken (task_for asked.now) moves.now walk }
    requires short { most_steps * length moves.now < u32_max }
    ensures steps { IfOk result (λ support. support.steps ≡ steps_of asked.now.tables.now [] moves.now) }
    ensures rows { IfOk result (λ support. MovesRows (task_for asked.now) (initial_node (task_for asked.now)) [] moves.now
        (rows_of support.rows.items)) }
    ensures short { IfOk result (λ support. length support.steps < u32_max) }
{
    let Walk {
        model,
        steps,
        mut rows,
        ..
    } = walk;
    let row = first_row(
        asked.alloc,
        asked.problem,
        &steps,
        &model,
        asked.goal,
        asked.variable_count,
    )?;
    push(&mut rows, row)?;
    Ok(Support {
        steps: Sequence::from_vec(steps),
        rows,
    })
}

/// Returns the support of the moves that a search found: the steps that the moves take, and the first proofs of what each step needs and
/// of the goal, where each fact names the last step before that adds it, or the initial model. The steps of a MACROP have the rows of its
/// table, with such proofs in the places of their initial facts. Steps and rows are what `build` of `px_table` makes a table of.
///
/// # Errors
/// `NoMemory` where there is no memory.
pub fn support_of(asked: &Asked, moves: &[Move]) -> Result<Support, NoMemory>
    requires asked { IsAskable asked.now }
    requires found { AreFoundMoves (task_for asked.now) moves.now }
    ensures steps { IfOk result (λ support. support.steps ≡ steps_of asked.now.tables.now [] moves.now) }
    ensures rows { IfOk result (λ support. MovesRows (task_for asked.now) (initial_node (task_for asked.now)) [] moves.now
        (rows_of support.rows.items)) }
    ensures supports { IfOk result (λ support. Supports asked.now.problem.now asked.now.initial.now.atoms support.steps asked.now.goal.now
        asked.now.variable_count (rows_of support.rows.items)) }
    ensures of_problem { IfOk result (λ support. AreOfProblem asked.now.problem.now (rows_of support.rows.items)) }
    ensures instances { IfOk result (λ support. All (IsInstanceOf asked.now.problem.now) support.steps) }
    ensures fitting { IfOk result (λ support. All (IsWellSorted asked.now.problem.now) support.steps) }
    ensures carries { IfOk result (λ support. Carries asked.now.problem.now asked.now.initial.now.atoms support.steps asked.now.variable_count
        asked.now.goal.now) }
    ensures short { IfOk result (λ support. length support.steps < u32_max) }
{
    moves_have_supports();
    let walk = take_all(asked, moves)?;
    with_goal(asked, walk, moves)
}
