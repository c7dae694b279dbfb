//! Going through the moves: the stack and the model as they change, the steps that are taken, and their rows.
ghost use Rattle.std.specs.Prelude.{◌≡◌, ◌≤◌, ◌*◌, [], length, All, IfOk};
ghost use Rattle.px_table.specs.Limits.{most_steps};
ghost use Rattle.px_base.specs.Bounds.{u32_max};
ghost use Rattle.px_terms.specs.Operators.{precondition};
ghost use Rattle.px_terms.specs.Validity.{IsInstanceOf};
ghost use Rattle.px_entries.specs.Entries.{IsEntry, obligations_of};
ghost use Rattle.px_ends.specs.Tasks.{initial_node};
ghost use Rattle.px_table.specs.declared.entry.Entry.{Entry};
ghost use Rattle.px_support.specs.Asking.{AreTakeable, IsAskable, IsFindable, IsTakeable, task_for};
ghost use Rattle.px_support.specs.Going.{AreMovesTaken, HasRoom, IsEntryApplied, IsMoveTaken, node_in};

use crate::applying::apply_to;
use crate::asked::Asked;
use crate::macros::apply_macro;
use crate::rows::first_row;
use px_base::{NoMemory, push};
use px_ops::{Model, precondition_of};
use px_table::{Entry, Move, Row};
use px_terms::OpInst;
use std::alloc::Global;

/// What is reached by moves, and what they made.
#[derive(Drop)]
pub struct Walk {
    /// The entries that are pushed and not applied yet, the top one last.
    pub stack: Vec<Entry>,
    /// The model that the steps leave.
    pub model: Model,
    /// The steps that are taken.
    pub steps: Vec<OpInst>,
    /// A row for each step.
    pub rows: Vec<Row>,
}

impl Walk {
    /// Returns the walk on which nothing is done yet. Does not allocate.
    fn new(alloc: Global, model: Model) -> Walk
        ensures stack { result.stack.items ≡ [] }
        ensures model { result.model.atoms ≡ model.atoms }
        ensures steps { result.steps.items ≡ [] }
        ensures rows { result.rows.items ≡ [] }
    {
        Walk {
            stack: Vec::new(alloc),
            model,
            steps: Vec::new(alloc),
            rows: Vec::new(alloc),
        }
    }
}

/// Applies the operator's instance: its precondition is proved, and then it is the next step.
fn apply_instance(asked: &Asked, mut walk: Walk, inst: &OpInst) -> Result<Walk, NoMemory>
    requires asked { IsAskable asked.now }
    requires inst { IsInstanceOf asked.now.problem.now inst.now }
    requires findable { IsFindable asked.now.problem.now (record
        { formula = precondition asked.now.problem.now inst.now; variable_count = 0; facts = walk.model.atoms }) }
    requires room { HasRoom asked.now.problem.now walk }
    ensures { IfOk result (IsEntryApplied asked.now.problem.now asked.now.tables.now (Entry.Op inst.now) walk) }
{
    let formula = precondition_of(asked.alloc, asked.problem, inst)?;
    let row = first_row(
        asked.alloc,
        asked.problem,
        &walk.steps,
        &walk.model,
        &formula,
        0,
    )?;
    apply_to(asked.problem, &mut walk.model, inst)?;
    push(&mut walk.steps, *inst)?;
    push(&mut walk.rows, row)?;
    Ok(walk)
}

/// Applies the entry.
fn apply_entry(asked: &Asked, walk: Walk, entry: &Entry) -> Result<Walk, NoMemory>
    requires asked { IsAskable asked.now }
    requires entry { IsEntry asked.now.problem.now asked.now.tables.now entry.now }
    requires findable { All (IsFindable asked.now.problem.now)
        (obligations_of asked.now.problem.now asked.now.tables.now walk.model.atoms entry.now) }
    requires room { HasRoom asked.now.problem.now walk }
    ensures { IfOk result (IsEntryApplied asked.now.problem.now asked.now.tables.now entry.now walk) }
{
    match entry {
        Entry::Op(inst) => apply_instance(asked, walk, inst),
        Entry::Macro {
            number,
            prefix,
            sigma,
        } => apply_macro(asked, walk, *number, *prefix, sigma.as_slice()),
    }
}

/// Takes the top entry from the stack and applies it.
fn apply_top(asked: &Asked, mut walk: Walk) -> Result<Walk, NoMemory>
    requires asked { IsAskable asked.now }
    requires takeable { IsTakeable (task_for asked.now) (node_in walk) Move.Apply }
    requires stack { All (IsEntry asked.now.problem.now asked.now.tables.now) (node_in walk).stack }
    requires room { HasRoom asked.now.problem.now walk }
    ensures { IfOk result (IsMoveTaken (task_for asked.now) Move.Apply walk) }
{
    match walk.stack.pop() {
        Some(entry) => apply_entry(asked, walk, &entry),
        None => unreachable!(),
    }
}

/// Puts the entry on the stack.
fn push_entry(asked: &Asked, mut walk: Walk, entry: &Entry) -> Result<Walk, NoMemory>
    ensures { IfOk result (IsMoveTaken (task_for asked.now) (Move.Push entry.now) walk) }
{
    let copy = entry.try_copy()?;
    push(&mut walk.stack, copy)?;
    Ok(walk)
}

/// Takes the move.
fn take(asked: &Asked, walk: Walk, m: &Move) -> Result<Walk, NoMemory>
    requires asked { IsAskable asked.now }
    requires takeable { IsTakeable (task_for asked.now) (node_in walk) m.now }
    requires stack { All (IsEntry asked.now.problem.now asked.now.tables.now) (node_in walk).stack }
    requires room { HasRoom asked.now.problem.now walk }
    ensures { IfOk result (IsMoveTaken (task_for asked.now) m.now walk) }
{
    match m {
        Move::Push(entry) => push_entry(asked, walk, entry),
        Move::Apply => apply_top(asked, walk),
    }
}

/// Takes the moves in order, from the initial model on.
pub fn take_all(asked: &Asked, moves: &[Move]) -> Result<Walk, NoMemory>
    requires asked { IsAskable asked.now }
    requires takeable { AreTakeable (task_for asked.now) (initial_node (task_for asked.now)) moves.now }
    requires short { most_steps * length moves.now ≤ u32_max }
    ensures { IfOk result (AreMovesTaken (task_for asked.now) moves.now) }
{
    let model = asked.initial.try_copy()?;
    let mut walk = Walk::new(asked.alloc, model);
    for m in moves {
        walk = take(asked, walk, m)?;
    }
    Ok(walk)
}
