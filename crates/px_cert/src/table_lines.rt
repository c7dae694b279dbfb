//! The lines of a certificate's table.
ghost use Rattle.std.specs.Prelude.{◌≡◌, ◌+◌, ◌++◌, ◌∷◌, [], OnOk, codes};
ghost use Rattle.px_table.specs.Limits.{most_steps};
ghost use Rattle.px_cert.specs.declared.draft.Due.TheVariants as due;
ghost use Rattle.px_cert.specs.Drafts.{after_line, rows_then, steps_then};
ghost use Rattle.px_cert.specs.Limits.{most_table_parameters};
ghost use Rattle.px_cert.specs.Lines.{action, goal, row, steps, table};
ghost use Rattle.px_cert.specs.Reading.{Leaves, Reads, goal_items, line_of, number_at, row_items, sorts_at, step_items, then_at};
ghost use Rattle.px_cert.specs.Sound.{IsSound};

use crate::draft::{Draft, Due};
use crate::limits::{MOST_TABLE_PARAMETERS, MOST_WRITTEN_STEPS, TABLE_VARIABLES};
use crate::problem_lines::{number_line, sorts_line};
use crate::proof_terms::row_proofs;
use crate::refused::Refused;
use crate::terms::{atoms, fill};
use crate::words::{expect, number};
use px_base::{NoMemory, Sequence, push};
use px_proof::Proof;
use px_table::Row;
use px_terms::{Atom, MOST_FORMULA_VARIABLES, MOST_PARAMETERS, OpInst, Term};
use std::alloc::Global;

/// Returns what is due where so many rows come.
#[tactic(auto, using(crate::proofs::LineRooms::rows_next))]
fn rows_then(more: u32) -> Due
    ensures { result ≡ rows_then more }
{
    if more == 0 {
        Due::Nothing
    } else {
        Due::Row(more - 1)
    }
}

/// Returns what is due where so many steps come, and then so many rows.
#[tactic(auto, using(crate::proofs::LineRooms::steps_next))]
fn steps_then(more: u32, rows: u32) -> Due
    ensures { result ≡ steps_then more rows }
{
    if more == 0 {
        rows_then(rows)
    } else {
        Due::Step(more - 1, rows)
    }
}

/// Reads the line of the table's parameters.
pub(crate) fn table_line<'a>(
    alloc: Global,
    draft: &mut Draft,
    bytes: &'a [u8],
) -> Result<&'a [u8], Refused>
    ensures { Leaves draft.new result
        (then_at (line_of (codes "table") (sorts_at most_table_parameters) bytes.now) (λ read. after_line draft.old (table read))) }
{
    let (sorts, rest) = sorts_line(alloc, bytes, b"table", MOST_TABLE_PARAMETERS)?;
    draft.params = Sequence::from_vec(sorts);
    draft.due = Due::Goal;
    Ok(rest)
}

/// Reads the line of the goal.
#[tactic(auto, unfolding(crate::specs::Reading::line_of, crate::specs::Reading::goal_items))]
pub(crate) fn goal_line<'a>(
    alloc: Global,
    draft: &mut Draft,
    bytes: &'a [u8],
) -> Result<&'a [u8], Refused>
    requires { IsSound draft.old }
    ensures { Leaves draft.new result
        (then_at (line_of (codes "goal") (goal_items draft.old) bytes.now) (λ read. after_line draft.old (goal read.0 read.1))) }
{
    let rest = expect(bytes, b"goal")?;
    let (variable_count, rest) = number(rest, MOST_FORMULA_VARIABLES as u32 + 1)?;
    let (read, rest) = match atoms(alloc, draft, rest, TABLE_VARIABLES, true) {
        Ok(read) => read,
        Err(refused) => return Err(refused),
    };
    let rest = expect(rest, b"\n")?;
    draft.goal_variable_count = variable_count;
    draft.goal = Sequence::from_vec(read);
    draft.due = Due::Steps;
    Ok(rest)
}

/// Reads the line of the number of steps.
pub(crate) fn steps_line<'a>(draft: &mut Draft, bytes: &'a [u8]) -> Result<&'a [u8], Refused>
    ensures { Leaves draft.new result
        (then_at (line_of (codes "steps") (number_at (most_steps + 1)) bytes.now) (λ read. after_line draft.old (steps read))) }
{
    let (count, rest) = number_line(bytes, b"steps", MOST_WRITTEN_STEPS + 1)?;
    draft.due = steps_then(count, count + 1);
    Ok(rest)
}

/// Reads a step of one of the draft's operators.
#[tactic(auto, unfolding(crate::specs::Reading::step_items))]
fn step_items<'a>(draft: &Draft, bytes: &'a [u8]) -> Result<(OpInst, &'a [u8]), Refused>
    requires { IsSound draft.now }
    ensures { Reads (λ x. (x.0, x.1.now)) result (step_items draft.now bytes.now) }
{
    let (op, rest) = number(bytes, draft.schemas.len() as u32)?;
    let count = draft.schemas.as_slice()[op as usize].params as usize;
    let mut terms = [Term::Any; MOST_PARAMETERS];
    let objects = draft.objects.len() as u32;
    let rest = fill(&mut terms[..count], rest, objects, TABLE_VARIABLES, true)?;
    match OpInst::new(op, &terms[..count]) {
        Some(inst) => Ok((inst, rest)),
        None => unreachable!(),
    }
}

/// Puts the step at the end of the steps.
fn add_step(alloc: Global, draft: &mut Draft, inst: OpInst) -> Result<(), NoMemory>
    ensures { OnOk result (draft.new ≡ record draft.old { steps = draft.old.steps ++ inst ∷ [] }) }
{
    let mut steps = std::mem::replace(
        &mut draft.steps,
        Sequence::from_vec(Vec::new(alloc)),
    ).into_vec();
    push(&mut steps, inst)?;
    draft.steps = Sequence::from_vec(steps);
    Ok(())
}

/// Reads the line of a step, after which so many steps come, and then so many rows.
#[tactic(auto, unfolding(crate::specs::Reading::line_of))]
pub(crate) fn step_line<'a>(
    alloc: Global,
    draft: &mut Draft,
    bytes: &'a [u8],
    more: u32,
    rows: u32,
) -> Result<&'a [u8], Refused>
    requires due { draft.old.due ≡ due.Step more rows }
    requires sound { IsSound draft.old }
    ensures { Leaves draft.new result
        (then_at (line_of (codes "step") (step_items draft.old) bytes.now) (λ read. after_line draft.old (action read))) }
{
    let rest = expect(bytes, b"step")?;
    let (inst, rest) = match step_items(draft, rest) {
        Ok(read) => read,
        Err(refused) => return Err(refused),
    };
    let rest = expect(rest, b"\n")?;
    add_step(alloc, draft, inst)?;
    draft.due = steps_then(more, rows);
    Ok(rest)
}

/// Puts the row at the end of the rows.
fn add_row(alloc: Global, draft: &mut Draft, proofs: Vec<Proof>) -> Result<(), NoMemory>
    ensures { OnOk result (draft.new ≡ record draft.old { rows = draft.old.rows ++ proofs.items ∷ [] }) }
{
    let mut rows = std::mem::replace(
        &mut draft.rows,
        Sequence::from_vec(Vec::new(alloc)),
    ).into_vec();
    push(&mut rows, Row::from_proofs(proofs))?;
    draft.rows = Sequence::from_vec(rows);
    Ok(())
}

/// Reads the line of a row, after which so many come.
#[tactic(auto, unfolding(crate::specs::Reading::line_of))]
pub(crate) fn row_line<'a>(
    alloc: Global,
    draft: &mut Draft,
    bytes: &'a [u8],
    more: u32,
) -> Result<&'a [u8], Refused>
    requires due { draft.old.due ≡ due.Row more }
    requires sound { IsSound draft.old }
    ensures { Leaves draft.new result
        (then_at (line_of (codes "row") (row_items draft.old) bytes.now) (λ read. after_line draft.old (row read))) }
{
    let rest = expect(bytes, b"row")?;
    let (proofs, rest) = match row_proofs(alloc, draft, rest) {
        Ok(read) => read,
        Err(refused) => return Err(refused),
    };
    let rest = expect(rest, b"\n")?;
    add_row(alloc, draft, proofs)?;
    draft.due = rows_then(more);
    Ok(rest)
}
