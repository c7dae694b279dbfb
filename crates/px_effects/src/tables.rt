//! What the lines of a table's block add.
ghost use Rattle.std.specs.Prelude.{◌≡◌, ◌≤◌, ◌++◌, ◌∷◌, [], false, length, map, OnOk};
ghost use Rattle.px_script.specs.Declarations.{problem_here, table_made, table_parameters_here};
ghost use Rattle.px_script.specs.Faults.{is_bad_block};
ghost use Rattle.px_script.specs.Statements as spec;
ghost use Rattle.px_effects.specs.Common.{declared_of, AreReadable, IsFresh, argument_view, leaves, parameters_here, signed_view};
ghost use Rattle.px_so_far.specs.Problems.{HasProblem};
ghost use Rattle.px_so_far.specs.SoFarViews.{open_table_view, table_view};
ghost use Rattle.px_terms.specs.Limits.{most_parameters};
ghost use Rattle.px_script.specs.declared.limits.TheConstants.{LAST_NUMBER as last_number};
ghost use Rattle.px_lines.specs.ItemViews.{part_view};
ghost use Rattle.px_so_far.specs.Heights.{AreReadableParts};

use crate::commands::add_table_name;
use px_base::{NoMemory, push};
use px_lines::{Argument, Part, SignedAtom};
use px_names::Kind;
use px_so_far::{BlockKind, OpenBlock, OpenTable, SoFar, WrittenStep, goal_variables};
use px_table::Row;

/// Opens the block of a table, and adds its name.
pub fn begin_table(
    so_far: &mut SoFar,
    line: u32,
    name: &str,
    parameters: u32,
) -> Result<(), NoMemory>
    requires fresh { IsFresh Kind.Result so_far.old.names name.now }
    ensures { OnOk result (declared_of so_far.new ≡ leaves line (declared_of so_far.old) (spec.table name.now parameters)) }
{
    let alloc = so_far.alloc;
    let name = add_table_name(so_far, name)?;
    so_far.block = Some(OpenBlock {
        line,
        kind: BlockKind::Table(OpenTable {
            name,
            parameters,
            steps: Vec::new(alloc),
            has_goal: false,
            goal: Vec::new(alloc),
            goal_variable_count: 0,
            rows: Vec::new(alloc),
        }),
    });
    Ok(())
}

/// Adds a step to the open table.
pub fn add_step(so_far: &mut SoFar, operator: &str, terms: &[Argument<'_>]) -> Result<(), NoMemory>
    requires few { length (parameters_here (declared_of so_far.old)) ≤ most_parameters }
    requires few_parameters { table_parameters_here (declared_of so_far.old).block ≤ last_number }
    ensures { OnOk result (declared_of so_far.new
        ≡ leaves 0 (declared_of so_far.old) (spec.step operator.now (map argument_view terms.now))) }
{
    let op = so_far.number(Kind::Operator, operator);
    let terms = so_far.table_terms(terms)?;
    if let Some(block) = &mut so_far.block {
        if let BlockKind::Table(table) = &mut block.kind {
            push(&mut table.steps, WrittenStep { op, terms })?;
        }
    }
    Ok(())
}

/// Gives the open table its goal.
pub fn set_goal(so_far: &mut SoFar, atoms: &[SignedAtom<'_>]) -> Result<(), NoMemory>
    requires readable { AreReadable (declared_of so_far.old) atoms.now }
    requires few_parameters { table_parameters_here (declared_of so_far.old).block ≤ last_number }
    ensures { OnOk result (declared_of so_far.new ≡ leaves 0 (declared_of so_far.old) (spec.goal (map signed_view atoms.now))) }
{
    let goal = so_far.table_atoms(atoms)?;
    let goal_variable_count = goal_variables(atoms);
    if let Some(block) = &mut so_far.block {
        if let BlockKind::Table(table) = &mut block.kind {
            table.goal = goal;
            table.goal_variable_count = goal_variable_count;
            table.has_goal = true;
        }
    }
    Ok(())
}

/// Adds a row to the open table.
pub fn add_row(so_far: &mut SoFar, parts: &[Part<'_>]) -> Result<(), NoMemory>
    requires readable { AreReadableParts (declared_of so_far.old) parts.now }
    requires few_parameters { table_parameters_here (declared_of so_far.old).block ≤ last_number }
    ensures { OnOk result (declared_of so_far.new ≡ leaves 0 (declared_of so_far.old) (spec.proof (map part_view parts.now))) }
{
    let proofs = so_far.proofs(parts)?;
    if let Some(block) = &mut so_far.block {
        if let BlockKind::Table(table) = &mut block.kind {
            push(&mut table.rows, Row::from_proofs(proofs))?;
        }
    }
    Ok(())
}

/// Adds the table to those of the script.
pub fn close_table(so_far: &mut SoFar, table: OpenTable) -> Result<(), NoMemory>
    requires problem { HasProblem (declared_of so_far.old) }
    requires good { is_bad_block (problem_here (declared_of so_far.old)) (open_table_view table) ≡ false }
    ensures same { OnOk result (so_far.new ≡ record so_far.old { saved = so_far.new.saved }) }
    ensures saved { OnOk result (so_far.new.saved.items
        ≡ so_far.old.saved.items ++ (table.name, table_made (problem_here (declared_of so_far.old)) (table_view table)) ∷ []) }
{
    let problem = so_far.problem_here()?;
    let name = table.name;
    let made = table.made(so_far.alloc, &problem)?;
    push(&mut so_far.saved, (name, made))
}
