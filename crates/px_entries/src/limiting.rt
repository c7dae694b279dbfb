//! Whether any question about an entry can meet the limit of shapes, by the numbers that the predicates have.
ghost use Rattle.std.specs.Prelude.{◌≡◌, ◌≤◌, length, All, IfOk, IsTrue};
ghost use Rattle.px_table.specs.Limits.{most_steps};
ghost use Rattle.px_terms.specs.Validity.{IsValid};
ghost use Rattle.px_terms.specs.declared.atom.Atom.{Atom as AtomValue};
ghost use Rattle.px_terms.specs.declared.problem.Schema.{Schema as SchemaValue};
ghost use Rattle.px_gaps.specs.Bounds.{AreBounds, HasFewShapes};
ghost use Rattle.px_entries.specs.Learned.{AreLearned};
ghost use Rattle.px_entries.specs.Few.{EachHasFew, HasFew, RowsHaveFew, initial_patterns as patterns_by};
ghost use Rattle.px_entries.specs.Unlimited.{IsNeverLimited};

use crate::entry_rows::{is_initial, push_wanted};
use px_gaps::Bounds;
use px_table::Table;
use px_terms::{Atom, NoMemory, Problem, Schema};
use std::alloc::Global;

/// Returns whether each precondition has few shapes.
fn preconditions_have_few(bounds: &Bounds, problem: &Problem) -> bool
    requires bounds { AreBounds problem.now problem.now.height bounds.now.table }
    ensures { IsTrue result → All (λ (schema : SchemaValue). HasFew problem.now schema.pre) problem.now.schemas }
{
    problem
        .schemas
        .as_slice()
        .iter()
        .all(|schema| bounds.has_few(problem, schema.pre.as_slice()))
}

/// Returns whether each atom by itself has few shapes.
fn each_has_few(bounds: &Bounds, problem: &Problem, atoms: &[Atom]) -> bool
    requires bounds { AreBounds problem.now problem.now.height bounds.now.table }
    ensures { IsTrue result → EachHasFew problem.now atoms.now }
{
    atoms.iter().all(|atom| bounds.has_few(problem, &[*atom]))
}

/// Returns whether each atom that an operator adds has few shapes by itself.
fn adds_have_few(bounds: &Bounds, problem: &Problem) -> bool
    requires bounds { AreBounds problem.now problem.now.height bounds.now.table }
    ensures { IsTrue result → All (λ (schema : SchemaValue). EachHasFew problem.now schema.add) problem.now.schemas }
{
    problem.schemas.as_slice().iter().all(|schema| each_has_few(
        bounds,
        problem,
        schema.add.as_slice(),
    ))
}

/// Returns the atoms of the row's marks that come from the initial model.
fn initial_patterns(alloc: Global, table: &Table, row: u32) -> Result<Vec<Atom>, NoMemory>
    ensures { IfOk result (λ atoms. atoms.items ≡ patterns_by table.now row) }
{
    let marks = table.marks.as_slice();
    let mut atoms = Vec::new(alloc);
    for mark in marks {
        let is_wanted = is_initial(mark, row);
        push_wanted(&mut atoms, mark.atom, is_wanted)?;
    }
    Ok(atoms)
}

/// Returns whether what each row of the table needs of the initial model has few shapes.
fn rows_have_few(
    alloc: Global,
    bounds: &Bounds,
    problem: &Problem,
    table: &Table,
) -> Result<bool, NoMemory>
    requires bounds { AreBounds problem.now problem.now.height bounds.now.table }
    requires short { length table.now.steps ≤ most_steps }
    ensures { IfOk result (λ few. IsTrue few → RowsHaveFew problem.now table.now) }
{
    let steps = table.steps.len() as u32;
    for row in 0..steps + 1 {
        let atoms = initial_patterns(alloc, table, row)?;
        if !bounds.has_few(problem, &atoms) {
            return Ok(false);
        }
    }
    Ok(true)
}

/// Returns whether what each row of all tables needs of the initial model has few shapes.
fn tables_have_few(
    alloc: Global,
    bounds: &Bounds,
    problem: &Problem,
    tables: &[Table],
) -> Result<bool, NoMemory>
    requires bounds { AreBounds problem.now problem.now.height bounds.now.table }
    requires short { All (λ table. length table.steps ≤ most_steps) tables.now }
    ensures { IfOk result (λ few. IsTrue few → All (RowsHaveFew problem.now) tables.now) }
{
    for table in tables {
        if !rows_have_few(alloc, bounds, problem, table)? {
            return Ok(false);
        }
    }
    Ok(true)
}

/// Returns whether it is known that no question about an entry meets the limit of shapes, whatever the facts are. `false` says nothing.
///
/// # Errors
/// `NoMemory` if there isn't enough memory for the bounds.
pub fn never_limited(alloc: Global, problem: &Problem, tables: &[Table]) -> Result<bool, NoMemory>
    requires problem { IsValid problem.now }
    requires tables { AreLearned problem.now tables.now }
    ensures { IfOk result (λ never. IsTrue never → IsNeverLimited problem.now tables.now) }
{
    let bounds = Bounds::of(alloc, problem)?;
    if !preconditions_have_few(&bounds, problem) || !adds_have_few(&bounds, problem) {
        return Ok(false);
    }
    tables_have_few(alloc, &bounds, problem, tables)
}
