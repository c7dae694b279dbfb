//! What entries lack.
ghost use Rattle.std.specs.Prelude.{◌≡◌, ◌∷◌, ◌<◌, ◌+◌, [], ℕ, not, take, length, IfOk};
ghost use Rattle.std.specs.List.{count_by, list_any, sum_by};
ghost use Rattle.px_terms.specs.Validity.{IsValid};
ghost use Rattle.px_table.specs.Kernels.{steps_under};
ghost use Rattle.px_table.specs.Prefixes.{IsMacro};
ghost use Rattle.px_table.specs.Tables.{IsTable};
ghost use Rattle.px_entries.specs.Entries.{IsEntry, obligations_of, row_needs};
ghost use Rattle.px_entries.specs.Learned.{AreLearned};
ghost use Rattle.px_ends.specs.Lacks.{fits as fits_in, lacks_of as lacks_in};

use crate::fitting::fits;
use px_entries::{initial_of, left_of, step_under};
use px_ops::{Model, precondition_of};
use px_table::{Entry, Table};
use px_terms::{Atom, NoMemory, Problem};
use std::alloc::Global;

/// Returns whether an instance of the pattern is among the facts.
fn has_instance(pattern: &Atom, facts: &[Atom]) -> bool
    ensures { result ≡ list_any (fits_in pattern.now) facts.now }
{
    facts.iter().any(|atom| fits(pattern, atom))
}

/// Returns how many atoms of the formula have no instance among the facts. Does not allocate.
pub fn lacks_of(formula: &[Atom], facts: &Model) -> usize
    ensures { result ≡ count_by (λ atom. not (list_any (fits_in atom) facts.now.atoms)) formula.now }
{
    let held = facts.atoms();
    formula
        .iter()
        .filter(|pattern| !has_instance(*pattern, held))
        .count()
}

/// Returns the sum, where it has 64 bits.
fn sum_of(count: usize, more: usize) -> Result<usize, NoMemory>
    ensures { IfOk result (λ sum. sum ≡ count + more) }
{
    count.checked_add(more).ok_or(NoMemory)
}

/// Returns how much the first steps of a table lack, with objects for its parameters.
fn lacks_of_prefix(
    alloc: Global,
    problem: &Problem,
    table: &Table,
    prefix: u32,
    sigma: &[u32],
    model: &Model,
) -> Result<usize, NoMemory>
    requires problem { IsValid problem.now }
    requires table { IsTable problem.now table.now }
    requires prefix { IsMacro problem.now table.now prefix sigma.now }
    ensures { IfOk result (λ count. count ≡ sum_by lacks_in (row_needs problem.now table.now sigma.now model.now.atoms
        (take prefix (steps_under table.now sigma.now)))) }
{
    let mut count = 0;
    let mut facts = model.try_copy()?;
    for place in 0..prefix {
        let step = step_under(table, sigma, place);
        let formula = initial_of(alloc, table, sigma, place + 1)?;
        let row = lacks_of(&formula, &facts);
        let sum = sum_of(count, row)?;
        let left = left_of(alloc, problem, &facts, &step)?;
        count = sum;
        facts = left;
    }
    Ok(count)
}

/// Returns how many atoms that the entry needs have no instance among the facts of the model, over all its rows.
///
/// # Errors
/// `NoMemory` where there is no memory, or the sum has more than 64 bits.
pub fn lacks(
    alloc: Global,
    problem: &Problem,
    tables: &[Table],
    entry: &Entry,
    model: &Model,
) -> Result<usize, NoMemory>
    requires problem { IsValid problem.now }
    requires tables { AreLearned problem.now tables.now }
    requires entry { IsEntry problem.now tables.now entry.now }
    ensures { IfOk result (λ count. count ≡ sum_by lacks_in (obligations_of problem.now tables.now model.now.atoms entry.now)) }
{
    match entry {
        Entry::Op(inst) => {
            let formula = precondition_of(alloc, problem, inst)?;
            Ok(lacks_of(&formula, model))
        }
        Entry::Macro {
            number,
            prefix,
            sigma,
        } => {
            let table = &tables[*number as usize];
            lacks_of_prefix(alloc, problem, table, *prefix, sigma.as_slice(), model)
        }
    }
}
