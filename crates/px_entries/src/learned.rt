//! Tests of what `known_entry` asks of its tables and its entry.
ghost use Rattle.std.specs.Prelude.{◌↔◌, IsTrue};
ghost use Rattle.px_table.specs.Tables.{IsTable};
ghost use Rattle.px_terms.specs.Validity.{IsValid};
ghost use Rattle.px_entries.specs.Entries.{IsEntry};
ghost use Rattle.px_entries.specs.Learned.{AreLearned};

use px_table::{Entry, MOST_STEPS, MOST_TABLES, Table, check_table, is_macro};
use px_terms::{Problem, fits, is_instance_of};

/// Returns whether they are at most [`MOST_TABLES`] tables for the problem, of at most [`MOST_STEPS`] steps each. Entries may be taken
/// from such tables. Does not allocate.
pub fn are_learned(problem: &Problem, tables: &[Table]) -> bool
    requires problem { IsValid problem.now }
    ensures { IsTrue result ↔ AreLearned problem.now tables.now }
{
    if tables.len() > MOST_TABLES {
        return false;
    }
    let all_short = tables.iter().all(|table| table.steps.len() <= MOST_STEPS);
    all_short && tables.iter().all(|table| check_table(problem, table))
}

/// Returns whether it is an entry: an instance of an operator over the problem's objects, each of which fits its parameter, or a MACROP of
/// one of the tables.
/// Does not allocate.
pub fn is_entry(problem: &Problem, tables: &[Table], entry: &Entry) -> bool
    requires problem { IsValid problem.now }
    requires tables { AreLearned problem.now tables.now }
    ensures { IsTrue result ↔ IsEntry problem.now tables.now entry.now }
{
    match entry {
        Entry::Op(inst) => is_instance_of(problem, inst) && fits(problem, inst),
        Entry::Macro {
            number,
            prefix,
            sigma,
        } => match tables.get(*number as usize) {
            Some(table) => is_macro(problem, table, *prefix, sigma.as_slice()),
            None => false,
        },
    }
}
