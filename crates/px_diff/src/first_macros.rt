//! The first of the MACROPs that may be pushed, after the instances of operators.
ghost use Rattle.std.specs.Prelude.{◌<◌, ◌↔◌, All, Contains, IfOk, IsTrue, MatchBool, length};
ghost use Rattle.px_table.specs.EntryOrder.{order_of_entries};
ghost use Rattle.px_table.specs.declared.entry.Entry.{Entry as EntryValue};
ghost use Rattle.px_terms.specs.Validity.{IsValid};
ghost use Rattle.px_diff.specs.Firsts.{AreEnough, BringsFirstEntries, IsBeforePrefix, IsOfTableFrom};
ghost use Rattle.px_entries.specs.Learned.{AreLearned};
ghost use Rattle.px_diff.specs.Macros.{GathersEntriesFor, IsMacroEntry, IsOfTable};
ghost use Rattle.px_entries.specs.Unlimited.{IsNeverLimited};
ghost use Rattle.px_diff.specs.Outcomes.{IfStopped};
ghost use Rattle.px_diff.specs.Requests.{LimitsFor};

use crate::macro_open::facts_suffice;
use crate::macros::{choices_of_table, gather_prefix};
use crate::move_err::MoveErr;
use crate::prefix::Prefix;
use crate::prefix_macros::keep_marks;
use crate::pushes::order_entries;
use crate::request::Request;
use px_entries::first_terms;
use px_gaps::Asker;
use px_table::Entry;

/// Returns whether the entry comes before this many first steps of the table of this number, whatever their objects are.
fn is_before_prefix(entry: &Entry, number: u32, count: u32) -> bool
    ensures { IsTrue result → IsBeforePrefix number count entry.now }
{
    match entry {
        Entry::Op(_) => true,
        Entry::Macro {
            number: other,
            prefix,
            sigma: _,
        } => *other < number || (*other == number && *prefix < count),
    }
}

/// Returns whether all entries come before this many first steps of the table of this number, whatever their objects are.
fn are_before_prefix(entries: &[Entry], number: u32, count: u32) -> bool
    ensures { IsTrue result → All (IsBeforePrefix number count) entries.now }
{
    entries
        .iter()
        .all(|entry| is_before_prefix(entry, number, count))
}

/// Returns whether there are enough entries, and all come before this many first steps of the table of this number. If so, they are in
/// order, each once.
fn can_leave_off_steps(found: &mut Vec<Entry>, number: u32, count: u32, enough: usize) -> bool
    ensures members { (entry : EntryValue) → Contains found.new.items entry ↔ Contains found.old.items entry }
    ensures enough { IsTrue result → AreEnough order_of_entries enough found.new.items }
    ensures before { IsTrue result → All (IsBeforePrefix number count) found.new.items }
{
    if found.len() < enough || !are_before_prefix(found, number, count) {
        return false;
    }
    order_entries(found);
    found.len() >= enough && are_before_prefix(found, number, count)
}

// Alike: `gather_table` of `macros` goes through the same first steps, and through all of them.
/// Adds those of the table's entries that may be pushed, by the number of steps. It stops where there are enough, and those of more steps
/// come after them. Returns whether it gets to the end.
fn gather_first_table(
    asker: &mut Asker,
    found: &mut Vec<Entry>,
    request: &Request,
    number: u32,
    enough: usize,
) -> Result<bool, MoveErr>
    requires problem { IsValid request.now.problem.now }
    requires tables { AreLearned request.now.problem.now request.now.tables.now }
    requires number { number < length request.now.tables.now }
    requires never { IsNeverLimited request.now.problem.now request.now.tables.now }
    ensures gathers { IfOk result (λ is_all. MatchBool is_all
        (GathersEntriesFor request.now (IsOfTable number) found.old.items found.new.items)
        (BringsFirstEntries request.now enough (IsOfTableFrom number) found.old.items found.new.items)) }
    ensures limited { IfStopped result (LimitsFor request.now) }
{
    if can_leave_off_steps(found, number, 0, enough) {
        return Ok(false);
    }
    let table = &request.tables[number as usize];
    let made = choices_of_table(asker, request, table)?;
    let rows = &made;
    let suffice = facts_suffice(request.problem, table);
    let steps = table.steps.len() as u32;
    for count in 2..steps + 1 {
        if can_leave_off_steps(found, number, count, enough) {
            return Ok(false);
        }
        let start = first_terms(asker.alloc, table, count)?;
        let prefix = Prefix {
            alloc: asker.alloc,
            request: *request,
            number,
            table,
            count,
            start: start.as_slice(),
            keeps_marks: keep_marks(request.problem, table, count),
            facts_suffice: suffice,
        };
        gather_prefix(found, &prefix, rows)?;
    }
    Ok(true)
}

/// Adds the MACROPs that may be pushed for the request, table by table. It stops where there are enough, and the others come after them.
/// Returns whether it gets to the end.
pub fn gather_first_tables(
    asker: &mut Asker,
    found: &mut Vec<Entry>,
    request: &Request,
    enough: usize,
) -> Result<bool, MoveErr>
    requires problem { IsValid request.now.problem.now }
    requires tables { AreLearned request.now.problem.now request.now.tables.now }
    requires never { IsNeverLimited request.now.problem.now request.now.tables.now }
    ensures gathers { IfOk result (λ is_all. MatchBool is_all (GathersEntriesFor request.now IsMacroEntry found.old.items found.new.items)
        (BringsFirstEntries request.now enough IsMacroEntry found.old.items found.new.items)) }
    ensures limited { IfStopped result (LimitsFor request.now) }
{
    for number in 0..request.tables.len() as u32 {
        if !gather_first_table(asker, found, request, number, enough)? {
            return Ok(false);
        }
    }
    Ok(true)
}
