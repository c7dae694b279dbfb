//! The first of the entries that may be pushed, where a search has no room for more of them.
ghost use Rattle.std.specs.Prelude.{◌≡◌, ◌≤◌, ◌⊎◌, [], false, length, All, Contains, IfOk, IsTrue, MatchBool};
ghost use Rattle.std.specs.List.Sorted.{IsStrictlySortedBy};
ghost use Rattle.std.specs.declared.cmp.Ordering.TheVariants.{Less};
ghost use Rattle.px_table.specs.declared.entry.Entry.{Entry as EntryValue};
ghost use Rattle.px_table.specs.EntryOrder.{order_of_entries};
ghost use Rattle.px_terms.specs.Operators.{adds};
ghost use Rattle.px_terms.specs.Validity.{IsValid};
ghost use Rattle.px_gaps.specs.Closings.{OneOf};
ghost use Rattle.px_entries.specs.Learned.{AreLearned};
ghost use Rattle.px_entries.specs.Unlimited.{IsNeverLimited};
ghost use Rattle.px_diff.specs.Pushes.{IsPushable};
ghost use Rattle.px_diff.specs.Firsts.{AreFirstEntries, BringsFirstEntries};
ghost use Rattle.px_entries.specs.Instances.{Covers};
ghost use Rattle.px_diff.specs.Macros.{GathersEntriesFor, IsOperatorEntry};
ghost use Rattle.px_diff.specs.Outcomes.{IfStopped};
ghost use Rattle.px_diff.specs.Requests.{LimitsFor};

use crate::first::First;
use crate::first_instances::gather_first;
use crate::first_macros::gather_first_tables;
use crate::move_err::MoveErr;
use crate::pushes::{entries_of, order_entries};
use crate::request::Request;
use px_entries::{PartialInstance, matches_of};
use px_gaps::{Asker, Bounds};
use px_ops::Model;
use px_table::{Entry, Table};
use px_terms::{Atom, NoMemory, Problem};
use std::alloc::Global;

// Alike: `matches_of` of px_entries, whose promise it repeats; these are in order.
/// Returns the matches of what the operators add with the wanted atoms, in order.
fn ordered_matches(
    alloc: Global,
    problem: &Problem,
    wanted: &[Atom],
) -> Result<Vec<PartialInstance>, NoMemory>
    requires { IsValid problem.now }
    ensures { IfOk result (λ found. Covers problem.now (λ full. OneOf wanted.now (Contains (adds problem.now full))) [] found.items) }
{
    let mut matches = matches_of(alloc, problem, wanted)?;
    matches.sort_unstable();
    Ok(matches)
}

/// Returns the entries of operators that may be pushed for the request. Where it isn't said that they are all, there are enough of them,
/// and all others that may be pushed come after them.
fn first_operators(asker: &mut Asker, request: &Request, enough: usize) -> Result<First, MoveErr>
    requires problem { IsValid request.now.problem.now }
    requires tables { AreLearned request.now.problem.now request.now.tables.now }
    ensures gathers { IfOk result (λ first. MatchBool first.is_all (GathersEntriesFor request.now IsOperatorEntry [] first.entries.items)
        (BringsFirstEntries request.now enough (λ entry. Unit {0}) [] first.entries.items)) }
    ensures limited { IfStopped result (LimitsFor request.now) }
{
    let matches = ordered_matches(asker.alloc, request.problem, request.wanted)?;
    let bounds = Bounds::of(asker.alloc, request.problem)?;
    let mut found = Vec::new(asker.alloc);
    let is_all = gather_first(asker, &mut found, request, &bounds, &matches, enough)?;
    let entries = entries_of(asker.alloc, &found)?;
    Ok(First { entries, is_all })
}

/// Returns the first of the entries that may be pushed for the request.
fn first_for(asker: &mut Asker, request: &Request, enough: usize) -> Result<First, MoveErr>
    requires problem { IsValid request.now.problem.now }
    requires tables { AreLearned request.now.problem.now request.now.tables.now }
    requires never { IsNeverLimited request.now.problem.now request.now.tables.now }
    ensures first { IfOk result (λ first. AreFirstEntries request.now enough first.is_all first.entries.items) }
    ensures order { IfOk result (λ first. IsStrictlySortedBy order_of_entries first.entries.items) }
    ensures limited { IfStopped result (LimitsFor request.now) }
{
    let first = first_operators(asker, request, enough)?;
    if !first.is_all {
        return Ok(first);
    }
    let mut entries = first.entries;
    let is_all = gather_first_tables(asker, &mut entries, request, enough)?;
    if !is_all {
        return Ok(First { entries, is_all });
    }
    order_entries(&mut entries);
    Ok(First { entries, is_all })
}

/// Returns the first of the entries that [`relevant`](crate::relevant) returns for an empty stack, where no question about an entry is
/// ever limited: all that may be pushed, or at least `enough` of them, and each other one comes after these.
///
/// # Errors
/// `NoMemory` if there isn't enough memory.
pub fn relevant_first(
    alloc: Global,
    problem: &Problem,
    wanted: &[Atom],
    model: &Model,
    tables: &[Table],
    enough: usize,
) -> Result<First, NoMemory>
    requires problem { IsValid problem.now }
    requires tables { AreLearned problem.now tables.now }
    requires never { IsNeverLimited problem.now tables.now }
    ensures sound { IfOk result (λ first. (entry : EntryValue) → Contains first.entries.items entry
        → IsPushable problem.now tables.now wanted.now [] model.now.atoms entry) }
    ensures order { IfOk result (λ first. IsStrictlySortedBy order_of_entries first.entries.items) }
    ensures all { IfOk result (λ first. IsTrue first.is_all → (entry : EntryValue)
        → IsPushable problem.now tables.now wanted.now [] model.now.atoms entry → Contains first.entries.items entry) }
    ensures enough { IfOk result (λ first. first.is_all ≡ false → enough ≤ length first.entries.items) }
    ensures others { IfOk result (λ first. (entry : EntryValue) → IsPushable problem.now tables.now wanted.now [] model.now.atoms entry
        → Contains first.entries.items entry ⊎ All (λ kept. order_of_entries kept entry ≡ Less) first.entries.items) }
{
    // `atoms` says that these are a model, ascending and each once, on which the proof of what follows rests
    let _facts = model.atoms();
    let mut asker = Asker::new(alloc);
    let request = Request {
        problem,
        wanted,
        stack: &[],
        model,
        tables,
    };
    match first_for(&mut asker, &request, enough) {
        Ok(first) => Ok(first),
        Err(MoveErr::ShapeLimit(_)) => unreachable!(),
        Err(MoveErr::NoMemory) => Err(NoMemory),
    }
}
