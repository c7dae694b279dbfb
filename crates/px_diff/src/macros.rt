//! MACROPs that may be pushed: the first steps of learned tables (Fikes, Hart and Nilsson 1972).
ghost use Rattle.std.specs.Prelude.{◌≡◌, ◌↔◌, ◌<◌, List, length, All, IsTrue, IfSome, IfOk, OnOk};
ghost use Rattle.px_table.specs.declared.entry.Entry.TheVariants.{Macro};
ghost use Rattle.px_table.specs.Prefixes.{IsMacro};
ghost use Rattle.px_table.specs.Tables.{IsTable, IsStepOf};
ghost use Rattle.px_terms.specs.Validity.{IsValid};
ghost use Rattle.px_terms.specs.declared.term.Term.{Term as TermValue};
ghost use Rattle.px_gaps.specs.Bindings.{IsBinding};
ghost use Rattle.px_gaps.specs.Closings.{OneOf};
ghost use Rattle.px_entries.specs.Learned.{AreLearned};
ghost use Rattle.px_diff.specs.Macros.{GathersEntriesFor, IsMacroPrefix, IsMacroBy, IsMacroEntry, IsMacroFitting, IsMacroTold, IsOfPrefix, IsOfTable};
ghost use Rattle.px_entries.specs.Parameters.{IsParameterMatch};
ghost use Rattle.px_diff.specs.Outcomes.{IfStopped};
ghost use Rattle.px_diff.specs.Requests.{IsRelevantEntryFor, LimitsFor};
ghost use Rattle.px_diff.specs.RowQuestions.{AreTableChoices};

use crate::fitting::{fewest, numbers_below, without_place};
use crate::macro_open::are_settled_marks;
use crate::move_err::MoveErr;
use crate::prefix::Prefix;
use crate::prefix_macros::{is_macro_of, keep_marks};
use crate::pushes::are_few;
use crate::relevance::is_stacked;
use crate::request::Request;
use crate::row_choices::TableChoices;
use crate::row_questions::choices_of_rows;
use crate::sorted::{parameter_sort, steps_may_fit};
use px_base::push;
use px_entries::{
    add_wanted, first_terms, first_unbound, known_entry, macro_matches, merged_with_each,
    objects_of, steps_with,
};
use px_gaps::{Asker, Known, bound, unbound};
use px_prover::MOST_GAP_VARIABLES;
use px_table::{Entry, Table};
use px_terms::{Atom, NoMemory, OpInst, Problem, Sequence, Term, fits_sort};
use std::alloc::Global;

/// Returns the entry of the first steps with these objects.
fn entry_of(prefix: &Prefix, sigma: &[u32]) -> Result<Entry, NoMemory>
    ensures { IfOk result (λ entry. entry ≡ Macro prefix.now.number prefix.now.count sigma.now) }
{
    let sigma = Sequence::from_slice(prefix.alloc, sigma)?;
    Ok(Entry::Macro {
        number: prefix.number,
        prefix: prefix.count,
        sigma,
    })
}

/// Returns whether the entry of the first steps is relevant: not on the stack, and adding one of the wanted atoms.
fn is_relevant_macro(prefix: &Prefix, sigma: &[u32], entry: &Entry) -> Result<bool, NoMemory>
    requires prefix { IsMacroPrefix prefix.now }
    requires sigma { IsMacro prefix.now.request.problem.now prefix.now.table.now prefix.now.count sigma.now }
    requires entry { entry.now ≡ Macro prefix.now.number prefix.now.count sigma.now }
    ensures { IfOk result (λ yes'. IsTrue yes' ↔ IsRelevantEntryFor prefix.now.request entry.now) }
{
    if is_stacked(prefix.request.stack, entry) {
        return Ok(false);
    }
    let steps = steps_with(prefix.alloc, prefix.table, prefix.count, sigma)?;
    Ok(add_wanted(prefix.request.problem, &steps, prefix.request.wanted))
}

/// Adds the relevant entry where it may be pushed, as questions about it show.
fn keep_known(found: &mut Vec<Entry>, prefix: &Prefix, entry: Entry) -> Result<(), MoveErr>
    requires prefix { IsMacroPrefix prefix.now }
    requires relevant { IsRelevantEntryFor prefix.now.request entry }
    ensures gathers { OnOk result (GathersEntriesFor prefix.now.request (λ other. entry ≡ other) found.old.items found.new.items) }
    ensures limited { IfStopped result (LimitsFor prefix.now.request) }
{
    match known_entry(
        prefix.alloc,
        prefix.request.problem,
        prefix.request.tables,
        &entry,
        prefix.request.model,
    ) {
        Ok(Known::Applicable) => {
            push(found, entry)?;
            Ok(())
        }
        Ok(Known::Open(_)) => {
            push(found, entry)?;
            Ok(())
        }
        Ok(Known::Closed) => Ok(()),
        Ok(Known::Limited(limit)) => Err(MoveErr::ShapeLimit(limit)),
        Err(NoMemory) => Err(MoveErr::NoMemory),
    }
}

/// Adds the relevant entry of the first steps with these objects where it may be pushed, as the facts show, where they suffice.
fn keep_relevant_macro(
    found: &mut Vec<Entry>,
    prefix: &Prefix,
    sigma: &[u32],
    entry: Entry,
) -> Result<(), MoveErr>
    requires prefix { IsMacroPrefix prefix.now }
    requires sigma { IsMacro prefix.now.request.problem.now prefix.now.table.now prefix.now.count sigma.now }
    requires entry { entry ≡ Macro prefix.now.number prefix.now.count sigma.now }
    requires relevant { IsRelevantEntryFor prefix.now.request entry }
    ensures gathers { OnOk result (GathersEntriesFor prefix.now.request (λ other. entry ≡ other) found.old.items found.new.items) }
    ensures limited { IfStopped result (LimitsFor prefix.now.request) }
{
    if !prefix.facts_suffice {
        return keep_known(found, prefix, entry);
    }
    // `atoms` says that these are a model, ascending and each once, on which the proof of what follows rests
    let _facts = prefix.request.model.atoms();
    match are_settled_marks(prefix, sigma)? {
        Some(true) => {
            push(found, entry)?;
            Ok(())
        }
        Some(false) => Ok(()),
        None => keep_known(found, prefix, entry),
    }
}

/// Adds the entry of the first steps with these objects where it is one that may be pushed.
fn keep_open_macro(found: &mut Vec<Entry>, prefix: &Prefix, sigma: &[u32]) -> Result<(), MoveErr>
    requires prefix { IsMacroPrefix prefix.now }
    ensures gathers { OnOk result (GathersEntriesFor prefix.now.request (λ other. Macro prefix.now.number prefix.now.count sigma.now ≡ other)
        found.old.items found.new.items) }
    ensures limited { IfStopped result (LimitsFor prefix.now.request) }
{
    if !is_macro_of(prefix, sigma) {
        return Ok(());
    }
    let entry = entry_of(prefix, sigma)?;
    if !is_relevant_macro(prefix, sigma, &entry)? {
        return Ok(());
    }
    keep_relevant_macro(found, prefix, sigma, entry)
}

/// Adds those of the entries of the first steps, with the objects that are chosen, that may be pushed. Each recursive call has one
/// parameter without an object less. An object of another sort than its places have is passed over.
fn keep_all(found: &mut Vec<Entry>, prefix: &Prefix, terms: &[Term]) -> Result<(), MoveErr>
    requires prefix { IsMacroPrefix prefix.now }
    requires binding { IsBinding prefix.now.request.problem.now.objects terms.now }
    ensures gathers { OnOk result (GathersEntriesFor prefix.now.request
        (IsMacroBy prefix.now.request.problem.now.objects prefix.now.number prefix.now.count terms.now) found.old.items found.new.items) }
    ensures limited { IfStopped result (LimitsFor prefix.now.request) }
{
    if !steps_may_fit(prefix, terms) {
        return Ok(());
    }
    let parameter = match first_unbound(terms) {
        Some(parameter) => parameter,
        None => {
            let sigma = objects_of(prefix.alloc, terms)?;
            return keep_open_macro(found, prefix, sigma.as_slice());
        }
    };
    let problem = prefix.request.problem;
    let sort = parameter_sort(prefix, parameter);
    for object in 0..problem.objects {
        if !fits_sort(problem.object_sorts.as_slice(), sort, object) {
            continue;
        }
        let next = bound(prefix.alloc, terms, parameter, object)?;
        keep_all(found, prefix, &next)?;
    }
    Ok(())
}

/// Adds those whose objects fit one of the choices of each row. Each recursive call chooses from one of the rows of these numbers, and has
/// one number less. It takes a row of which few choices fit the terms.
fn keep_by_rows(
    found: &mut Vec<Entry>,
    prefix: &Prefix,
    terms: &[Term],
    rows: &[Sequence<Sequence<Term>>],
    numbers: &[usize],
) -> Result<(), MoveErr>
    requires prefix { IsMacroPrefix prefix.now }
    requires binding { IsBinding prefix.now.request.problem.now.objects terms.now }
    requires rows { All (All (λ (choice : List TermValue). length choice ≡ length terms.now)) rows.now }
    requires numbers { All (λ number. number < length rows.now) numbers.now }
    ensures gathers { OnOk result (GathersEntriesFor prefix.now.request
        (IsMacroFitting prefix.now.request.problem.now.objects prefix.now.number prefix.now.count terms.now rows.now) found.old.items
        found.new.items) }
    ensures limited { IfStopped result (LimitsFor prefix.now.request) }
{
    let limit = prefix.request.problem.objects;
    let place = match fewest(limit, terms, rows, numbers) {
        Some(place) => place,
        None => return keep_all(found, prefix, terms),
    };
    let others = without_place(prefix.alloc, numbers, place)?;
    let choices = rows[numbers[place]].as_slice();
    let made = merged_with_each(prefix.alloc, limit, terms, choices)?;
    let joins = made.as_slice();
    for next in joins {
        keep_by_rows(found, prefix, next.as_slice(), rows, &others)?;
    }
    Ok(())
}

/// Adds those whose objects fit one of the choices of each row.
fn keep_fitting(
    found: &mut Vec<Entry>,
    prefix: &Prefix,
    terms: &[Term],
    rows: &[Sequence<Sequence<Term>>],
) -> Result<(), MoveErr>
    requires prefix { IsMacroPrefix prefix.now }
    requires binding { IsBinding prefix.now.request.problem.now.objects terms.now }
    requires rows { All (All (λ (choice : List TermValue). length choice ≡ length terms.now)) rows.now }
    ensures gathers { OnOk result (GathersEntriesFor prefix.now.request
        (IsMacroFitting prefix.now.request.problem.now.objects prefix.now.number prefix.now.count terms.now rows.now) found.old.items
        found.new.items) }
    ensures limited { IfStopped result (LimitsFor prefix.now.request) }
{
    let numbers = numbers_below(prefix.alloc, rows.len())?;
    keep_by_rows(found, prefix, terms, rows, &numbers)
}

/// Adds all entries that the matches stand for and that may be pushed, each tried by itself.
fn keep_listed(
    found: &mut Vec<Entry>,
    prefix: &Prefix,
    matches: &[Sequence<Term>],
) -> Result<(), MoveErr>
    requires prefix { IsMacroPrefix prefix.now }
    requires matches { All (IsParameterMatch prefix.now.request.problem.now.objects prefix.now.table.now.params) matches.now }
    ensures gathers { OnOk result (GathersEntriesFor prefix.now.request
        (λ entry. OneOf matches.now (λ (terms : List TermValue). IsMacroBy prefix.now.request.problem.now.objects prefix.now.number
        prefix.now.count terms entry)) found.old.items found.new.items) }
    ensures limited { IfStopped result (LimitsFor prefix.now.request) }
{
    for terms in matches {
        keep_all(found, prefix, terms.as_slice())?;
    }
    Ok(())
}

/// Adds those that have the objects of the terms and fit one of the choices of each row, or one of the terms at which some row
/// meets the limit.
fn keep_told(
    found: &mut Vec<Entry>,
    prefix: &Prefix,
    terms: &[Term],
    rows: &[Sequence<Sequence<Term>>],
    limited: &[Sequence<Sequence<Term>>],
) -> Result<(), MoveErr>
    requires prefix { IsMacroPrefix prefix.now }
    requires binding { IsBinding prefix.now.request.problem.now.objects terms.now }
    requires rows { All (All (λ (choice : List TermValue). length choice ≡ length terms.now)) rows.now }
    requires limited { All (All (λ (choice : List TermValue). length choice ≡ length terms.now)) limited.now }
    ensures gathers { OnOk result (GathersEntriesFor prefix.now.request
        (IsMacroTold prefix.now.request.problem.now.objects prefix.now.number prefix.now.count rows.now limited.now terms.now) found.old.items
        found.new.items) }
    ensures limited { IfStopped result (LimitsFor prefix.now.request) }
{
    for place in 0..limited.len() {
        keep_fitting(found, prefix, terms, &limited[place..place + 1])?;
    }
    keep_fitting(found, prefix, terms, rows)
}

/// Adds those of the entries that the matches stand for whose objects fit one of the choices of each row, or one of the terms at
/// which some row meets the limit.
fn keep_matches(
    found: &mut Vec<Entry>,
    prefix: &Prefix,
    matches: &[Sequence<Term>],
    rows: &[Sequence<Sequence<Term>>],
    limited: &[Sequence<Sequence<Term>>],
) -> Result<(), MoveErr>
    requires prefix { IsMacroPrefix prefix.now }
    requires matches { All (IsParameterMatch prefix.now.request.problem.now.objects prefix.now.table.now.params) matches.now }
    requires rows { All (All (λ (choice : List TermValue). length choice ≡ prefix.now.table.now.params)) rows.now }
    requires limited { All (All (λ (choice : List TermValue). length choice ≡ prefix.now.table.now.params)) limited.now }
    ensures gathers { OnOk result (GathersEntriesFor prefix.now.request
        (λ entry. OneOf matches.now (λ (terms : List TermValue). IsMacroTold prefix.now.request.problem.now.objects prefix.now.number
        prefix.now.count rows.now limited.now terms entry)) found.old.items found.new.items) }
    ensures limited { IfStopped result (LimitsFor prefix.now.request) }
{
    for terms in matches {
        keep_told(found, prefix, terms.as_slice(), rows, limited)?;
    }
    Ok(())
}

/// Adds those of all entries of the first steps that may be pushed. The rows are what questions about the whole table gave, where no
/// parameter had an object; without them each entry is tried by itself.
pub fn gather_prefix(
    found: &mut Vec<Entry>,
    prefix: &Prefix,
    rows: &Option<TableChoices>,
) -> Result<(), MoveErr>
    requires prefix { IsMacroPrefix prefix.now }
    requires rows { IfSome rows.now (AreTableChoices prefix.now.request.problem.now prefix.now.request.model.now.atoms prefix.now.table.now) }
    ensures gathers { OnOk result (GathersEntriesFor prefix.now.request (IsOfPrefix prefix.now.number prefix.now.count) found.old.items
        found.new.items) }
    ensures limited { IfStopped result (LimitsFor prefix.now.request) }
{
    let problem = prefix.request.problem;
    if problem.objects == 0 {
        let sigma = objects_of(prefix.alloc, prefix.start)?;
        return keep_open_macro(found, prefix, &sigma);
    }
    let count = prefix.count as usize;
    let steps = &prefix.table.steps.as_slice()[..count];
    let made = macro_matches(
        prefix.alloc,
        problem,
        prefix.start,
        steps,
        prefix.request.wanted,
    )?;
    let matches = made.as_slice();
    match rows {
        Some(known) => {
            let choices = &known.choices.as_slice()[..count];
            let limited = &known.limited.as_slice()[..count];
            keep_matches(found, prefix, matches, choices, limited)
        }
        None => keep_listed(found, prefix, matches),
    }
}

/// Returns whether one of the steps by itself has a match.
fn one_matches(
    alloc: Global,
    problem: &Problem,
    start: &[Term],
    steps: &[OpInst],
    wanted: &[Atom],
) -> Result<bool, NoMemory>
    requires problem { IsValid problem.now }
    requires steps { All (IsStepOf problem.now (length start.now)) steps.now }
    requires binding { IsBinding problem.now.objects start.now }
{
    for place in 0..steps.len() {
        let step = &steps[place..place + 1];
        let matches = macro_matches(alloc, problem, start, step, wanted)?;
        if !matches.is_empty() {
            return Ok(true);
        }
    }
    Ok(false)
}

/// Returns what is known of all rows of the table, where no parameter has an object yet. `None` where the problem has no object, where the
/// table has more parameters than a question may have variables, and where none of its steps adds a wanted atom.
pub fn choices_of_table(
    asker: &mut Asker,
    request: &Request,
    table: &Table,
) -> Result<Option<TableChoices>, NoMemory>
    requires problem { IsValid request.now.problem.now }
    requires table { IsTable request.now.problem.now table.now }
    ensures { IfOk result (λ found. IfSome found (AreTableChoices request.now.problem.now request.now.model.now.atoms table.now)) }
{
    let problem = request.problem;
    if problem.objects == 0 || table.params > MOST_GAP_VARIABLES {
        return Ok(None);
    }
    let made = unbound(asker.alloc, table.params)?;
    let terms = made.as_slice();
    let steps = table.steps.as_slice();
    if !one_matches(asker.alloc, problem, terms, steps, request.wanted)? {
        return Ok(None);
    }
    let rows = choices_of_rows(asker, problem, request.model, table, terms)?;
    Ok(Some(rows))
}

/// Up to so many choices of objects for a table's parameters are each tried by themselves, where questions may meet the limit.
const FEW_MACROPS: u64 = 256;

/// Returns what is known of all rows of the table, as `choices_of_table`. `None`, too, where there are few choices of objects: a question
/// about a row may take as many steps as the limit allows, and say nothing.
fn rows_of_table(
    asker: &mut Asker,
    request: &Request,
    table: &Table,
) -> Result<Option<TableChoices>, NoMemory>
    requires problem { IsValid request.now.problem.now }
    requires table { IsTable request.now.problem.now table.now }
    ensures { IfOk result (λ found. IfSome found (AreTableChoices request.now.problem.now request.now.model.now.atoms table.now)) }
{
    if are_few(request.problem.objects, table.params, FEW_MACROPS) {
        return Ok(None);
    }
    choices_of_table(asker, request, table)
}

/// Adds those of the table's entries that may be pushed.
fn gather_table(
    asker: &mut Asker,
    found: &mut Vec<Entry>,
    request: &Request,
    number: u32,
) -> Result<(), MoveErr>
    requires problem { IsValid request.now.problem.now }
    requires tables { AreLearned request.now.problem.now request.now.tables.now }
    requires number { number < length request.now.tables.now }
    ensures gathers { OnOk result (GathersEntriesFor request.now (IsOfTable number) found.old.items found.new.items) }
    ensures limited { IfStopped result (LimitsFor request.now) }
{
    let table = &request.tables[number as usize];
    let made = rows_of_table(asker, request, table)?;
    let rows = &made;
    let steps = table.steps.len() as u32;
    for count in 2..steps + 1 {
        let start = first_terms(asker.alloc, table, count)?;
        let prefix = Prefix {
            alloc: asker.alloc,
            request: *request,
            number,
            table,
            count,
            start: start.as_slice(),
            keeps_marks: keep_marks(request.problem, table, count),
            facts_suffice: false,
        };
        gather_prefix(found, &prefix, rows)?;
    }
    Ok(())
}

/// Adds the MACROPs that may be pushed for the request.
pub fn gather_tables(
    asker: &mut Asker,
    found: &mut Vec<Entry>,
    request: &Request,
) -> Result<(), MoveErr>
    requires problem { IsValid request.now.problem.now }
    requires tables { AreLearned request.now.problem.now request.now.tables.now }
    ensures gathers { OnOk result (GathersEntriesFor request.now IsMacroEntry found.old.items found.new.items) }
    ensures limited { IfStopped result (LimitsFor request.now) }
{
    for number in 0..request.tables.len() as u32 {
        gather_table(asker, found, request, number)?;
    }
    Ok(())
}
