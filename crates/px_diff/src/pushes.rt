//! Which entries may be pushed where these atoms are wanted.
ghost use Rattle.std.specs.Prelude.{◌≡◌, ◌↔◌, ◌⊎◌, ◌<◌, ◌≤◌, ℕ, List, map, All, Any, Contains, IfOk, IfSome, OnOk};
ghost use Rattle.std.specs.List.Sorted.{IsStrictlySortedBy};
ghost use Rattle.px_prover.specs.Limits.{most_gap_variables};
ghost use Rattle.px_prover.specs.PatternLists.{lists_of};
ghost use Rattle.px_question.specs.Settings.{setting_of};
ghost use Rattle.px_table.specs.declared.entry.Entry.{Entry};
ghost use Rattle.px_table.specs.declared.entry.Entry.TheVariants.{Op};
ghost use Rattle.px_table.specs.EntryOrder.{order_of_entries};
ghost use Rattle.px_terms.specs.declared.instance.OpInst.{OpInst};
ghost use Rattle.px_terms.specs.Validity.{IsAtomOf, IsValid, IsInstanceOf};
ghost use Rattle.px_gaps.specs.Bounds.{AreBounds};
ghost use Rattle.px_gaps.specs.Closings.{OneOf};
ghost use Rattle.px_entries.specs.Entries.{obligations_of};
ghost use Rattle.px_gaps.specs.GapAnswers.{AnswersSome, IsGapAnswer};
ghost use Rattle.px_diff.specs.Gathering.{AreObjectsFor, IsOpenIn, instance_by};
ghost use Rattle.px_entries.specs.Instances.{IsCovered, IsPartialInstance, StandsFor};
ghost use Rattle.px_entries.specs.Learned.{AreLearned};
ghost use Rattle.px_diff.specs.Outcomes.{IfStopped};
ghost use Rattle.px_diff.specs.Pushes.{IsRelevant, IsPushable, LimitsRelevant};
ghost use Rattle.px_gaps.specs.Questions.{AreBelow, AreUnlimited};
ghost use Rattle.px_diff.specs.Requests.{AreBelowFor, AreUnlimitedFor, GathersFor, IsPushableFor, IsRelevantFor, LimitsFor};

use crate::macros::gather_tables;
use crate::measured::Measured;
use crate::move_err::MoveErr;
use crate::relevance::is_relevant;
use crate::request::Request;
use crate::rest::rest_answer;
use crate::sorted::{may_fit, variable_sorts};
use px_base::push;
use px_entries::{PartialInstance, bound_instance, filled, known_entry, matches_of};
use px_gaps::{AskErr, Asker, Bounds, GapAnswer, Known, Sorting, ask_gaps, choices_of};
use px_ops::{Model, precondition_of};
use px_table::{Entry, Table};
use px_terms::{Atom, NoMemory, OpInst, Problem, Sequence};
use std::alloc::Global;

/// Adds the instance without variables where it may be pushed, as questions about it alone show.
fn gather_one(
    alloc: Global,
    found: &mut Vec<OpInst>,
    request: &Request,
    inst: &OpInst,
) -> Result<(), MoveErr>
    requires problem { IsValid request.now.problem.now }
    requires tables { AreLearned request.now.problem.now request.now.tables.now }
    requires inst { IsInstanceOf request.now.problem.now inst.now }
    ensures gathers { OnOk result (GathersFor request.now (λ other. inst.now ≡ other) found.old.items found.new.items) }
    ensures limited { IfStopped result (LimitsFor request.now) }
{
    if !is_relevant(request, inst) {
        return Ok(());
    }
    let entry = Entry::Op(*inst);
    match known_entry(
        alloc,
        request.problem,
        request.tables,
        &entry,
        request.model,
    ) {
        Ok(Known::Applicable) => {
            push(found, *inst)?;
            Ok(())
        }
        Ok(Known::Open(_)) => {
            push(found, *inst)?;
            Ok(())
        }
        Ok(Known::Closed) => Ok(()),
        Ok(Known::Limited(limit)) => Err(MoveErr::ShapeLimit(limit)),
        Err(NoMemory) => Err(MoveErr::NoMemory),
    }
}

/// Adds the instance with these objects, where it is relevant.
fn keep_relevant(
    found: &mut Vec<OpInst>,
    request: &Request,
    partial: &PartialInstance,
    objects: &[u32],
) -> Result<(), NoMemory>
    requires problem { IsValid request.now.problem.now }
    requires partial { IsPartialInstance request.now.problem.now partial.now }
    requires objects { AreObjectsFor request.now.problem.now partial.now objects.now }
    ensures { OnOk result ((inst : OpInst) → Contains found.new.items inst
        ↔ (Contains found.old.items inst ⊎ ((instance_by partial.now objects.now ≡ inst) × IsRelevantFor request.now inst))) }
{
    let inst = filled(partial, objects);
    if !is_relevant(request, &inst) {
        return Ok(());
    }
    push(found, inst)
}

/// Adds the instance with each of the choices of objects, where it is relevant.
fn keep_choices(
    found: &mut Vec<OpInst>,
    request: &Request,
    partial: &PartialInstance,
    choices: &[Sequence<u32>],
) -> Result<(), NoMemory>
    requires problem { IsValid request.now.problem.now }
    requires partial { IsPartialInstance request.now.problem.now partial.now }
    requires choices { All (AreObjectsFor request.now.problem.now partial.now) choices.now }
    ensures { OnOk result ((inst : OpInst) → Contains found.new.items inst
        ↔ (Contains found.old.items inst ⊎ OneOf choices.now (λ (objects : List ℕ). (instance_by partial.now objects ≡ inst)
        × IsRelevantFor request.now inst))) }
{
    for objects in choices {
        keep_relevant(found, request, partial, objects.as_slice())?;
    }
    Ok(())
}

/// Adds the relevant instances that the partial one is with the objects of those gap lists that close nothing provable.
fn keep_open(
    alloc: Global,
    found: &mut Vec<OpInst>,
    request: &Request,
    partial: &PartialInstance,
    answer: &GapAnswer,
) -> Result<(), NoMemory>
    requires problem { IsValid request.now.problem.now }
    requires partial { IsPartialInstance request.now.problem.now partial.now }
    requires answer { AnswersSome request.now.problem.now request.now.model.now.atoms partial.now.variable_count answer.now.patterns.items
        answer.now.provable.atoms }
    ensures { OnOk result ((inst : OpInst) → Contains found.new.items inst
        ↔ (Contains found.old.items inst ⊎ (IsOpenIn partial.now (lists_of request.now.problem.now.objects answer.now.patterns.items)
        answer.now.provable.atoms inst × IsRelevantFor request.now inst))) }
{
    let problem = request.problem;
    let sorts = variable_sorts(problem, partial);
    let sorting = Sorting {
        object_sorts: problem.object_sorts.as_slice(),
        wanted: &sorts,
    };
    let limit = problem.objects;
    let choices = choices_of(alloc, limit, &sorting, &answer.patterns, &answer.provable)?;
    keep_choices(found, request, partial, &choices)
}

/// Up to so many instances are each asked about by themselves, where a question about all of them may meet the limit. Such a question takes
/// as many steps as the limit allows, and says nothing.
const FEW_INSTANCES: u64 = 9;

/// Returns whether there are at most this number of choices of objects for the variables. Nothing rests on the answer.
pub fn are_few(objects: u32, variable_count: u32, most: u64) -> bool {
    let mut choices: u64 = 1;
    for _place in 0..variable_count {
        choices = choices.saturating_mul(objects as u64);
        if choices > most {
            return false;
        }
    }
    true
}

/// Returns what one question of gaps says of the formula. `None` where it meets the limit. It isn't asked where there are few choices of
/// objects.
fn whole_answer(
    asker: &mut Asker,
    request: &Request,
    formula: &[Atom],
    variable_count: u32,
) -> Result<Option<GapAnswer>, NoMemory>
    requires problem { IsValid request.now.problem.now }
    requires formula { All (IsAtomOf request.now.problem.now variable_count) formula.now }
    requires few_variables { variable_count ≤ most_gap_variables }
    requires some_object { 0 < variable_count → 0 < request.now.problem.now.objects }
    ensures { IfOk result (λ found. IfSome found (λ answer. IsGapAnswer (setting_of request.now.problem.now request.now.model.now.atoms)
        formula.now variable_count answer.patterns.items answer.provable.atoms)) }
{
    if are_few(request.problem.objects, variable_count, FEW_INSTANCES) {
        return Ok(None);
    }
    match ask_gaps(
        asker,
        request.problem,
        formula,
        variable_count,
        request.model,
    ) {
        Ok(answer) => Ok(Some(answer)),
        Err(AskErr::NoMemory) => Err(NoMemory),
        Err(AskErr::ShapeLimit { .. }) => Ok(None),
    }
}

/// Adds the instances that the partial one stands for and that may be pushed: by one question, about the rest of what it needs or about
/// all of it, where this decides all of them, else in the same way for each object that its first variable may be. Each recursive call has
/// one variable less. Nothing is asked where an object stands at a place of another sort.
pub fn gather(
    asker: &mut Asker,
    found: &mut Vec<OpInst>,
    request: &Request,
    bounds: &Bounds,
    partial: &PartialInstance,
) -> Result<(), MoveErr>
    requires problem { IsValid request.now.problem.now }
    requires tables { AreLearned request.now.problem.now request.now.tables.now }
    requires bounds { AreBounds request.now.problem.now request.now.problem.now.height bounds.now.table }
    requires partial { IsPartialInstance request.now.problem.now partial.now }
    ensures gathers { OnOk result (GathersFor request.now (StandsFor request.now.problem.now partial.now) found.old.items found.new.items) }
    ensures limited { IfStopped result (LimitsFor request.now) }
{
    // `atoms` says that these are a model, ascending and each once, on which the proof of what follows rests
    let _facts = request.model.atoms();
    if !may_fit(request.problem, partial) {
        return Ok(());
    }
    let formula = precondition_of(asker.alloc, request.problem, &partial.inst)?;
    match rest_answer(asker, request, bounds, &formula, partial.variable_count)? {
        Some(answer) => {
            keep_open(asker.alloc, found, request, partial, &answer)?;
            return Ok(());
        }
        None => {}
    }
    if partial.variable_count == 0 {
        return gather_one(asker.alloc, found, request, &partial.inst);
    }
    match whole_answer(asker, request, &formula, partial.variable_count)? {
        Some(answer) => {
            keep_open(asker.alloc, found, request, partial, &answer)?;
            return Ok(());
        }
        None => {}
    }
    for object in 0..request.problem.objects {
        let next = bound_instance(partial, 0, object);
        gather(asker, found, request, bounds, &next)?;
    }
    Ok(())
}

/// Adds the instances that the matches stand for and that may be pushed.
fn gather_matches(
    asker: &mut Asker,
    found: &mut Vec<OpInst>,
    request: &Request,
    bounds: &Bounds,
    matches: &[PartialInstance],
) -> Result<(), MoveErr>
    requires problem { IsValid request.now.problem.now }
    requires tables { AreLearned request.now.problem.now request.now.tables.now }
    requires bounds { AreBounds request.now.problem.now request.now.problem.now.height bounds.now.table }
    requires matches { All (IsPartialInstance request.now.problem.now) matches.now }
    ensures gathers { OnOk result (GathersFor request.now (IsCovered request.now.problem.now matches.now) found.old.items found.new.items) }
    ensures limited { IfStopped result (LimitsFor request.now) }
{
    for partial in matches {
        gather(asker, found, request, bounds, partial)?;
    }
    Ok(())
}

/// Returns the entries of the instances.
pub fn entries_of(alloc: Global, insts: &[OpInst]) -> Result<Vec<Entry>, NoMemory>
    ensures { IfOk result (λ entries. entries.items ≡ map Op insts.now) }
{
    let mut entries = Vec::new(alloc);
    for inst in insts {
        entries.push(Entry::Op(*inst))?;
    }
    Ok(entries)
}

/// Puts the entries in order, each once.
pub fn order_entries(found: &mut Vec<Entry>)
    ensures members { (entry : Entry) → Contains found.new.items entry ↔ Contains found.old.items entry }
    ensures ordered { IsStrictlySortedBy order_of_entries found.new.items }
{
    found.sort_unstable();
    found.dedup();
}

/// Returns the entries that may be pushed for the request.
fn pushable_for(asker: &mut Asker, request: &Request) -> Result<Vec<Entry>, MoveErr>
    requires problem { IsValid request.now.problem.now }
    requires tables { AreLearned request.now.problem.now request.now.tables.now }
    ensures exact { IfOk result (λ entries. (entry : Entry) → Contains entries.items entry ↔ IsPushableFor request.now entry) }
    ensures order { IfOk result (λ entries. IsStrictlySortedBy order_of_entries entries.items) }
    ensures unlimited { IfOk result (λ entries. AreUnlimitedFor request.now) }
    ensures below { IfOk result (λ entries. AreBelowFor request.now) }
    ensures limited { IfStopped result (LimitsFor request.now) }
{
    let matches = matches_of(asker.alloc, request.problem, request.wanted)?;
    let bounds = Bounds::of(asker.alloc, request.problem)?;
    let mut found = Vec::new(asker.alloc);
    gather_matches(asker, &mut found, request, &bounds, &matches)?;
    let mut entries = entries_of(asker.alloc, &found)?;
    gather_tables(asker, &mut entries, request)?;
    order_entries(&mut entries);
    Ok(entries)
}

// `relevant` promises the same, but only of the entries.
/// Returns what `relevant` does, with the number of questions that it asks the prover. The number is measured: it begins with 0,
/// and the clause `counted` of each of the two methods that ask (`Asker::gap_patterns` and `Asker::prove`) says that
/// it asks one more, up to the greatest number of 64 bits. What is asked of each entry by itself isn't counted. No clause of this
/// call speaks of the number.
///
/// # Errors
/// Those of `relevant`.
pub fn relevant_measured(
    alloc: Global,
    problem: &Problem,
    wanted: &[Atom],
    stack: &[Entry],
    model: &Model,
    tables: &[Table],
) -> Result<Measured, MoveErr>
    requires problem { IsValid problem.now }
    requires tables { AreLearned problem.now tables.now }
    ensures exact { IfOk result (λ measured. (entry : Entry) → Contains measured.entries.items entry
        ↔ IsPushable problem.now tables.now wanted.now stack.now model.now.atoms entry) }
    ensures order { IfOk result (λ measured. IsStrictlySortedBy order_of_entries measured.entries.items) }
    ensures unlimited { IfOk result (λ measured. (entry : Entry) → IsRelevant problem.now tables.now wanted.now stack.now entry
        → AreUnlimited problem.now (obligations_of problem.now tables.now model.now.atoms entry)) }
    ensures below { IfOk result (λ measured. (entry : Entry) → IsRelevant problem.now tables.now wanted.now stack.now entry
        → AreBelow problem.now (obligations_of problem.now tables.now model.now.atoms entry)) }
    ensures limited { IfStopped result (LimitsRelevant problem.now tables.now wanted.now stack.now model.now.atoms) }
{
    let mut asker = Asker::new(alloc);
    let request = Request {
        problem,
        wanted,
        stack,
        model,
        tables,
    };
    match pushable_for(&mut asker, &request) {
        Ok(entries) => Ok(Measured {
            entries,
            questions: asker.questions,
        }),
        Err(error) => Err(error),
    }
}

/// Returns the entries that may be pushed where these atoms are wanted, in order, each once: operators by number, then by
/// arguments, and after them MACROPs by the table's number, then by the number of steps, then by objects. They aren't on the
/// stack, add a wanted atom, and all that they need has an answer or a gap in the model (Fikes and Nilsson 1971; Fikes, Hart
/// and Nilsson 1972). There are at most 32 tables, which `check_table` of `px_table` accepts, of at most 64 steps each.
///
/// # Errors
/// `ShapeLimit` where a question about an entry that isn't on the stack and adds a wanted atom meets the limit: proving
/// what it needs, or, where that has no answer, finding its gaps. `NoMemory` if there isn't enough memory.
pub fn relevant(
    alloc: Global,
    problem: &Problem,
    wanted: &[Atom],
    stack: &[Entry],
    model: &Model,
    tables: &[Table],
) -> Result<Vec<Entry>, MoveErr>
    requires problem { IsValid problem.now }
    requires tables { AreLearned problem.now tables.now }
    ensures exact { IfOk result (λ entries. (entry : Entry) → Contains entries.items entry
        ↔ IsPushable problem.now tables.now wanted.now stack.now model.now.atoms entry) }
    ensures order { IfOk result (λ entries. IsStrictlySortedBy order_of_entries entries.items) }
    ensures unlimited { IfOk result (λ entries. (entry : Entry) → IsRelevant problem.now tables.now wanted.now stack.now entry
        → AreUnlimited problem.now (obligations_of problem.now tables.now model.now.atoms entry)) }
    ensures below { IfOk result (λ entries. (entry : Entry) → IsRelevant problem.now tables.now wanted.now stack.now entry
        → AreBelow problem.now (obligations_of problem.now tables.now model.now.atoms entry)) }
    ensures limited { IfStopped result (LimitsRelevant problem.now tables.now wanted.now stack.now model.now.atoms) }
{
    match relevant_measured(alloc, problem, wanted, stack, model, tables) {
        Ok(measured) => Ok(measured.entries),
        Err(error) => Err(error),
    }
}
