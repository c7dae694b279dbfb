//! What is known of an operator's instance, decided by the facts where they suffice. Where no axiom mentions a predicate that some
//! operator adds, each atom of a precondition is decided by itself: one that operators add is a fact or a gap closes it, and a gap closes
//! no other.
ghost use Rattle.std.specs.Prelude.{◌≡◌, ◌⊎◌, ◌↔◌, ◌∷◌, [], All, Contains, IfOk, IfSome, IsTrue, MatchBool, OnOk};
ghost use Rattle.px_terms.specs.Instances.{IsGround};
ghost use Rattle.px_terms.specs.Sorts.{IsWellSortedInstance};
ghost use Rattle.px_terms.specs.Validity.{IsValid, IsAtomOf};
ghost use Rattle.px_terms.specs.declared.atom.Atom.{Atom as AtomValue};
ghost use Rattle.px_table.specs.declared.entry.Entry.{Entry as EntryValue};
ghost use Rattle.px_entries.specs.Entries.{IsEntry, obligations_of};
ghost use Rattle.px_gaps.specs.Known.{IsKnownOf};
ghost use Rattle.px_entries.specs.Learned.{AreLearned};
ghost use Rattle.px_entries.specs.Unlimited.{IsNeverLimited};
ghost use Rattle.px_entries.specs.Plain.{AreAboutAddable, AxiomsMentionAddable, IsAbsent, IsSettled};
ghost use Rattle.px_gaps.specs.Questions.{AreUnlimited};

use crate::entry_rows::known_entry;
use px_gaps::{AskErr, Asker, Known, is_concluded, is_provable};
use px_ops::{Model, is_addable, precondition_of};
use px_table::{Entry, Table};
use px_terms::{Atom, Lit, NoMemory, OpInst, Problem, Sequence};
use std::alloc::Global;

/// Returns whether one of the literals is about a predicate that some operator adds.
fn are_about_addable(problem: &Problem, lits: &[Lit]) -> bool
    ensures { IsTrue result ↔ AreAboutAddable problem.now lits.now }
{
    lits.iter().any(|lit| is_addable(problem, &lit.atom))
}

/// Returns whether some axiom mentions a predicate that some operator adds.
pub fn axioms_mention_addable(problem: &Problem) -> bool
    ensures { IsTrue result ↔ AxiomsMentionAddable problem.now }
{
    for number in 0..problem.axioms.count() {
        if are_about_addable(problem, problem.axioms.lits(number)) {
            return true;
        }
    }
    false
}

/// Returns whether some operator adds the atom's predicate, or the atom is provable. `None` where asking meets the limit of shapes.
pub fn is_settled(
    alloc: Global,
    problem: &Problem,
    atom: &Atom,
    model: &Model,
) -> Result<Option<bool>, NoMemory>
    requires problem { IsValid problem.now }
    requires atom { IsAtomOf problem.now 0 atom.now }
    ensures { IfOk result (λ found. IfSome found (λ settled. MatchBool settled (IsSettled problem.now model.now.atoms atom.now)
        (¬ IsSettled problem.now model.now.atoms atom.now))) }
{
    if is_addable(problem, atom) {
        return Ok(Some(true));
    }
    if model.holds(atom) {
        return Ok(Some(true));
    }
    if !is_concluded(problem, atom.pred()) {
        return Ok(Some(false));
    }
    let mut asker = Asker::new(alloc);
    match is_provable(&mut asker, problem, model, atom) {
        Ok(settled) => Ok(Some(settled)),
        Err(AskErr::ShapeLimit { .. }) => Ok(None),
        Err(AskErr::NoMemory) => Err(NoMemory),
    }
}

/// Returns whether of each atom some operator adds the predicate, or the atom is provable. `None` where asking meets the limit of shapes.
fn are_settled(
    alloc: Global,
    problem: &Problem,
    formula: &[Atom],
    model: &Model,
) -> Result<Option<bool>, NoMemory>
    requires problem { IsValid problem.now }
    requires formula { All (IsAtomOf problem.now 0) formula.now }
    ensures { IfOk result (λ found. IfSome found (λ settled. MatchBool settled (All (IsSettled problem.now model.now.atoms) formula.now)
        (¬ All (IsSettled problem.now model.now.atoms) formula.now))) }
{
    for atom in formula {
        match is_settled(alloc, problem, atom, model)? {
            Some(true) => {}
            Some(false) => return Ok(Some(false)),
            None => return Ok(None),
        }
    }
    Ok(Some(true))
}

/// Returns whether some operator adds the atom's predicate, while the atom is no fact.
fn is_absent(problem: &Problem, atom: &Atom, model: &Model) -> bool
    ensures { IsTrue result ↔ IsAbsent problem.now model.now.atoms atom.now }
{
    is_addable(problem, atom) && !model.holds(atom)
}

/// Puts the atom into the set, where some operator adds its predicate and it is no fact.
fn insert_absent(
    found: &mut Model,
    problem: &Problem,
    atom: &Atom,
    model: &Model,
) -> Result<(), NoMemory>
    requires is_ground { IsGround atom.now }
    ensures { OnOk result ((q : AtomValue) → Contains found.new.atoms q
        ↔ (Contains found.old.atoms q ⊎ ((atom.now ≡ q) × IsAbsent problem.now model.now.atoms q))) }
{
    if !is_absent(problem, atom, model) {
        return Ok(());
    }
    found.insert(*atom)?;
    Ok(())
}

/// Returns the set of the formula's atoms that are no facts and whose predicates operators add.
fn absent_of(
    alloc: Global,
    problem: &Problem,
    formula: &[Atom],
    model: &Model,
) -> Result<Model, NoMemory>
    requires is_ground { All IsGround formula.now }
    ensures { IfOk result (λ absent. (q : AtomValue) → Contains absent.atoms q
        ↔ (Contains formula.now q × IsAbsent problem.now model.now.atoms q)) }
{
    let mut absent = Model::new(alloc);
    for atom in formula {
        insert_absent(&mut absent, problem, atom, model)?;
    }
    Ok(absent)
}

/// Returns what is known of a formula without variables of which each atom is settled: that it is provable, or open with what is absent.
fn known_settled(
    alloc: Global,
    problem: &Problem,
    formula: &[Atom],
    model: &Model,
) -> Result<Known, NoMemory>
    requires problem { IsValid problem.now }
    requires formula { All (IsAtomOf problem.now 0) formula.now }
    requires apart { ¬ AxiomsMentionAddable problem.now }
    requires settled { All (IsSettled problem.now model.now.atoms) formula.now }
    requires unlimited { AreUnlimited problem.now (record { formula = formula.now; variable_count = 0; facts = model.now.atoms } ∷ []) }
    ensures { IfOk result (IsKnownOf problem.now (record { formula = formula.now; variable_count = 0; facts = model.now.atoms } ∷ [])) }
{
    let absent = absent_of(alloc, problem, formula, model)?;
    let gaps = absent.atoms();
    if gaps.is_empty() {
        return Ok(Known::Applicable);
    }
    Ok(Known::Open(Sequence::from_slice(alloc, gaps)?))
}

/// Returns what is known of a formula without variables. `None` where asking about one of its atoms meets the limit of shapes.
fn known_plain(
    alloc: Global,
    problem: &Problem,
    formula: &[Atom],
    model: &Model,
) -> Result<Option<Known>, NoMemory>
    requires problem { IsValid problem.now }
    requires formula { All (IsAtomOf problem.now 0) formula.now }
    requires apart { ¬ AxiomsMentionAddable problem.now }
    requires unlimited { AreUnlimited problem.now (record { formula = formula.now; variable_count = 0; facts = model.now.atoms } ∷ []) }
    ensures { IfOk result (λ found. IfSome found (IsKnownOf problem.now
        (record { formula = formula.now; variable_count = 0; facts = model.now.atoms } ∷ []))) }
{
    match are_settled(alloc, problem, formula, model)? {
        Some(true) => Ok(Some(known_settled(alloc, problem, formula, model)?)),
        Some(false) => Ok(Some(Known::Closed)),
        None => Ok(None),
    }
}

/// Returns what is known of the instance. `None` where this can't be decided atom by atom.
fn known_instance(
    alloc: Global,
    problem: &Problem,
    tables: &[Table],
    inst: &OpInst,
    model: &Model,
) -> Result<Option<Known>, NoMemory>
    requires problem { IsValid problem.now }
    requires inst { IsWellSortedInstance problem.now inst.now }
    requires never { IsNeverLimited problem.now tables.now }
    ensures { IfOk result (λ found. IfSome found (IsKnownOf problem.now
        (obligations_of problem.now tables.now model.now.atoms (EntryValue.Op inst.now)))) }
{
    if axioms_mention_addable(problem) {
        return Ok(None);
    }
    // `atoms` says that these are a model, ascending and each once, on which the proof of what follows rests
    let _facts = model.atoms();
    let formula = precondition_of(alloc, problem, inst)?;
    known_plain(alloc, problem, &formula, model)
}

// Alike: `known_entry`, whose promise it repeats; that also serves where questions may be limited, and this asks the prover less.
/// Returns what is known of an entry in the model, as [`known_entry`](crate::known_entry) does, where no question about an entry is ever
/// limited. An operator's instance is then mostly decided by the facts alone, so that the prover is asked less.
///
/// # Errors
/// `NoMemory` if there isn't enough memory.
pub fn known_below(
    alloc: Global,
    problem: &Problem,
    tables: &[Table],
    entry: &Entry,
    model: &Model,
) -> Result<Known, NoMemory>
    requires problem { IsValid problem.now }
    requires tables { AreLearned problem.now tables.now }
    requires entry { IsEntry problem.now tables.now entry.now }
    requires never { IsNeverLimited problem.now tables.now }
    ensures { IfOk result (IsKnownOf problem.now (obligations_of problem.now tables.now model.now.atoms entry.now)) }
{
    if let Entry::Op(inst) = entry {
        if let Some(known) = known_instance(alloc, problem, tables, inst, model)? {
            return Ok(known);
        }
    }
    known_entry(alloc, problem, tables, entry, model)
}
