//! Questions of gaps about the rows of a table whose parameters have objects in part.
//!
//! Each row is asked from the whole model, with a variable for each parameter that has no object. A MACROP's row is proved from what the
//! steps before leave of the model, so it has no more shapes than that. But what is provable from the whole model says nothing about it;
//! so the gaps of the answer are taken as they are, and for each atom that a gap closes the prover is asked how many unfinished proofs it
//! has in all.
//!
//! Where a question meets the limit, a parameter of the row is bound to each object in turn, and each of these narrower rows is
//! asked in the same way. Where each parameter of the row has an object and a question still meets the limit, the terms are kept
//! as terms at which it does.
ghost use Rattle.std.specs.Prelude.{◌≡◌, ◌<◌, ◌≤◌, ◌∷◌, [], ℕ, Some, List, length, slice_get, All, IsTrue, IfSome, IfOk, OnOk};
ghost use Rattle.px_prover.specs.Limits.{most_gap_variables};
ghost use Rattle.px_ops.specs.Models.{IsModel};
ghost use Rattle.px_prover.specs.declared.pattern.GapPattern.{GapPattern as PatternValue};
ghost use Rattle.px_question.specs.Limits.{AreFewGapShapes};
ghost use Rattle.px_question.specs.Settings.{setting_of};
ghost use Rattle.px_terms.specs.Validity.{IsAtomOf, IsValid};
ghost use Rattle.px_terms.specs.declared.term.Term.{Term as TermValue};
ghost use Rattle.px_terms.specs.declared.term.Term.TheVariants.{Var};
ghost use Rattle.px_gaps.specs.Bindings.{ExtendsTerms, IsBinding, IsPlain};
ghost use Rattle.px_gaps.specs.Closings.{OneOf};
ghost use Rattle.px_gaps.specs.Forms.{IsForm};
ghost use Rattle.px_entries.specs.Parameters.{FitsTerms};
ghost use Rattle.px_diff.specs.RowQuestions.{AreAskedOf, AreInstancesKnown, AreRowsKnown, CanAskRows, FitsOne, IsRowAnswer, IsRowKnown, Widens};

use crate::row_choices::{RowChoices, TableChoices};
use crate::sorted::row_may_fit;
use px_base::push;
use px_entries::{is_initial, merged, row_formula};
use px_gaps::{Asker, bound, forms_of, open_variable};
use px_ops::Model;
use px_prover::{GapErr, GapPattern};
use px_table::Table;
use px_terms::{Atom, NoMemory, Problem, Sequence, Term};
use std::alloc::Global;

/// A row of a table, about which a world model is asked.
#[derive(Clone, Copy)]
struct RowQuestion<'a> {
    problem: &'a Problem,
    model: &'a Model,
    table: &'a Table,
    row: u32,
}

/// Returns whether one question shows that fewer unfinished gap proofs of each instance of the form exist than the limit.
fn has_few(
    asker: &mut Asker,
    problem: &Problem,
    model: &Model,
    form: &Atom,
) -> Result<bool, NoMemory>
    requires problem { IsValid problem.now }
    requires form { IsForm problem.now form.now }
    ensures { IfOk result (λ few. IsTrue few → AreFewGapShapes (setting_of problem.now model.now.atoms) (form.now ∷ [])
        (length form.now.args)) }
{
    let variable_count = form.args().len() as u32;
    match asker.gap_patterns(problem, &[*form], variable_count, model) {
        Ok(_) => Ok(true),
        Err(GapErr::ShapeLimit(_)) => Ok(false),
        Err(GapErr::NoMemory) => Err(NoMemory),
    }
}

/// Returns whether one question about each form shows that fewer unfinished gap proofs of each of its instances exist than the limit.
fn have_few(
    asker: &mut Asker,
    problem: &Problem,
    model: &Model,
    forms: &[Atom],
) -> Result<bool, NoMemory>
    requires problem { IsValid problem.now }
    requires forms { All (IsForm problem.now) forms.now }
    ensures { IfOk result (λ few. IsTrue few → All (λ form. AreFewGapShapes (setting_of problem.now model.now.atoms) (form ∷ [])
        (length form.args)) forms.now) }
{
    for form in forms {
        if !has_few(asker, problem, model, form)? {
            return Ok(false);
        }
    }
    Ok(true)
}

/// Returns the gap patterns of the formula, where finding them stays below the limit, and so does finding those of each atom that they
/// close.
fn ask_row(
    asker: &mut Asker,
    problem: &Problem,
    model: &Model,
    formula: &[Atom],
    variable_count: u32,
) -> Result<Option<Vec<GapPattern>>, NoMemory>
    requires problem { IsValid problem.now }
    requires formula { All (IsAtomOf problem.now variable_count) formula.now }
    requires few_variables { variable_count ≤ most_gap_variables }
    requires some_object { 0 < variable_count → 0 < problem.now.objects }
    ensures { IfOk result (λ answer. IfSome answer (λ patterns. IsRowAnswer (setting_of problem.now model.now.atoms) formula.now variable_count
        patterns.items)) }
{
    match asker.gap_patterns(problem, formula, variable_count, model) {
        Ok(patterns) => {
            let forms = forms_of(asker.alloc, &patterns)?;
            if have_few(asker, problem, model, &forms)? {
                return Ok(Some(patterns));
            }
            Ok(None)
        }
        Err(GapErr::ShapeLimit(_)) => Ok(None),
        Err(GapErr::NoMemory) => Err(NoMemory),
    }
}

/// Returns whether the second term is the first one, where that is an object.
fn keeps_object(wide: Term, narrow: Term) -> bool
    ensures { IsTrue result → (n : ℕ) → wide ≡ Term.Obj n → narrow ≡ Term.Obj n }
{
    match wide {
        Term::Obj(_) => wide == narrow,
        Term::Var(_) | Term::Any => true,
    }
}

/// Returns whether the second terms have each object of the first, at the same place.
fn is_wider(wide: &[Term], narrow: &[Term]) -> bool
    requires { length narrow.now ≡ length wide.now }
    ensures { IsTrue result → (sigma : List ℕ) → FitsTerms narrow.now sigma → FitsTerms wide.now sigma }
{
    for place in 0..wide.len() {
        if !keeps_object(wide[place], narrow[place]) {
            return false;
        }
    }
    true
}

/// Returns whether all objects that fit the terms fit one of the choices.
fn is_covered(choices: &[Sequence<Term>], terms: &[Term]) -> bool
    requires { All (λ (choice : List TermValue). length choice ≡ length terms.now) choices.now }
    ensures { IsTrue result → (sigma : List ℕ) → FitsTerms terms.now sigma → FitsOne choices.now sigma }
{
    for choice in choices {
        if is_wider(choice.as_slice(), terms) {
            return true;
        }
    }
    false
}

/// With how many of the last choices one more is compared: enough to leave out most of those that say no more, and few enough to be fast.
const COMPARED_CHOICES: usize = 32;

/// Appends the terms to the choices, unless one of the last ones covers them.
fn push_choice(
    choices: &mut Vec<Sequence<Term>>,
    alloc: Global,
    terms: &[Term],
) -> Result<(), NoMemory>
    requires { All (λ (choice : List TermValue). length choice ≡ length terms.now) choices.old.items }
    ensures long { OnOk result (All (λ (choice : List TermValue). length choice ≡ length terms.now) choices.new.items) }
    ensures kept { OnOk result ((sigma : List ℕ) → FitsOne choices.old.items sigma → FitsOne choices.new.items sigma) }
    ensures covers { OnOk result ((sigma : List ℕ) → FitsTerms terms.now sigma → FitsOne choices.new.items sigma) }
{
    let last = choices.len().saturating_sub(COMPARED_CHOICES);
    if is_covered(&choices[last..], terms) {
        return Ok(());
    }
    let choice = Sequence::from_slice(alloc, terms)?;
    push(choices, choice)
}

/// Appends the terms, with the objects of the pattern besides their own, to the choices, where some objects fit both.
fn push_offer(
    choices: &mut Vec<Sequence<Term>>,
    alloc: Global,
    limit: u32,
    terms: &[Term],
    offer: &[Term],
) -> Result<(), NoMemory>
    requires long { length offer.now ≡ length terms.now }
    requires choices { All (λ (choice : List TermValue). length choice ≡ length terms.now) choices.old.items }
    ensures widens { OnOk result (Widens (length terms.now) choices.old.items choices.new.items) }
    ensures covers { OnOk result ((sigma : List ℕ) → ExtendsTerms limit terms.now sigma → FitsTerms offer.now sigma
        → FitsOne choices.new.items sigma) }
{
    let found = merged(alloc, limit, terms, offer)?;
    match found {
        Some(both) => push_choice(choices, alloc, &both),
        None => Ok(()),
    }
}

/// Appends the terms with the objects that each pattern has to the choices, which then cover each other as little as possible: a pattern
/// that gaps close comes last, and is mostly the widest.
fn push_offers(
    choices: &mut Vec<Sequence<Term>>,
    alloc: Global,
    limit: u32,
    terms: &[Term],
    patterns: &[GapPattern],
) -> Result<(), NoMemory>
    requires long { All (λ (pattern : PatternValue). length pattern.terms ≡ length terms.now) patterns.now }
    requires choices { All (λ (choice : List TermValue). length choice ≡ length terms.now) choices.old.items }
    ensures widens { OnOk result (Widens (length terms.now) choices.old.items choices.new.items) }
    ensures covers { OnOk result ((sigma : List ℕ) → ExtendsTerms limit terms.now sigma
        → OneOf patterns.now (λ (pattern : PatternValue). FitsTerms pattern.terms sigma) → FitsOne choices.new.items sigma) }
{
    for passed in 0..patterns.len() {
        let place = patterns.len() - passed - 1;
        push_offer(
            choices,
            alloc,
            limit,
            terms,
            patterns[place].terms.as_slice(),
        )?;
    }
    Ok(())
}

/// Returns the first parameter without an object in what the row takes from the initial model.
fn open_parameter(table: &Table, terms: &[Term], row: u32) -> Option<u32>
    requires marks { All (λ mark. IsPlain (length terms.now) mark.atom) table.now.marks }
    requires binding { (limit : ℕ) × IsBinding limit terms.now }
    ensures { IfSome result (λ parameter. slice_get terms.now parameter ≡ Some (Var parameter)) }
{
    let marks = table.marks.as_slice();
    for mark in marks {
        if is_initial(mark, row) {
            if let Some(found) = open_variable(terms, &mark.atom) {
                return Some(found);
            }
        }
    }
    None
}

/// Adds the choices of objects for a row, where no question about it meets the limit. Returns whether none does.
fn ask_choices(
    asker: &mut Asker,
    choices: &mut Vec<Sequence<Term>>,
    question: &RowQuestion,
    terms: &[Term],
) -> Result<bool, NoMemory>
    requires asked { CanAskRows question.now.problem.now question.now.table.now terms.now }
    requires choices { All (λ (choice : List TermValue). length choice ≡ question.now.table.now.params) choices.old.items }
    ensures widens { OnOk result (Widens question.now.table.now.params choices.old.items choices.new.items) }
    ensures known { IfOk result (λ is_known. IsTrue is_known → AreInstancesKnown
        (setting_of question.now.problem.now question.now.model.now.atoms) question.now.table.now question.now.row
        (ExtendsTerms question.now.problem.now.objects terms.now) choices.new.items) }
{
    let table = question.table;
    let formula = row_formula(asker.alloc, table, terms, question.row)?;
    let answer = ask_row(
        asker,
        question.problem,
        question.model,
        &formula,
        table.params,
    )?;
    match answer {
        Some(patterns) => {
            push_offers(
                choices,
                asker.alloc,
                question.problem.objects,
                terms,
                patterns.as_slice(),
            )?;
            Ok(true)
        }
        None => Ok(false),
    }
}

/// Adds what is known of the row with the objects that are chosen: choices for the parameters, and terms at which it meets the limit. Of
/// an object of another sort than its places have nothing is asked: its terms are kept beside these, and no MACROP comes of them. Each
/// recursive call has one parameter without an object less.
fn add_choices(
    asker: &mut Asker,
    choices: &mut Vec<Sequence<Term>>,
    limited: &mut Vec<Sequence<Term>>,
    question: &RowQuestion,
    terms: &[Term],
) -> Result<(), NoMemory>
    requires asked { CanAskRows question.now.problem.now question.now.table.now terms.now }
    requires choices { All (λ (choice : List TermValue). length choice ≡ question.now.table.now.params) choices.old.items }
    ensures choices { OnOk result (Widens question.now.table.now.params choices.old.items choices.new.items) }
    ensures limited { OnOk result (Widens question.now.table.now.params limited.old.items limited.new.items) }
    ensures known { OnOk result (AreAskedOf (setting_of question.now.problem.now question.now.model.now.atoms) question.now.table.now
        question.now.row (ExtendsTerms question.now.problem.now.objects terms.now) choices.new.items limited.new.items) }
{
    if !row_may_fit(question.problem, question.table, question.row, terms) {
        let kept = Sequence::from_slice(asker.alloc, terms)?;
        return push(limited, kept);
    }
    if ask_choices(asker, choices, question, terms)? {
        return Ok(());
    }
    let parameter = match open_parameter(question.table, terms, question.row) {
        Some(parameter) => parameter,
        None => {
            let kept = Sequence::from_slice(asker.alloc, terms)?;
            return push(limited, kept);
        }
    };
    for object in 0..question.problem.objects {
        let next = bound(asker.alloc, terms, parameter, object)?;
        add_choices(asker, choices, limited, question, &next)?;
    }
    Ok(())
}

/// Returns what is known of the row with the objects that are chosen.
fn choices_of_row(
    asker: &mut Asker,
    question: &RowQuestion,
    terms: &[Term],
) -> Result<RowChoices, NoMemory>
    requires { CanAskRows question.now.problem.now question.now.table.now terms.now }
    ensures { IfOk result (λ found. IsRowKnown (setting_of question.now.problem.now question.now.model.now.atoms) question.now.table.now
        terms.now question.now.row found.choices found.limited) }
{
    let mut choices = Vec::new(asker.alloc);
    let mut limited = Vec::new(asker.alloc);
    add_choices(asker, &mut choices, &mut limited, question, terms)?;
    Ok(RowChoices {
        choices: Sequence::from_vec(choices),
        limited: Sequence::from_vec(limited),
    })
}

/// Returns what is known of the table's rows with the objects that are chosen.
pub fn choices_of_rows(
    asker: &mut Asker,
    problem: &Problem,
    model: &Model,
    table: &Table,
    terms: &[Term],
) -> Result<TableChoices, NoMemory>
    requires { CanAskRows problem.now table.now terms.now }
    ensures rows { IfOk result (λ found. AreRowsKnown (setting_of problem.now model.now.atoms) table.now terms.now (length table.now.steps)
        found.choices found.limited) }
    ensures facts { IsModel model.now.atoms }
{
    // `atoms` says that these are a model, which the contract hands on
    let _known = model.atoms();
    let mut rows = Vec::new(asker.alloc);
    let mut limited_rows = Vec::new(asker.alloc);
    for place in 0..table.steps.len() as u32 {
        let question = RowQuestion {
            problem,
            model,
            table,
            row: place + 1,
        };
        let RowChoices { choices, limited } = choices_of_row(asker, &question, terms)?;
        push(&mut rows, choices)?;
        push(&mut limited_rows, limited)?;
    }
    Ok(TableChoices {
        choices: Sequence::from_vec(rows),
        limited: Sequence::from_vec(limited_rows),
    })
}
