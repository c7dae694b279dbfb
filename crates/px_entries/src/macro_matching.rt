//! Matches of what the first steps of a table add with wanted atoms. A match has objects for parameters that the wanted atom
//! determines; no clause says for how many. An add that a later step deletes whatever the objects are is passed over; where a step deletes it only with some objects,
//! each entry is asked by itself.
ghost use Rattle.std.specs.Prelude.{◌≡◌, ◌<◌, ℕ, false, true, List, [], length, map, All, IsTrue, IfOk, OnOk};
ghost use Rattle.std.specs.Cmp.Lexicographic.{pointwise};
ghost use Rattle.px_question.specs.Answers.{object_terms};
ghost use Rattle.px_table.specs.Kernels.{instance_under};
ghost use Rattle.px_table.specs.Tables.{IsStepOf};
ghost use Rattle.px_terms.specs.Language.{IsPlainBelow, substitute};
ghost use Rattle.px_terms.specs.Operators.{IsAdded, adds as adds_of, deletes as deletes_of};
ghost use Rattle.px_terms.specs.Substitution.{substitute_atom};
ghost use Rattle.px_terms.specs.Validity.{IsValid};
ghost use Rattle.px_gaps.specs.Bindings.{ExtendsTerms, IsBinding, IsPlain};
ghost use Rattle.px_gaps.specs.Closings.{OneOf};
ghost use Rattle.px_entries.specs.Parameters.{IsLeftAdd, Matches};

use crate::parameters::merged_term;
use px_base::push;
use px_ops::{adds, schema_of};
use px_terms::{Atom, NoMemory, OpInst, Problem, Sequence, Term, apply, fills};
use std::alloc::Global;

/// Gives the parameter that the term is the wanted object. Returns false where that can't be.
fn fit_term(limit: u32, terms: &mut [Term], term: Term, wanted: Term) -> bool
    requires term { IsPlainBelow (length terms.old) term }
    requires binding { IsBinding limit terms.old }
    ensures long { length terms.new ≡ length terms.old }
    ensures binding { IsBinding limit terms.new }
    ensures fits { (sigma : List ℕ) → ExtendsTerms limit terms.old sigma → substitute (object_terms sigma) term ≡ wanted → IsTrue result
        × ExtendsTerms limit terms.new sigma }
{
    match term {
        Term::Var(parameter) => fit_parameter(limit, terms, parameter, wanted),
        Term::Obj(_) | Term::Any => term == wanted,
    }
}

/// Gives the parameter the wanted object. Returns false where that can't be.
fn fit_parameter(limit: u32, terms: &mut [Term], parameter: u32, wanted: Term) -> bool
    requires term { parameter < length terms.old }
    requires binding { IsBinding limit terms.old }
    ensures long { length terms.new ≡ length terms.old }
    ensures binding { IsBinding limit terms.new }
    ensures fits { (sigma : List ℕ) → ExtendsTerms limit terms.old sigma → substitute (object_terms sigma) (Term.Var parameter) ≡ wanted
        → IsTrue result × ExtendsTerms limit terms.new sigma }
{
    match merged_term(limit, terms[parameter as usize], wanted) {
        Some(term) => {
            terms[parameter as usize] = term;
            true
        }
        None => false,
    }
}

/// Gives the parameters in the pattern the objects of the wanted atom. Returns false where that can't be.
fn fit_atom(limit: u32, terms: &mut [Term], pattern: &Atom, wanted: &Atom) -> bool
    requires pattern { IsPlain (length terms.old) pattern.now }
    requires binding { IsBinding limit terms.old }
    ensures long { length terms.new ≡ length terms.old }
    ensures binding { IsBinding limit terms.new }
    ensures fits { (sigma : List ℕ) → ExtendsTerms limit terms.old sigma → substitute_atom (object_terms sigma) pattern.now ≡ wanted.now
        → IsTrue result × ExtendsTerms limit terms.new sigma }
{
    let arguments = pattern.args();
    let objects = wanted.args();
    if pattern.pred() != wanted.pred() || arguments.len() != objects.len() {
        return false;
    }
    for (k, term) in arguments.iter().enumerate() {
        if !fit_term(limit, terms, *term, objects[k]) {
            return false;
        }
    }
    true
}

/// Adds the match of the pattern with the wanted atom.
fn fit_pattern(
    found: &mut Vec<Sequence<Term>>,
    alloc: Global,
    limit: u32,
    start: &[Term],
    pattern: &Atom,
    wanted: &Atom,
) -> Result<(), NoMemory>
    requires pattern { IsPlain (length start.now) pattern.now }
    requires binding { IsBinding limit start.now }
    ensures { OnOk result (Matches limit (length start.now) start.now
        (λ sigma. substitute_atom (object_terms sigma) pattern.now ≡ wanted.now) found.old.items found.new.items) }
{
    let mut terms = Vec::new(alloc);
    terms.extend_from_slice(start)?;
    if !fit_atom(limit, &mut terms, pattern, wanted) {
        return Ok(());
    }
    push(found, Sequence::from_vec(terms))
}

/// Returns whether it is sure that the step deletes the atom, whatever objects the parameters have.
fn always_deletes(problem: &Problem, step: &OpInst, atom: &Atom) -> bool
    requires problem { IsValid problem.now }
    requires step { (params : ℕ) × IsStepOf problem.now params step.now }
    ensures { IsTrue result → (sigma : List ℕ) → deletes_of problem.now (instance_under sigma step.now)
        (substitute_atom (object_terms sigma) atom.now) ≡ true }
{
    let patterns = schema_of(problem, step).del.as_slice();
    for pattern in patterns {
        if fills(atom, &apply(step.args(), pattern)) {
            return true;
        }
    }
    false
}

/// Returns whether it is sure that one of the steps deletes the atom, whatever objects the parameters have.
fn one_always_deletes(problem: &Problem, steps: &[OpInst], atom: &Atom) -> bool
    requires problem { IsValid problem.now }
    requires steps { (params : ℕ) × All (IsStepOf problem.now params) steps.now }
    ensures { IsTrue result → (sigma : List ℕ) → ¬ All (λ step. deletes_of problem.now (instance_under sigma step)
        (substitute_atom (object_terms sigma) atom.now) ≡ false) steps.now }
{
    for step in steps {
        if always_deletes(problem, step, atom) {
            return true;
        }
    }
    false
}

/// Adds the match of the add with the wanted atom, where it may be that no later step deletes it.
fn match_add(
    found: &mut Vec<Sequence<Term>>,
    alloc: Global,
    problem: &Problem,
    start: &[Term],
    add: &Atom,
    later: &[OpInst],
    wanted: &Atom,
) -> Result<(), NoMemory>
    requires problem { IsValid problem.now }
    requires add { IsPlain (length start.now) add.now }
    requires later { All (IsStepOf problem.now (length start.now)) later.now }
    requires binding { IsBinding problem.now.objects start.now }
    ensures { OnOk result (Matches problem.now.objects (length start.now) start.now
        (λ sigma. IsLeftAdd problem.now later.now wanted.now sigma add.now) found.old.items found.new.items) }
{
    if one_always_deletes(problem, later, add) {
        return Ok(());
    }
    fit_pattern(found, alloc, problem.objects, start, add, wanted)
}

/// Adds the matches of what the step adds, and no later one deletes, with the wanted atom.
fn match_step(
    found: &mut Vec<Sequence<Term>>,
    alloc: Global,
    problem: &Problem,
    start: &[Term],
    step: &OpInst,
    later: &[OpInst],
    wanted: &Atom,
) -> Result<(), NoMemory>
    requires problem { IsValid problem.now }
    requires step { IsStepOf problem.now (length start.now) step.now }
    requires later { All (IsStepOf problem.now (length start.now)) later.now }
    requires binding { IsBinding problem.now.objects start.now }
    ensures { OnOk result (Matches problem.now.objects (length start.now) start.now
        (λ sigma. OneOf (adds_of problem.now step.now) (IsLeftAdd problem.now later.now wanted.now sigma)) found.old.items
        found.new.items) }
{
    let schema = schema_of(problem, step);
    for place in 0..schema.add.len() {
        let add = adds(schema, step, place);
        match_add(found, alloc, problem, start, &add, later, wanted)?;
    }
    Ok(())
}

/// Adds the matches of what the steps together add with the wanted atom.
fn match_steps(
    found: &mut Vec<Sequence<Term>>,
    alloc: Global,
    problem: &Problem,
    start: &[Term],
    steps: &[OpInst],
    wanted: &Atom,
) -> Result<(), NoMemory>
    requires problem { IsValid problem.now }
    requires steps { All (IsStepOf problem.now (length start.now)) steps.now }
    requires binding { IsBinding problem.now.objects start.now }
    ensures { OnOk result (Matches problem.now.objects (length start.now) start.now
        (λ sigma. IsAdded problem.now (map (instance_under sigma) steps.now) wanted.now) found.old.items found.new.items) }
{
    for place in 0..steps.len() {
        let later = &steps[place + 1..];
        match_step(found, alloc, problem, start, &steps[place], later, wanted)?;
    }
    Ok(())
}

/// Returns the matches of what the steps together add with the wanted atoms: terms for the parameters that keep the objects of the
/// first terms, and have an object for each parameter that a wanted atom determines.
///
/// # Errors
/// `NoMemory` if there isn't enough memory.
pub fn macro_matches(
    alloc: Global,
    problem: &Problem,
    start: &[Term],
    steps: &[OpInst],
    wanted: &[Atom],
) -> Result<Vec<Sequence<Term>>, NoMemory>
    requires problem { IsValid problem.now }
    requires steps { All (IsStepOf problem.now (length start.now)) steps.now }
    requires binding { IsBinding problem.now.objects start.now }
    ensures { IfOk result (λ found. Matches problem.now.objects (length start.now) start.now
        (λ sigma. OneOf wanted.now (IsAdded problem.now (map (instance_under sigma) steps.now))) [] found.items) }
{
    let mut found = Vec::new(alloc);
    for atom in wanted {
        match_steps(&mut found, alloc, problem, start, steps, atom)?;
    }
    Ok(found)
}
