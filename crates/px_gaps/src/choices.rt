//! Objects for the variables of a formula that fit their sorts and under which a pattern of it closes nothing that is provable.
ghost use Rattle.std.specs.Prelude.{◌≡◌, ◌↔◌, ◌⊎◌, ◌++◌, ◌∷◌, [], ℕ, Some, List, length, map as map_list, slice_get, All, Contains, IfSome, IfNone, IfOk, OnOk};
ghost use Rattle.px_prover.specs.PatternLists.{lists_of};
ghost use Rattle.px_terms.specs.Instances.{IsGround};
ghost use Rattle.px_terms.specs.Language.{IsVariableBelow, substitute, object_of as object_by};
ghost use Rattle.px_terms.specs.Sorts.{ObjectsFit};
ghost use Rattle.px_terms.specs.declared.term.Term.{Term as TermValue};
ghost use Rattle.px_terms.specs.declared.term.Term.TheVariants.{Var};
ghost use Rattle.px_gaps.specs.Bindings.{AreBound, IsBinding, IsOpenChoice};
ghost use Rattle.px_gaps.specs.Choices.{IsClosed};
ghost use Rattle.px_gaps.specs.Closings.{IsChosenIn};
ghost use Rattle.px_gaps.specs.Described.{IsChosenBy, IsPlainPattern};

use crate::bindings::{Avoidance, bound, can_avoid, meets_under, unbound};
use crate::sorting::{Sorting, sort_of};
use px_base::push;
use px_ops::Model;
use px_prover::GapPattern;
use px_terms::{NoMemory, Sequence, Term, apply_term, fits_sort, object_of, objects_fit};
use std::alloc::Global;

/// Returns the variable that the term is, if it is one.
fn variable_of(term: Term) -> Option<u32>
    ensures some { IfSome result (λ variable. term ≡ Var variable) }
    ensures none { IfNone result ((v : ℕ) → ¬ (term ≡ Var v)) }
{
    match term {
        Term::Var(variable) => Some(variable),
        Term::Obj(_) => None,
        Term::Any => None,
    }
}

/// Returns the first variable that stands for one of the terms.
fn first_of(terms: &[Term], targets: &[Term]) -> Option<u32>
    requires below { All (IsVariableBelow (length terms.now)) targets.now }
    requires binding { (limit : ℕ) × IsBinding limit terms.now }
    ensures some { IfSome result (λ variable. slice_get terms.now variable ≡ Some (Var variable)) }
    ensures none { IfNone result (All (IsClosed terms.now) targets.now) }
{
    for target in targets {
        match variable_of(apply_term(terms, *target)) {
            Some(variable) => return Some(variable),
            None => {}
        }
    }
    None
}

/// Returns the objects that stand for the terms.
fn objects_by(alloc: Global, terms: &[Term], targets: &[Term]) -> Result<Vec<u32>, NoMemory>
    requires { All (IsVariableBelow (length terms.now)) targets.now }
    ensures { IfOk result (λ objects. objects.items ≡ map_list (λ (t : TermValue). object_by (substitute terms.now t)) targets.now) }
{
    let mut objects = Vec::new(alloc);
    for target in targets {
        objects.push(object_of(apply_term(terms, *target)))?;
    }
    Ok(objects)
}

/// Appends the objects that stand for the terms, where they fit.
fn push_objects(
    alloc: Global,
    found: &mut Vec<Sequence<u32>>,
    sorting: &Sorting,
    terms: &[Term],
    targets: &[Term],
) -> Result<(), NoMemory>
    requires { All (IsVariableBelow (length terms.now)) targets.now }
    ensures { OnOk result ((objects : List ℕ) → Contains found.new.items objects
        ↔ (Contains found.old.items objects ⊎ ((map_list (λ (t : TermValue). object_by (substitute terms.now t)) targets.now ≡ objects)
        × ObjectsFit sorting.now.object_sorts.now sorting.now.wanted.now objects))) }
{
    let objects = objects_by(alloc, terms, targets)?;
    if !objects_fit(sorting.object_sorts, sorting.wanted, &objects) {
        return Ok(());
    }
    push(found, Sequence::from_vec(objects))
}

/// Adds the objects that stand for the terms, where they fit and the other variables can have objects under which none of the atoms is in
/// the set.
fn push_one(
    found: &mut Vec<Sequence<u32>>,
    avoidance: &Avoidance,
    sorting: &Sorting,
    terms: &[Term],
    targets: &[Term],
) -> Result<(), NoMemory>
    requires closed { All (IsClosed terms.now) targets.now }
    requires below { All (IsVariableBelow (length terms.now)) targets.now }
    requires bound { AreBound avoidance.now.limit terms.now avoidance.now.atoms.now avoidance.now.set.now.atoms }
    ensures { OnOk result ((objects : List ℕ) → Contains found.new.items objects
        ↔ (Contains found.old.items objects ⊎ (IsOpenChoice avoidance.now.limit terms.now avoidance.now.atoms.now
        avoidance.now.set.now.atoms targets.now objects × ObjectsFit sorting.now.object_sorts.now sorting.now.wanted.now objects))) }
{
    if !can_avoid(avoidance, terms)? {
        return Ok(());
    }
    push_objects(avoidance.alloc, found, sorting, terms, targets)
}

/// Adds the objects that stand for the terms and fit, for all objects of the variables that do. Each recursive call has one variable less.
/// An object of another sort is passed over.
fn push_open(
    found: &mut Vec<Sequence<u32>>,
    avoidance: &Avoidance,
    sorting: &Sorting,
    terms: &[Term],
    targets: &[Term],
) -> Result<(), NoMemory>
    requires below { All (IsVariableBelow (length terms.now)) targets.now }
    requires bound { AreBound avoidance.now.limit terms.now avoidance.now.atoms.now avoidance.now.set.now.atoms }
    ensures { OnOk result ((objects : List ℕ) → Contains found.new.items objects
        ↔ (Contains found.old.items objects ⊎ (IsOpenChoice avoidance.now.limit terms.now avoidance.now.atoms.now
        avoidance.now.set.now.atoms targets.now objects × ObjectsFit sorting.now.object_sorts.now sorting.now.wanted.now objects))) }
{
    let variable = match first_of(terms, targets) {
        Some(variable) => variable,
        None => return push_one(found, avoidance, sorting, terms, targets),
    };
    if meets_under(terms, avoidance.atoms, avoidance.set) {
        return Ok(());
    }
    let sort = sort_of(sorting, targets, variable);
    for object in 0..avoidance.limit {
        if !fits_sort(sorting.object_sorts, sort, object) {
            continue;
        }
        let next = bound(avoidance.alloc, terms, variable, object)?;
        push_open(found, avoidance, sorting, &next, targets)?;
    }
    Ok(())
}

/// Adds the objects for the formula's variables that fit and under which the pattern closes no atom that is provable.
fn push_choices(
    alloc: Global,
    found: &mut Vec<Sequence<u32>>,
    limit: u32,
    sorting: &Sorting,
    pattern: &GapPattern,
    provable: &Model,
) -> Result<(), NoMemory>
    requires pattern { IsPlainPattern limit pattern.now }
    requires provable { All IsGround provable.now.atoms }
    ensures { OnOk result ((objects : List ℕ) → Contains found.new.items objects
        ↔ (Contains found.old.items objects ⊎ (IsChosenBy limit provable.now.atoms pattern.now objects
        × ObjectsFit sorting.now.object_sorts.now sorting.now.wanted.now objects))) }
{
    let terms = unbound(alloc, pattern.variable_count)?;
    let targets = pattern.terms.as_slice();
    let atoms = pattern.atoms.as_slice();
    let avoidance = Avoidance {
        alloc,
        limit,
        atoms,
        set: provable,
    };
    push_open(found, &avoidance, sorting, &terms, targets)
}

/// Returns the objects for a formula's variables that fit the sorts which are wanted of them, and under which one of the formula's patterns
/// closes no atom that is provable.
///
/// # Errors
/// `NoMemory` if there isn't enough memory.
pub fn choices_of(
    alloc: Global,
    limit: u32,
    sorting: &Sorting,
    patterns: &[GapPattern],
    provable: &Model,
) -> Result<Vec<Sequence<u32>>, NoMemory>
    requires patterns { All (IsPlainPattern limit) patterns.now }
    requires provable { All IsGround provable.now.atoms }
    ensures { IfOk result (λ choices. (objects : List ℕ) → Contains choices.items objects
        ↔ (IsChosenIn (lists_of limit patterns.now) provable.now.atoms objects
        × ObjectsFit sorting.now.object_sorts.now sorting.now.wanted.now objects)) }
{
    let mut choices = Vec::new(alloc);
    for pattern in patterns {
        push_choices(alloc, &mut choices, limit, sorting, pattern, provable)?;
    }
    Ok(choices)
}
