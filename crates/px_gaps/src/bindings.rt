//! Objects for the variables of atoms, chosen one after the other, so that none of the atoms is in a set.
ghost use Rattle.std.specs.Prelude.{◌≡◌, ◌↔◌, ◌<◌, ℕ, Some, length, slice_get, set as set_at, All, Any, Contains, IsTrue, IfSome, IfNone, IfOk, MatchBool};
ghost use Rattle.px_question.specs.Answers.{object_terms};
ghost use Rattle.px_terms.specs.Instances.{IsGround};
ghost use Rattle.px_terms.specs.Substitution.{substitute_atom};
ghost use Rattle.px_terms.specs.declared.term.Term.TheVariants.{Obj, Var};
ghost use Rattle.px_gaps.specs.Bindings.{AreBound, ArePlain, AreUnbound, CanAvoid, IsBinding, IsPlain, first_values};

use crate::apart::{Parts, apart};
use px_ops::Model;
use px_terms::{Atom, NoMemory, Term, apply, object_of};
use std::alloc::Global;

/// Atoms of which none is to be in a set, whatever objects their variables get.
#[derive(Clone, Copy)]
pub struct Avoidance<'a> {
    /// Where memory is taken from.
    pub alloc: Global,
    /// How many objects there are.
    pub limit: u32,
    pub atoms: &'a [Atom],
    pub set: &'a Model,
}

/// Returns a term for each of `variable_count` variables: the variable itself, since no object is chosen yet.
///
/// # Errors
/// `NoMemory` if there isn't enough memory.
pub fn unbound(alloc: Global, variable_count: u32) -> Result<Vec<Term>, NoMemory>
    ensures { IfOk result (λ terms. AreUnbound variable_count terms.items) }
{
    let mut terms = Vec::new(alloc);
    for variable in 0..variable_count {
        terms.push(Term::Var(variable))?;
    }
    Ok(terms)
}

/// Returns the terms with the object in the place of the variable.
///
/// # Errors
/// `NoMemory` if there isn't enough memory.
pub fn bound(
    alloc: Global,
    terms: &[Term],
    variable: u32,
    object: u32,
) -> Result<Vec<Term>, NoMemory>
    requires { variable < length terms.now }
    ensures { IfOk result (λ next. next.items ≡ set_at terms.now variable (Obj object)) }
{
    let mut next = Vec::new(alloc);
    next.extend_from_slice(terms)?;
    next[variable as usize] = Term::Obj(object);
    Ok(next)
}

/// Puts the object in the place of the variable.
pub(crate) fn bind(terms: &mut Vec<Term>, variable: u32, object: u32)
    requires { variable < length terms.old.items }
    ensures { terms.new.items ≡ set_at terms.old.items variable (Obj object) }
{
    terms[variable as usize] = Term::Obj(object);
}

/// Returns whether one of the atoms, with the objects that are chosen, is in the set.
pub fn meets_under(terms: &[Term], atoms: &[Atom], set: &Model) -> bool
    requires { ArePlain (length terms.now) atoms.now }
    ensures { IsTrue result ↔ Any (λ atom. Contains set.now.atoms (substitute_atom terms.now atom)) atoms.now }
{
    for atom in atoms {
        let here = apply(terms, atom);
        if set.holds(&here) {
            return true;
        }
    }
    false
}

/// Returns the first variable among the terms, or `None` if there is none.
pub fn first_variable(args: &[Term]) -> Option<u32>
    ensures some { IfSome result (λ variable. Contains args.now (Var variable)) }
    ensures none { IfNone result (All (λ t. (v : ℕ) → ¬ (t ≡ Var v)) args.now) }
{
    for term in args {
        if let Term::Var(variable) = term {
            return Some(*variable);
        }
    }
    None
}

/// Returns the first variable of the atom for which the terms have no object, or `None` if each has one.
pub fn open_variable(terms: &[Term], atom: &Atom) -> Option<u32>
    requires plain { IsPlain (length terms.now) atom.now }
    requires binding { (limit : ℕ) × IsBinding limit terms.now }
    ensures some { IfSome result (λ variable. slice_get terms.now variable ≡ Some (Var variable)) }
    ensures none { IfNone result (IsGround (substitute_atom terms.now atom.now)) }
{
    let here = apply(terms, atom);
    first_variable(here.args())
}

/// Returns the first such variable of the first atom that has one, with the place of this atom.
fn first_open(terms: &[Term], atoms: &[Atom]) -> Option<(usize, u32)>
    requires plain { ArePlain (length terms.now) atoms.now }
    requires binding { (limit : ℕ) × IsBinding limit terms.now }
    ensures place { IfSome result (λ found. found.0 < length atoms.now) }
    ensures variable { IfSome result (λ found. slice_get terms.now found.1 ≡ Some (Var found.1)) }
    ensures none { IfNone result (All (λ atom. IsGround (substitute_atom terms.now atom)) atoms.now) }
{
    for (place, atom) in atoms.iter().enumerate() {
        match open_variable(terms, atom) {
            Some(variable) => return Some((place, variable)),
            None => {}
        }
    }
    None
}

/// Returns whether there are objects for the other variables under which none of the atoms is in the set. Each recursive call has one
/// variable less.
fn can_choose(avoidance: &Avoidance, terms: &[Term]) -> Result<bool, NoMemory>
    requires { AreBound avoidance.now.limit terms.now avoidance.now.atoms.now avoidance.now.set.now.atoms }
    ensures { IfOk result (λ can. MatchBool can (CanAvoid avoidance.now.limit terms.now avoidance.now.atoms.now avoidance.now.set.now.atoms)
        (¬ CanAvoid avoidance.now.limit terms.now avoidance.now.atoms.now avoidance.now.set.now.atoms)) }
{
    if meets_under(terms, avoidance.atoms, avoidance.set) {
        return Ok(false);
    }
    let variable = match first_open(terms, avoidance.atoms) {
        Some((_, variable)) => variable,
        None => return Ok(true),
    };
    for object in 0..avoidance.limit {
        let next = bound(avoidance.alloc, terms, variable, object)?;
        if can_choose(avoidance, &next)? {
            return Ok(true);
        }
    }
    Ok(false)
}

/// Returns whether there are such objects, where no atom is in the set as far as objects are chosen: atoms that share no variable are
/// tried apart.
fn can_choose_apart(avoidance: &Avoidance, terms: &[Term]) -> Result<bool, NoMemory>
    requires bound { AreBound avoidance.now.limit terms.now avoidance.now.atoms.now avoidance.now.set.now.atoms }
    requires unmet { ¬ Any (λ atom. Contains avoidance.now.set.now.atoms (substitute_atom terms.now atom)) avoidance.now.atoms.now }
    ensures { IfOk result (λ can. MatchBool can (CanAvoid avoidance.now.limit terms.now avoidance.now.atoms.now avoidance.now.set.now.atoms)
        (¬ CanAvoid avoidance.now.limit terms.now avoidance.now.atoms.now avoidance.now.set.now.atoms)) }
{
    let mut rest = Vec::new(avoidance.alloc);
    rest.extend_from_slice(avoidance.atoms)?;
    while let Some((place, _)) = first_open(terms, &rest) {
        let Parts { linked, others } = apart(avoidance.alloc, terms, &rest, place)?;
        let atoms = linked.as_slice();
        let part = Avoidance {
            alloc: avoidance.alloc,
            limit: avoidance.limit,
            atoms,
            set: avoidance.set,
        };
        if !can_choose(&part, terms)? {
            return Ok(false);
        }
        rest = others;
    }
    Ok(true)
}

/// Returns the terms, with object 0 for each variable that has no object.
fn first_objects(alloc: Global, terms: &[Term]) -> Result<Vec<Term>, NoMemory>
    ensures { IfOk result (λ filled. filled.items ≡ object_terms (first_values terms.now)) }
{
    let mut filled = Vec::new(alloc);
    for term in terms {
        filled.push(Term::Obj(object_of(*term)))?;
    }
    Ok(filled)
}

/// Returns whether there are objects for the other variables under which none of the atoms is in the set. Often the first object for each
/// is enough.
pub fn can_avoid(avoidance: &Avoidance, terms: &[Term]) -> Result<bool, NoMemory>
    requires { AreBound avoidance.now.limit terms.now avoidance.now.atoms.now avoidance.now.set.now.atoms }
    ensures { IfOk result (λ can. MatchBool can (CanAvoid avoidance.now.limit terms.now avoidance.now.atoms.now avoidance.now.set.now.atoms)
        (¬ CanAvoid avoidance.now.limit terms.now avoidance.now.atoms.now avoidance.now.set.now.atoms)) }
{
    let first = first_objects(avoidance.alloc, terms)?;
    if !meets_under(&first, avoidance.atoms, avoidance.set) {
        return Ok(true);
    }
    if meets_under(terms, avoidance.atoms, avoidance.set) {
        return Ok(false);
    }
    can_choose_apart(avoidance, terms)
}
