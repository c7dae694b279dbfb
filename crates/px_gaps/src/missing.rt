//! The atoms that the patterns of a formula close together with none that is provable.
ghost use Rattle.std.specs.Prelude.{◌≡◌, ◌<◌, ◌↔◌, ◌⊎◌, length, All, Contains, IfOk, OnOk, IsTrue};
ghost use Rattle.px_prover.specs.PatternLists.{lists_of};
ghost use Rattle.px_terms.specs.Instances.{IsGround};
ghost use Rattle.px_terms.specs.Substitution.{substitute_atom};
ghost use Rattle.px_terms.specs.declared.atom.Atom.{Atom as AtomValue};
ghost use Rattle.px_gaps.specs.Bindings.{AreBound, IsOpenInstance, IsPlain};
ghost use Rattle.px_gaps.specs.Closings.{IsMissingIn};
ghost use Rattle.px_gaps.specs.Described.{IsMissingBy, IsPlainPattern};

use crate::bindings::{Avoidance, bind, bound, can_avoid, meets_under, open_variable, unbound};
use px_ops::Model;
use px_prover::GapPattern;
use px_terms::{Atom, NoMemory, Term, apply};
use std::alloc::Global;

/// Returns whether the atom stands at the place.
fn stands_at(atoms: &[Atom], place: usize, atom: &Atom) -> bool
    ensures { IsTrue result → ((place < length atoms.now) × Contains atoms.now atom.now) }
{
    place < atoms.len() && atoms[place] == *atom
}

/// Returns whether the atom is in the set. If it stands at `near`, one comparison is enough; then `near` is the place where the next atom of
/// the set stands.
fn holds_near(set: &Model, near: &mut usize, atom: &Atom) -> bool
    ensures { IsTrue result ↔ Contains set.now.atoms atom.now }
{
    let atoms = set.atoms();
    if stands_at(atoms, *near, atom) {
        *near += 1;
        return true;
    }
    match atoms.binary_search(atom) {
        Ok(place) => {
            *near = place + 1;
            true
        }
        Err(place) => {
            *near = place;
            false
        }
    }
}

/// Puts the atom with the chosen objects into the set of those found, where the other variables can have objects under which none of the
/// atoms is in the set to be avoided.
fn insert_one(
    found: &mut Model,
    near: &mut usize,
    avoidance: &Avoidance,
    terms: &[Term],
    target: &Atom,
) -> Result<(), NoMemory>
    requires is_ground { IsGround (substitute_atom terms.now target.now) }
    requires target { IsPlain (length terms.now) target.now }
    requires bound { AreBound avoidance.now.limit terms.now avoidance.now.atoms.now avoidance.now.set.now.atoms }
    ensures { OnOk result ((q : AtomValue) → Contains found.new.atoms q
        ↔ (Contains found.old.atoms q ⊎ IsOpenInstance avoidance.now.limit terms.now avoidance.now.atoms.now avoidance.now.set.now.atoms
        target.now q)) }
{
    let here = apply(terms, target);
    if holds_near(found, near, &here) {
        return Ok(());
    }
    if !can_avoid(avoidance, terms)? {
        return Ok(());
    }
    found.insert(here)?;
    Ok(())
}

// Alike: `push_open` of `choices` goes through the same objects, and keeps these instead of an atom.
/// Puts the atom into the set of those found, with each choice of objects for its variables under which the other variables can have
/// objects so that no atom is in the set to be avoided. Each recursive call has one variable less.
fn insert_open(
    found: &mut Model,
    near: &mut usize,
    avoidance: &Avoidance,
    terms: &[Term],
    target: &Atom,
) -> Result<(), NoMemory>
    requires target { IsPlain (length terms.now) target.now }
    requires bound { AreBound avoidance.now.limit terms.now avoidance.now.atoms.now avoidance.now.set.now.atoms }
    ensures { OnOk result ((q : AtomValue) → Contains found.new.atoms q
        ↔ (Contains found.old.atoms q ⊎ IsOpenInstance avoidance.now.limit terms.now avoidance.now.atoms.now avoidance.now.set.now.atoms
        target.now q)) }
{
    let variable = match open_variable(terms, target) {
        Some(variable) => variable,
        None => return insert_one(found, near, avoidance, terms, target),
    };
    if meets_under(terms, avoidance.atoms, avoidance.set) {
        return Ok(());
    }
    let mut next = bound(avoidance.alloc, terms, variable, 0)?;
    for object in 0..avoidance.limit {
        bind(&mut next, variable, object);
        insert_open(found, near, avoidance, &next, target)?;
    }
    Ok(())
}

/// Puts the instances of the pattern's atoms into the set, as far as they come about together with no atom that is provable.
fn insert_missing(
    alloc: Global,
    found: &mut Model,
    limit: u32,
    pattern: &GapPattern,
    provable: &Model,
) -> Result<(), NoMemory>
    requires pattern { IsPlainPattern limit pattern.now }
    requires provable { All IsGround provable.now.atoms }
    ensures { OnOk result ((q : AtomValue) → Contains found.new.atoms q
        ↔ (Contains found.old.atoms q ⊎ IsMissingBy limit provable.now.atoms pattern.now q)) }
{
    let terms = unbound(alloc, pattern.variable_count)?;
    let atoms = pattern.atoms.as_slice();
    let avoidance = Avoidance {
        alloc,
        limit,
        atoms,
        set: provable,
    };
    let mut near = 0;
    for target in atoms {
        insert_open(found, &mut near, &avoidance, &terms, target)?;
    }
    Ok(())
}

/// Puts the atoms that the patterns close together with none of the provable ones into the set.
pub(crate) fn insert_missing_by(
    alloc: Global,
    found: &mut Model,
    limit: u32,
    patterns: &[GapPattern],
    provable: &Model,
) -> Result<(), NoMemory>
    requires patterns { All (IsPlainPattern limit) patterns.now }
    requires provable { All IsGround provable.now.atoms }
    ensures { OnOk result ((q : AtomValue) → Contains found.new.atoms q
        ↔ (Contains found.old.atoms q ⊎ IsMissingIn (lists_of limit patterns.now) provable.now.atoms q)) }
{
    for pattern in patterns {
        insert_missing(alloc, found, limit, pattern, provable)?;
    }
    Ok(())
}

/// Returns the atoms that the patterns close together with none of the provable ones.
pub fn missing_by(
    alloc: Global,
    limit: u32,
    patterns: &[GapPattern],
    provable: &Model,
) -> Result<Model, NoMemory>
    requires patterns { All (IsPlainPattern limit) patterns.now }
    requires provable { All IsGround provable.now.atoms }
    ensures { IfOk result (λ missing. (atom : AtomValue) → Contains missing.atoms atom
        ↔ IsMissingIn (lists_of limit patterns.now) provable.now.atoms atom) }
{
    let mut missing = Model::new(alloc);
    insert_missing_by(alloc, &mut missing, limit, patterns, provable)?;
    Ok(missing)
}
