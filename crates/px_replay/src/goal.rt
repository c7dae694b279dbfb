//! The goal with other terms for its objects.
ghost use Rattle.std.specs.Prelude.{◌≡◌, ◌≤◌, ◌<◌, ◌+◌, ◌-◌, ◌^◌, IfOk, All, cond, count_by, length, take};
ghost use Rattle.px_base.specs.Bounds.{u32_max};
ghost use Rattle.px_terms.specs.Language.{IsVariableBelow};
ghost use Rattle.px_replay.specs.FreshVariables.{is_object};
ghost use Rattle.px_replay.specs.Opened.{goal_objects, named_args, named_goal as goal_named, named_term, opened_goal};

use crate::counting::count_objects;
use crate::opening::variables;
use px_base::{NoMemory, push};
use px_terms::{Atom, Term};
use px_unify::MOST_VARIABLES;
use std::alloc::Global;

/// Returns the goal with a fresh variable, from number `first` on, for each of its objects. Its own variables become those from
/// number `own` on.
///
/// # Errors
/// `NoMemory` where there is no memory for the list.
pub fn open_goal(alloc: Global, goal: &[Atom], first: u32, own: u32) -> Result<Vec<Atom>, NoMemory>
    requires objects { first + goal_objects goal.now ≤ own }
    requires few { own ≤ MOST_VARIABLES }
    requires variables { All (λ atom. All (IsVariableBelow (u32_max + 1 - own)) atom.args) goal.now }
    ensures { IfOk result (λ made. made.items ≡ opened_goal first own goal.now) }
{
    let slots = variables(alloc, 0, own)?;
    named_goal(alloc, &slots, own, first, goal)
}

/// Returns the goal with the terms of the list, from number `first` on, for its objects from left to right. Its own variables become
/// those from number `own` on.
///
/// # Errors
/// `NoMemory` where there is no memory for the list.
pub fn named_goal(
    alloc: Global,
    names: &[Term],
    own: u32,
    first: u32,
    goal: &[Atom],
) -> Result<Vec<Atom>, NoMemory>
    requires objects { first + goal_objects goal.now ≤ length names.now }
    requires few { length names.now ≤ MOST_VARIABLES }
    requires variables { All (λ atom. All (IsVariableBelow (u32_max + 1 - own)) atom.args) goal.now }
    ensures { IfOk result (λ made. made.items ≡ goal_named names.now own first goal.now) }
{
    let mut made = Vec::new(alloc);
    let mut next = first;
    for atom in goal {
        push(&mut made, named_atom(names, own, next, atom))?;
        next += count_objects(atom.args());
    }
    Ok(made)
}

/// Returns the atom with the terms of the list, from number `first` on, for its objects, and its own variables from number `own` on.
fn named_atom(names: &[Term], own: u32, first: u32, atom: &Atom) -> Atom
    requires objects { first + count_by is_object atom.now.args ≤ length names.now }
    requires few { length names.now ≤ MOST_VARIABLES }
    requires variables { All (IsVariableBelow (u32_max + 1 - own)) atom.now.args }
    ensures { result ≡ record { pred = atom.now.pred; args = named_args names.now own first atom.now.args } }
{
    let args = atom.args();
    let mut terms = [Term::Any; 6];
    name_each(names, own, first, args, &mut terms);
    Atom::of(atom.pred(), &terms[..args.len()])
}

/// Writes the terms for the arguments to the front of `into`.
fn name_each(names: &[Term], own: u32, first: u32, args: &[Term], into: &mut [Term])
    requires objects { first + count_by is_object args.now ≤ length names.now }
    requires few { length names.now ≤ MOST_VARIABLES }
    requires variables { All (IsVariableBelow (u32_max + 1 - own)) args.now }
    requires room { length args.now ≤ length into.old }
    ensures prefix { take (length args.now) into.new ≡ named_args names.now own first args.now }
    ensures long { length into.new ≡ length into.old }
{
    let mut next = first;
    for (i, term) in args.iter().enumerate() {
        into[i] = name_of(names, own, next, *term);
        next += object_count(*term);
    }
}

/// Returns the term for one argument.
fn name_of(names: &[Term], own: u32, next: u32, term: Term) -> Term
    requires object { next + cond (is_object term) 1 0 ≤ length names.now }
    requires variable { IsVariableBelow (u32_max + 1 - own) term }
    ensures { result ≡ named_term names.now own next term }
{
    match term {
        Term::Obj(_) => names[next as usize],
        Term::Var(v) => Term::Var(own + v),
        Term::Any => Term::Any,
    }
}

/// Returns 1 for an object, and 0 for any other term.
fn object_count(term: Term) -> u32
    ensures { result ≡ cond (is_object term) 1 0 }
{
    match term {
        Term::Obj(_) => 1,
        Term::Var(_) | Term::Any => 0,
    }
}
