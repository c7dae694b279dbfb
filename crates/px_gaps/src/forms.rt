//! Atoms with their variables named anew, so that atoms that differ only by the names of their variables are asked once.
ghost use Rattle.std.specs.Prelude.{◌≡◌, ◌↔◌, ◌⊎◌, ◌≤◌, length, Contains, IfOk, OnOk};
ghost use Rattle.px_terms.specs.Limits.{most_arguments};
ghost use Rattle.px_prover.specs.declared.pattern.GapPattern.{GapPattern as PatternValue};
ghost use Rattle.px_terms.specs.declared.atom.Atom.{Atom as AtomValue};
ghost use Rattle.px_gaps.specs.Closings.{OneOf};
ghost use Rattle.px_gaps.specs.Forms.{form_by, named_by, place_in};

use px_prover::GapPattern;
use px_terms::{Atom, MOST_ARGUMENTS, NoMemory, Term};
use std::alloc::Global;

/// Returns the place at which the term stands first; the number of the terms, where it stands nowhere.
fn place_of(args: &[Term], term: Term) -> u32
    requires { length args.now ≤ most_arguments }
    ensures { result ≡ place_in args.now term }
{
    for (place, other) in args.iter().enumerate() {
        if *other == term {
            return place as u32;
        }
    }
    args.len() as u32
}

/// Returns the term, in which a variable gets the place at which it stands first as its number.
fn named(args: &[Term], term: Term) -> Term
    requires { length args.now ≤ most_arguments }
    ensures { result ≡ named_by args.now term }
{
    match term {
        Term::Var(_) => Term::Var(place_of(args, term)),
        Term::Obj(_) | Term::Any => term,
    }
}

/// Returns the atom, in which each variable gets the place at which it stands first as its number.
fn form_of(atom: &Atom) -> Atom
    ensures { result ≡ form_by atom.now }
{
    let args = atom.args();
    let mut terms = [Term::Any; MOST_ARGUMENTS];
    for (k, term) in args.iter().enumerate() {
        terms[k] = named(args, *term);
    }
    Atom::of(atom.pred(), &terms[..args.len()])
}

/// Adds the forms of the atoms.
fn push_forms(forms: &mut Vec<Atom>, atoms: &[Atom]) -> Result<(), NoMemory>
    ensures { OnOk result ((form : AtomValue) → Contains forms.new.items form
        ↔ (Contains forms.old.items form ⊎ OneOf atoms.now (λ atom. form_by atom ≡ form))) }
{
    for atom in atoms {
        forms.push(form_of(atom))?;
    }
    Ok(())
}

/// Returns the forms of the atoms that the patterns close, each once. In an atom's form each variable has the place at which it first
/// stands as its number.
///
/// # Errors
/// `NoMemory` if there isn't enough memory.
pub fn forms_of(alloc: Global, patterns: &[GapPattern]) -> Result<Vec<Atom>, NoMemory>
    ensures { IfOk result (λ forms. (form : AtomValue) → Contains forms.items form
        ↔ OneOf patterns.now (λ (pattern : PatternValue). OneOf pattern.atoms (λ atom. form_by atom ≡ form))) }
{
    let mut forms = Vec::new(alloc);
    for pattern in patterns {
        push_forms(&mut forms, pattern.atoms.as_slice())?;
    }
    forms.sort_unstable();
    forms.dedup();
    Ok(forms)
}
