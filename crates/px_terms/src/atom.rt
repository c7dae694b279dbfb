//! Atoms, and replacing variables in them.
ghost use Rattle.std.specs.Prelude.{◌≡◌, ◌≤◌, ◌↔◌, length, All, IsTrue, IsSome, IfSome};
ghost use Rattle.std.proofs.Common.{refl};
ghost use Rattle.std.specs.Cmp.{partial_equiv_from_equiv};
ghost use Rattle.std.specs.Ordering.{as_partial_cmp};
ghost use Rattle.std.specs.Cmp.Lexicographic.{pointwise};
ghost use Rattle.px_terms.specs.Instances.{IsGround, IsInstance, is_filled_place, is_instance};
ghost use Rattle.px_terms.specs.Language.{IsVariableBelow};
ghost use Rattle.px_terms.specs.Limits.{most_arguments};
ghost use Rattle.px_terms.specs.Substitution.{substitute_atom};
ghost use Rattle.px_terms.specs.Order.{atom_eq, atom_cmp, atom_hash_input};
ghost use Rattle.px_terms.specs.OrderLaws.{atom_eq-equivalence, atom_cmp-total, atom_cmp-matches_eq, atom_cmp-partial, atom_hash-alike};

use crate::limits::MOST_ARGUMENTS;
use crate::substitution::substitute_all;
use crate::term::Term;
use std::cmp::Ordering;
use std::hash::{Hash, Hasher};
use std::marker::Model;

/// A predicate with at most six arguments: the smallest statement of a world model (Fikes and Nilsson 1971).
///
/// Contracts see it as its predicate's number and the list of its terms.
#[derive(Clone, Copy, Debug)]
pub struct Atom {
    pred: u32,
    len: usize,
    terms: [Term; MOST_ARGUMENTS],
}

impl Model for Atom {
    ghost use Rattle.std.specs.Prelude.{take, length};
    ghost use Rattle.px_terms.specs.Limits.{most_arguments};
    ghost use Rattle.px_terms.specs.Padding.{IsPadded, padded};
    ghost use Rattle.px_terms.specs.Language.{AtomValue};

    ghost Value = { AtomValue };

    ghost view = { λ a. record { pred = a.pred; args = take a.len a.terms } };

    ghost invariant = { λ a. IsPadded most_arguments a.len a.terms };

    ghost inverse = { λ v. record { pred = v.pred; len = length v.args; terms = padded most_arguments v.args } };
}

impl Atom {
    /// Returns the atom of a predicate with these arguments; `None` exactly where there are more than six. Does not allocate.
    pub fn new(pred: u32, args: &[Term]) -> Option<Atom>
        ensures fits { IsSome result ↔ (length args.now ≤ most_arguments) }
        ensures value { IfSome result (λ atom. atom ≡ record { pred = pred; args = args.now }) }
    {
        if args.len() > MOST_ARGUMENTS {
            return None;
        }
        let mut terms = [Term::Any; MOST_ARGUMENTS];
        terms[..args.len()].copy_from_slice(args);
        Some(Atom {
            pred,
            len: args.len(),
            terms,
        })
    }

    /// Returns the atom of a predicate with these arguments, which are at most six. Does not allocate.
    pub fn of(pred: u32, args: &[Term]) -> Atom
        requires { length args.now ≤ most_arguments }
        ensures { result ≡ record { pred = pred; args = args.now } }
    {
        match Atom::new(pred, args) {
            Some(atom) => atom,
            None => unreachable!(),
        }
    }

    /// Returns the number of the predicate.
    pub fn pred(&self) -> u32
        ensures { result ≡ self.now.pred }
    {
        self.pred
    }

    /// Returns the arguments, from the left.
    pub fn args(&self) -> &[Term]
        ensures value { result.now ≡ self.now.args }
        ensures at_most { length self.now.args ≤ most_arguments }
    {
        &self.terms[..self.len]
    }
}

impl PartialEq for Atom {
    ghost eq = { atom_eq };

    ghost laws = { partial_equiv_from_equiv atom_eq-equivalence };

    fn eq(&self, other: &Atom) -> bool {
        self.pred == other.pred && self.args() == other.args()
    }
}

impl Eq for Atom {
    ghost laws = { atom_eq-equivalence };
}

impl Ord for Atom {
    ghost cmp = { atom_cmp };

    ghost total = { atom_cmp-total };

    ghost matches_partial_cmp = { λ _ _. refl };

    ghost matches_eq = { atom_cmp-matches_eq };

    fn cmp(&self, other: &Atom) -> Ordering {
        self.pred
            .cmp(&other.pred)
            .then(self.args().cmp(other.args()))
    }
}

impl PartialOrd for Atom {
    ghost partial_cmp = { as_partial_cmp atom_cmp };

    ghost laws = { atom_cmp-partial };

    fn partial_cmp(&self, other: &Atom) -> Option<Ordering> {
        Some(self.cmp(other))
    }
}

impl Hash for Atom {
    ghost hash_input = { atom_hash_input };

    ghost respects_eq = { atom_hash-alike.fed };

    fn hash<H: Hasher>(&self, state: &mut H) {
        self.pred.hash(state);
        self.args().hash(state);
    }
}

// Alike: `OpInst` in instance.rt, a list of at most 8 terms in place of 6. With one type for both an instance would pass for an atom.
/// Returns whether the two atoms are the same.
pub fn equal(a: &Atom, b: &Atom) -> bool
    ensures { IsTrue result ↔ (a.now ≡ b.now) }
{
    *a == *b
}

/// Returns the atom with each variable replaced by the map's term of its number.
pub fn apply(map: &[Term], atom: &Atom) -> Atom
    requires { All (IsVariableBelow (length map.now)) atom.now.args }
    ensures { result ≡ substitute_atom map.now atom.now }
{
    let args = atom.args();
    let mut terms = [Term::Any; MOST_ARGUMENTS];
    substitute_all(map, args, &mut terms);
    Atom {
        pred: atom.pred(),
        len: args.len(),
        terms,
    }
}

/// Returns whether `atom` comes from `pattern` by putting an object in the place of each `Any`.
pub fn instance_of(atom: &Atom, pattern: &Atom) -> bool
    requires is_ground { IsGround atom.now }
    requires no_variable { All (IsVariableBelow 0) pattern.now.args }
    ensures test { result ≡ is_instance atom.now pattern.now }
    ensures meaning { IsTrue result ↔ IsInstance atom.now pattern.now }
{
    fills(atom, pattern)
}

/// Returns whether `pattern` becomes `atom` by putting terms in the place of each `Any`. The two may be any atoms.
pub fn fills(atom: &Atom, pattern: &Atom) -> bool
    ensures { result ≡ is_instance atom.now pattern.now }
{
    atom.pred() == pattern.pred() && is_filled(pattern.args(), atom.args())
}

/// Returns whether `pattern` is the wild card or `term` itself.
fn is_filled_by(pattern: Term, term: Term) -> bool
    ensures { result ≡ is_filled_place pattern term }
{
    pattern == Term::Any || pattern == term
}

/// Returns whether the lists are equally long, and each term of `pattern` is the wild card or the term of `atom` at its place.
fn is_filled(pattern: &[Term], terms: &[Term]) -> bool
    ensures { result ≡ pointwise is_filled_place pattern.now terms.now }
{
    if pattern.len() != terms.len() {
        return false;
    }
    for (i, term) in pattern.iter().enumerate() {
        if !is_filled_by(*term, terms[i]) {
            return false;
        }
    }
    true
}
