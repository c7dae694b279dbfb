//! For each mark the atoms of the last sensing that it may become, and how a new sensing changes them.
ghost use Rattle.std.specs.Prelude.{◌≡◌, ◌↔◌, ◌<◌, ◌≤◌, ◌+◌, ℕ, true, List, All, Contains, IsTrue, length, slice_index_or};
ghost use Rattle.std.specs.Cmp.Lexicographic.{pointwise};
ghost use Rattle.px_terms.specs.Instances.{IsGround};
ghost use Rattle.px_terms.specs.Order.{atom_eq, term_eq};
ghost use Rattle.px_terms.specs.AtomSets.{IsAtomSet, with_atom};
ghost use Rattle.px_ops.specs.Models.{without_atom};
ghost use Rattle.px_ops.specs.ModelValue.{ModelValue};
ghost use Rattle.px_table.specs.declared.mark.Mark.{Mark as DeclaredMark};
ghost use Rattle.px_match.specs.Keeping.{AreKept, AreMatches, ArePutIn, AreTakenOut, IsPutIn, IsTakenOut, covers as spec_covers, covers_term as spec_covers_term};

use px_ops::Model;
use px_table::Mark;
use px_terms::{Atom, Term};

/// Returns whether the term may become the other one.
fn covers_term(term: Term, found: Term) -> bool
    ensures { result ≡ spec_covers_term term found }
{
    match term {
        Term::Obj(_) => term == found,
        Term::Var(_) | Term::Any => true,
    }
}

/// Returns whether each of the terms may become the other one at its place.
fn cover_terms(terms: &[Term], found: &[Term]) -> bool
    ensures { result ≡ pointwise spec_covers_term terms.now found.now }
{
    if terms.len() != found.len() {
        return false;
    }
    for (at, term) in terms.iter().enumerate() {
        if !covers_term(*term, found[at]) {
            return false;
        }
    }
    true
}

/// Returns whether the mark may become the atom.
fn covers(mark: &Atom, atom: &Atom) -> bool
    ensures { result ≡ spec_covers mark.now atom.now }
{
    mark.pred() == atom.pred() && cover_terms(mark.args(), atom.args())
}

/// Takes the atom from the list, if the mark covers it.
fn take_one(list: &mut Model, mark: &Atom, atom: &Atom)
    ensures { IsTakenOut mark.now atom.now list.old list.new }
{
    if covers(mark, atom) {
        list.remove(atom);
    }
}

/// Puts a new atom into the list, if the mark covers it.
fn put_one(list: &mut Model, mark: &Atom, atom: &Atom)
    requires is_ground { IsGround atom.now }
    requires room { spec_covers mark.now atom.now ≡ true → 1 ≤ list.old.spare }
    ensures { IsPutIn mark.now atom.now list.old list.new }
{
    if covers(mark, atom) {
        list.insert_spare(*atom);
    }
}

/// Takes the atom from the lists of the marks that cover it.
fn take_from(lists: &mut [Model], marks: &[Mark], atom: &Atom)
    requires same { length lists.old ≡ length marks.now }
    ensures { AreTakenOut marks.now atom.now lists.old lists.new }
{
    for (at, mark) in marks.iter().enumerate() {
        take_one(&mut lists[at], &mark.atom, atom);
    }
}

/// Puts a new atom into the lists of the marks that cover it.
fn put_into(lists: &mut [Model], marks: &[Mark], atom: &Atom)
    requires same { length lists.old ≡ length marks.now }
    requires is_ground { IsGround atom.now }
    requires room { (k : ℕ) (l : ModelValue) (m : DeclaredMark) → k < length lists.old
        → spec_covers (slice_index_or marks.now k m).atom atom.now ≡ true → 1 ≤ (slice_index_or lists.old k l).spare }
    ensures { ArePutIn marks.now atom.now lists.old lists.new }
{
    for (at, mark) in marks.iter().enumerate() {
        put_one(&mut lists[at], &mark.atom, atom);
    }
}

/// Returns whether the terms are the same.
fn are_same(terms: &[Term], found: &[Term]) -> bool
    ensures { result ≡ pointwise term_eq terms.now found.now }
{
    if terms.len() != found.len() {
        return false;
    }
    for (at, term) in terms.iter().enumerate() {
        if *term != found[at] {
            return false;
        }
    }
    true
}

/// Returns whether the atoms are the same.
pub fn is_same(one: &Atom, other: &Atom) -> bool
    ensures { result ≡ atom_eq one.now other.now }
{
    one.pred() == other.pred() && are_same(one.args(), other.args())
}

/// Returns whether the atom is in the model. A walk over ascending atoms goes on in the model from the place. Nothing rests on the place:
/// an atom that the walk doesn't meet is looked up.
fn meets(model: &Model, atom: &Atom, place: &mut usize) -> bool
    ensures { IsTrue result ↔ Contains model.now.atoms atom.now }
{
    let atoms = model.atoms();
    while *place < atoms.len() {
        if is_same(&atoms[*place], atom) {
            *place += 1;
            return true;
        }
        if atoms[*place] > *atom {
            return model.holds(atom);
        }
        *place += 1;
    }
    model.holds(atom)
}

/// Takes what is gone from the kept atoms and their lists.
fn take_gone(kept: &mut Model, lists: &mut [Model], marks: &[Mark], new: &Model)
    requires same { length lists.old ≡ length marks.now }
    ensures same_length { length lists.new ≡ length lists.old }
    ensures set { IsAtomSet kept.new.atoms }
    ensures within { All (Contains new.now.atoms) kept.new.atoms }
    ensures kept { (room : ℕ) → AreKept room marks.now kept.old lists.old → AreKept room marks.now kept.new lists.new }
{
    let mut at = 0;
    let mut place = 0;
    while at < kept.atoms().len() {
        if meets(new, &kept.atoms()[at], &mut place) {
            at += 1;
        } else {
            let atom = kept.atoms()[at];
            kept.remove(&atom);
            take_from(lists, marks, &atom);
        }
    }
}

/// Puts what came to the kept atoms and their lists, until as many are kept as there are.
fn put_new(kept: &mut Model, lists: &mut [Model], marks: &[Mark], new: &Model)
    requires set { IsAtomSet kept.old.atoms }
    requires within { All (Contains new.now.atoms) kept.old.atoms }
    requires room { AreKept (length new.now.atoms) marks.now kept.old lists.old }
    ensures atoms { kept.new.atoms ≡ new.now.atoms }
    ensures kept { (room : ℕ) → AreKept room marks.now kept.old lists.old → AreKept room marks.now kept.new lists.new }
{
    let mut place = 0;
    for atom in new.atoms() {
        if kept.atoms().len() == new.atoms().len() {
            return;
        }
        if !meets(kept, atom, &mut place) {
            kept.insert_spare(*atom);
            put_into(lists, marks, atom);
        }
    }
}

/// Makes the kept atoms those of the model, and the lists theirs. What is gone is taken away before what came is put in: in
/// another order a list may need room for the old and the new atoms together.
pub fn renew(kept: &mut Model, lists: &mut [Model], marks: &[Mark], new: &Model)
    requires room { AreKept (length new.now.atoms) marks.now kept.old lists.old }
    ensures atoms { kept.new.atoms ≡ new.now.atoms }
    ensures matches { AreMatches marks.now new.now.atoms lists.new }
    ensures kept { (room : ℕ) → AreKept room marks.now kept.old lists.old → AreKept room marks.now kept.new lists.new }
{
    take_gone(kept, lists, marks, new);
    put_new(kept, lists, marks, new);
}
