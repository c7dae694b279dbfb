//! Marks of leaves, and lists that keep each thing once.
ghost use Rattle.std.specs.Prelude.{◌≡◌, IfOk, map};
ghost use Rattle.std.specs.List.{list_any};
ghost use Rattle.px_terms.specs.Order.{atom_eq};
ghost use Rattle.px_table.specs.Marks.{mark_eq, mark_of};
ghost use Rattle.px_table.specs.Once.{put_once, put_each};

use crate::mark::Mark;
use indexmap::IndexSet;
use px_base::{NoMemory, push};
use px_proof::Leaf;
use px_terms::Atom;

/// Returns the mark that a leaf makes in the row of that number.
pub fn leaf_mark(row: u32, leaf: &Leaf) -> Mark
    ensures { result ≡ mark_of row leaf.now }
{
    Mark {
        atom: leaf.atom,
        row,
        column: leaf.column,
        index: leaf.index,
    }
}

/// Returns whether the mark is among the marks.
pub fn has_mark(marks: &[Mark], mark: &Mark) -> bool
    ensures { result ≡ list_any (λ other. mark_eq other mark.now) marks.now }
{
    marks.contains(mark)
}

/// Appends the atom, unless it is there.
pub fn put_atom(atoms: &mut Vec<Atom>, atom: Atom) -> Result<(), NoMemory>
    ensures { IfOk result (λ _. atoms.new.items ≡ put_once atom_eq atoms.old.items atom) }
{
    if atoms.contains(&atom) {
        return Ok(());
    }
    push(atoms, atom)
}

/// Puts the mark last, unless it is there.
fn put_mark(marks: &mut IndexSet<Mark>, mark: Mark) -> Result<(), NoMemory>
    ensures { IfOk result (λ _. marks.new.keys ≡ put_once mark_eq marks.old.keys mark) }
{
    marks.insert(mark)?;
    Ok(())
}

/// Puts the marks of the leaves last, but for those that are there.
pub fn put_leaves(marks: &mut IndexSet<Mark>, row: u32, leaves: &[Leaf]) -> Result<(), NoMemory>
    ensures { IfOk result (λ _. marks.new.keys ≡ put_each mark_eq marks.old.keys (map (mark_of row) leaves.now)) }
{
    for leaf in leaves {
        put_mark(marks, leaf_mark(row, leaf))?;
    }
    Ok(())
}
