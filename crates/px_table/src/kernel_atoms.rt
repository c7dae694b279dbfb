//! Kernels: what the steps from a given one on rest on.
ghost use Rattle.std.specs.Prelude.{◌≡◌, ◌&&◌, IfOk, cond, nat_le, nat_lt};
ghost use Rattle.px_terms.specs.Order.{atom_eq};
ghost use Rattle.px_table.specs.Kernels.{kernel_of};
ghost use Rattle.px_table.specs.Once.{put_once};

use crate::kept::put_atom;
use crate::mark::Mark;
use crate::table::Table;
use px_base::NoMemory;
use px_terms::Atom;
use std::alloc::Global;

/// Returns kernel `i` (Fikes, Hart and Nilsson 1972): the atoms of the marks of row `i` and later with column before `i`, in order,
/// each once. In a table, where a proper instance of them holds, the steps from `i` on lead to the goal
/// (`proper`). Kernel 1 is what the whole plan rests on, and the one after the last step is the goal's
/// row. Numbers past the goal's row give no atom.
///
/// # Errors
/// `NoMemory` where there is no memory for the list.
pub fn kernel(alloc: Global, table: &Table, i: u32) -> Result<Vec<Atom>, NoMemory>
    ensures { IfOk result (λ atoms. atoms.items ≡ kernel_of table.now i) }
{
    let mut atoms = Vec::new(alloc);
    for mark in table.marks.as_slice() {
        put_atom_of(&mut atoms, mark, i)?;
    }
    Ok(atoms)
}

/// Appends the mark's atom, if kernel `i` rests on the mark and the atom isn't there.
fn put_atom_of(atoms: &mut Vec<Atom>, mark: &Mark, i: u32) -> Result<(), NoMemory>
    ensures { IfOk result (λ _. atoms.new.items ≡ cond (nat_le i mark.now.row && nat_lt mark.now.column i)
        (put_once atom_eq atoms.old.items mark.now.atom) atoms.old.items) }
{
    if i <= mark.row && mark.column < i {
        return put_atom(atoms, mark.atom);
    }
    Ok(())
}
