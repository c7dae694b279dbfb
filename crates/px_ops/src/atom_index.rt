//! Atoms by number.
ghost use Rattle.std.specs.Prelude.{◌≡◌, ◌<◌, [], Some, length, slice_get, Contains, IfOk, IsOk, OnErr};
ghost use Rattle.px_terms.specs.Instances.{IsGround};
ghost use Rattle.px_ops.specs.Keeping.{IsAtomIndex, Keeps};

use crate::keeping::keep;
use indexmap::IndexSet;
use px_terms::{Atom, NoMemory};
use std::alloc::Global;
use std::marker::Model;

/// Ground atoms, each kept once: an atom's number is that of its first use.
///
/// Contracts see it as the list of its atoms, by number.
#[derive(Drop)]
pub struct AtomIndex {
    atoms: IndexSet<Atom>,
}

impl Model for AtomIndex {
    ghost use Rattle.std.specs.Prelude.{List};
    ghost use Rattle.px_ops.specs.Keeping.{IsAtomIndex};
    ghost use Rattle.px_terms.specs.declared.atom.Atom.{Atom};

    ghost Value = { List Atom };

    ghost view = { λ s. s.atoms.keys };

    ghost invariant = { λ s. IsAtomIndex s.atoms.keys };
}

impl AtomIndex {
    /// Returns an index without atoms. Does not allocate.
    pub fn new(alloc: Global) -> AtomIndex
        ensures { result ≡ [] }
    {
        AtomIndex {
            atoms: IndexSet::new(alloc),
        }
    }

    /// Returns the number of the atom. A new atom is put last, and nothing else changes.
    ///
    /// # Errors
    /// `NoMemory` where the atom is new and there is no memory for it, or 4,294,967,295 atoms are there. The index is then as
    /// it was.
    pub fn intern(&mut self, atom: &Atom) -> Result<u32, NoMemory>
        requires { IsGround atom.now }
        ensures kept { IfOk result (Keeps self.old self.new atom.now) }
        ensures there { Contains self.old atom.now → IsOk result }
        ensures index { IsAtomIndex self.new }
        ensures err { OnErr result (self.new ≡ self.old) }
    {
        keep(&mut self.atoms, *atom)
    }

    /// Returns the atom of the number. Does not allocate.
    pub fn atom(&self, number: u32) -> Atom
        requires { number < length self.now }
        ensures atom { slice_get self.now number ≡ Some result }
        ensures is_ground { IsGround result }
        ensures index { IsAtomIndex self.now }
    {
        match self.atoms.get_index(number as usize) {
            Some(atom) => *atom,
            None => unreachable!(),
        }
    }

    /// Returns the number of atoms. Does not allocate.
    pub fn count(&self) -> u32
        ensures count { result ≡ length self.now }
        ensures index { IsAtomIndex self.now }
    {
        self.atoms.len() as u32
    }
}
