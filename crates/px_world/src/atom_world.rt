//! The world that is a set of atoms.
ghost use Rattle.std.specs.Prelude.{◌≡◌, ◌≤◌, ◌+◌, length, IfOk, IsOk, OnOk, OnErr};
ghost use Rattle.px_terms.specs.Operators.{adds, result_of};
ghost use Rattle.px_terms.specs.Validity.{IsInstanceOf, IsValid};
ghost use Rattle.px_world.specs.declared.edits.AtomEdit.{AtomEdit};
ghost use Rattle.px_world.specs.Worlds.{IsActionRefused, edited, IsGroundEdit};

use crate::edits::AtomEdit;
use crate::regrow::Regrow;
use crate::world::{Guard, World};
use px_ops::{Model, apply_in};
use px_terms::{Atom, NoMemory, OpInst, Problem};
use std::alloc::Global;

/// A world that is a set of atoms: what operators describe is all that happens in it. It takes each action, and admits each
/// edit of a ground atom.
#[derive(Drop)]
pub struct AtomWorld<'a> {
    problem: &'a Problem,
    atoms: Model,
}

impl<'a> std::marker::Model for AtomWorld<'a> {
    ghost use Rattle.px_terms.specs.Validity.{IsValid};
    ghost use Rattle.px_world.specs.AtomWorldValue.{AtomWorldValue};

    ghost Value = { AtomWorldValue };

    ghost view = { λ w. record { rules = w.problem.now; atoms = w.atoms.atoms; spare = w.atoms.spare } };

    ghost invariant = { λ w. IsValid w.problem.now };
}

impl<'a> AtomWorld<'a> {
    /// Returns the world of these facts, with room for at least `spare` further atoms.
    ///
    /// # Errors
    /// `NoMemory` where there is no memory for the facts and the room.
    pub fn new(
        _alloc: Global,
        problem: &'a Problem,
        facts: &Model,
        spare: usize,
    ) -> Result<AtomWorld<'a>, NoMemory>
        requires problem { IsValid problem.now }
        ensures atoms { IfOk result (λ world. world.atoms ≡ facts.now.atoms) }
        ensures rules { IfOk result (λ world. world.rules ≡ problem.now) }
        ensures spare { IfOk result (λ world. spare ≤ world.spare) }
    {
        let mut atoms = facts.try_copy()?;
        atoms.reserve(spare)?;
        Ok(AtomWorld { problem, atoms })
    }
}

impl<'a> World for AtomWorld<'a> {
    type Edit = AtomEdit;

    ghost atoms = { λ w. w.atoms };

    ghost rules = { λ w. w.rules };

    ghost admits = { λ w edit. IsGroundEdit edit };

    ghost leaves = { edited };

    ghost spare = { λ w. w.spare };

    fn holds(&self, atom: &Atom) -> bool {
        // This call tells that the atoms are a set of ground atoms.
        let _known = self.atoms.atoms();
        self.atoms.holds(atom)
    }

    fn sense(&self, into: &mut Model) {
        let atoms = self.atoms.atoms();
        for atom in atoms {
            let _ = into.insert_spare(*atom);
        }
    }

    /// Takes the action, and never refuses it.
    fn act(&mut self, inst: &OpInst) -> Result<(), Guard>
        requires instance { IsInstanceOf self.old.rules inst.now }
        requires room { length (adds self.old.rules inst.now) ≤ self.old.spare }
        ensures never { IsOk result }
        ensures acted { OnOk result (self.new.atoms ≡ result_of self.old.rules self.old.atoms inst.now) }
        ensures guard { OnErr result (IsActionRefused self.old.rules self.old.atoms inst.now) }
        ensures kept { OnErr result (self.new ≡ self.old) }
        ensures spare { self.old.spare ≤ self.new.spare + length (adds self.old.rules inst.now) }
        ensures rules { self.new.rules ≡ self.old.rules }
    {
        apply_in(self.problem, &mut self.atoms, inst);
        Ok(())
    }

    fn disturb(&mut self, edit: &AtomEdit) {
        match edit {
            AtomEdit::Add(atom) => {
                let _ = self.atoms.insert_spare(*atom);
            }
            AtomEdit::Remove(atom) => {
                let _ = self.atoms.remove(atom);
            }
        }
    }
}

impl<'a> Regrow for AtomWorld<'a> {
    fn regrow(&mut self, spare: usize) -> Result<(), NoMemory> {
        self.atoms.reserve(spare)
    }

    fn atom_count(&self) -> usize {
        self.atoms.atoms().len()
    }
}
