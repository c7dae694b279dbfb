//! Worlds by what is true in them.
ghost use Rattle.std.specs.Prelude.{◌≡◌, ◌↔◌, ◌≤◌, ◌+◌, ℕ, List, [], length, All, Contains, IsTrue, OnOk, OnErr};
ghost use Rattle.px_terms.specs.declared.atom.Atom.{Atom};
ghost use Rattle.px_terms.specs.declared.problem.Problem.{Problem};
ghost use Rattle.px_terms.specs.AtomSets.{IsAtomSet};
ghost use Rattle.px_terms.specs.Instances.{IsGround};
ghost use Rattle.px_terms.specs.Operators.{adds, result_of};
ghost use Rattle.px_terms.specs.Validity.{IsInstanceOf};
ghost use Rattle.px_world.specs.Worlds.{IsActionRefused};

use px_ops::Model;
use px_terms::{Atom, OpInst};
use thiserror::Error;

/// The world refuses an action.
#[derive(Clone, Copy, PartialEq, Eq, Debug, Error)]
#[error("the precondition doesn't hold")]
pub struct Guard;

/// A world that an executor senses and acts in (after PLANEX: Fikes, Hart and Nilsson 1972). No call takes memory, and none
/// changes the objects, the axioms, the operators or the edits that are admitted.
pub trait World {
    /// A change from outside.
    type Edit: Copy;

    /// The true atoms, ascending.
    ghost atoms: { Self → List Atom };

    /// A problem with the world's objects, axioms and operators.
    ghost rules: { Self → Problem };

    /// The edits that the world takes.
    ghost admits: { Self → Self.Edit → Type 0 };

    /// The atoms that an edit leaves. It is the same wherever the atoms are the same.
    ghost leaves: { Self.Edit → List Atom → List Atom };

    /// The number of places that are there for further atoms.
    ghost spare: { Self → ℕ };

    /// Returns whether the atom is true.
    fn holds(&self, atom: &Atom) -> bool
        ensures holds { IsTrue result ↔ Contains (atoms self.now) atom.now }
        ensures set { IsAtomSet (atoms self.now) }
        ensures all_ground { All IsGround (atoms self.now) };

    /// Puts the true atoms into an empty model.
    fn sense(&self, into: &mut Model)
        requires empty { into.old.atoms ≡ [] }
        requires room { length (atoms self.now) ≤ into.old.spare }
        ensures atoms { into.new.atoms ≡ atoms self.now }
        ensures spare { into.old.spare ≤ into.new.spare + length (atoms self.now) };

    /// Takes the action: what the instance deletes goes, then what it adds comes, whatever the sorts of its objects.
    ///
    /// # Errors
    /// `Guard` only where the precondition may be false: in some state in which the axioms and all atoms hold, one of its
    /// atoms doesn't. The world is then as it was.
    fn act(&mut self, inst: &OpInst) -> Result<(), Guard>
        requires instance { IsInstanceOf (rules self.old) inst.now }
        requires room { length (adds (rules self.old) inst.now) ≤ spare self.old }
        ensures acted { OnOk result (atoms self.new ≡ result_of (rules self.old) (atoms self.old) inst.now) }
        ensures guard { OnErr result (IsActionRefused (rules self.old) (atoms self.old) inst.now) }
        ensures kept { OnErr result (self.new ≡ self.old) }
        ensures spare { spare self.old ≤ spare self.new + length (adds (rules self.old) inst.now) }
        ensures rules { rules self.new ≡ rules self.old }
        ensures admitted { (edit : Self.Edit) → admits self.new edit ↔ admits self.old edit };

    /// Changes the world from outside. There is at most one atom more, and it takes at most one place of the room.
    fn disturb(&mut self, edit: &Self::Edit)
        requires admitted { admits self.old edit.now }
        requires room { 1 ≤ spare self.old }
        ensures atoms { atoms self.new ≡ leaves edit.now (atoms self.old) }
        ensures number { length (atoms self.new) ≤ length (atoms self.old) + 1 }
        ensures spare { spare self.old ≤ spare self.new + 1 }
        ensures rules { rules self.new ≡ rules self.old }
        ensures admitted { (edit : Self.Edit) → admits self.new edit ↔ admits self.old edit };
}
