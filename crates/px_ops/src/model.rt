//! World models.
ghost use Rattle.std.specs.Cmp.{partial_equiv_from_equiv};
ghost use Rattle.std.specs.Prelude.{◌≡◌, ◌+◌, ◌≤◌, ◌↔◌, [], length, not, filter, All, Contains, vec_capacity, IsTrue, MatchBool, IfOk, OnOk, OnErr, IsOk};
ghost use Rattle.px_terms.specs.Instances.{IsGround};
ghost use Rattle.px_terms.specs.Language.{IsObject};
ghost use Rattle.px_terms.specs.Operators.{is_deleted};
ghost use Rattle.px_terms.specs.AtomSets.{with_atom};
ghost use Rattle.px_terms.specs.Validity.{IsSchemaWellFormed};
ghost use Rattle.px_ops.specs.Models.{without_atom, IsModel, IsPlace, IsInstanceOfSchema, model_eq, model_hash_input};
ghost use Rattle.px_ops.specs.ModelLaws.{model_eq-equivalence, model_hash-alike};

use crate::operators::deletes;
use px_terms::{Atom, NoMemory, OpInst, Schema};
use std::alloc::Global;
use std::hash::{Hash, Hasher};

/// The greatest number of atoms that a model may have.
const MOST_ATOMS: usize = u32::MAX as usize;

/// A world model: a set of ground atoms, kept as an ascending list (Fikes and Nilsson 1971).
#[derive(Drop)]
pub struct Model {
    atoms: Vec<Atom>,
}

impl std::marker::Model for Model {
    ghost use Rattle.std.specs.Prelude.{◌-◌, length, min, vec_capacity};
    ghost use Rattle.px_base.specs.Bounds.{u32_max};
    ghost use Rattle.px_ops.specs.ModelValue.{ModelValue};

    ghost Value = { ModelValue };

    ghost use Rattle.px_ops.specs.Models.{IsModel};

    ghost view = { λ m. record { atoms = m.atoms.items; spare = min (vec_capacity m.atoms) u32_max - length m.atoms.items } };

    ghost invariant = { λ m. IsModel m.atoms.items };
}

impl Model {
    /// Returns the model without atoms. Does not allocate.
    pub fn new(alloc: Global) -> Model
        ensures { result.atoms ≡ [] }
    {
        Model {
            atoms: Vec::new(alloc),
        }
    }

    /// Takes all atoms away. Their places stay as room. Does not allocate.
    pub fn clear(&mut self)
        ensures atoms { self.new.atoms ≡ [] }
        ensures model { IsModel self.new.atoms }
        ensures spare { self.old.spare + length self.old.atoms ≤ self.new.spare }
    {
        self.atoms.clear();
    }

    /// Returns the atoms, ascending, each once. Does not allocate.
    pub fn atoms(&self) -> &[Atom]
        ensures value { result.now ≡ self.now.atoms }
        ensures model { IsModel self.now.atoms }
    {
        &self.atoms
    }

    /// Returns the place where the atom stands, or where it would.
    fn place(&self, atom: &Atom) -> Result<usize, usize>
        ensures place { IsPlace self.now.atoms atom.now result }
        ensures model { IsModel self.now.atoms }
    {
        self.atoms.binary_search(atom)
    }

    /// Returns the same place. If the atom comes after all others, one comparison is enough, as when a model is filled in order.
    fn place_from_end(&self, atom: &Atom) -> Result<usize, usize>
        ensures place { IsPlace self.now.atoms atom.now result }
        ensures model { IsModel self.now.atoms }
    {
        let atoms = self.atoms();
        let count = atoms.len();
        if count > 0 && atoms[count - 1].cmp(atom).is_lt() {
            return Err(count);
        }
        self.place(atom)
    }

    /// Returns whether the atom is in the model. Does not allocate.
    pub fn holds(&self, atom: &Atom) -> bool
        ensures { IsTrue result ↔ Contains self.now.atoms atom.now }
    {
        self.place(atom).is_ok()
    }

    /// Adds a ground atom. `Ok(true)` exactly where it wasn't there.
    ///
    /// # Errors
    /// `NoMemory` where there is no place for the atom and no memory for one. The model is then as it was.
    pub fn insert(&mut self, atom: Atom) -> Result<bool, NoMemory>
        requires { IsGround atom }
        ensures ok { OnOk result (self.new.atoms ≡ with_atom atom self.old.atoms) }
        ensures model { IsModel self.new.atoms }
        ensures is_new { IfOk result (λ is_new. MatchBool is_new (¬ Contains self.old.atoms atom) (Contains self.old.atoms atom)) }
        ensures spare { self.old.spare ≤ self.new.spare + 1 }
        ensures room { 1 ≤ self.old.spare → IsOk result }
        ensures there { Contains self.old.atoms atom → IsOk result }
        ensures err { OnErr result (self.new ≡ self.old) }
    {
        match self.place_from_end(&atom) {
            Ok(_) => Ok(false),
            Err(place) => {
                self.reserve(1)?;
                self.put(place, atom);
                Ok(true)
            }
        }
    }

    /// Puts a new atom at its place, where there is room for it.
    fn put(&mut self, place: usize, atom: Atom)
        requires is_ground { IsGround atom }
        requires place { IsPlace self.old.atoms atom (Err place) }
        requires room { 1 ≤ self.old.spare }
        ensures atoms { self.new.atoms ≡ with_atom atom self.old.atoms }
        ensures model { IsModel self.new.atoms }
        ensures spare { self.old.spare ≤ self.new.spare + 1 }
    {
        match self.atoms.insert(place, atom) {
            Ok(()) => {}
            Err(_) => unreachable!(),
        }
    }

    /// Makes room for `more` further atoms.
    ///
    /// # Errors
    /// `NoMemory` where there is no memory for them, or where the model would have more than 4,294,967,295 places. The model
    /// is then as it was.
    pub fn reserve(&mut self, more: usize) -> Result<(), NoMemory>
        ensures ok { OnOk result (more ≤ self.new.spare) }
        ensures room { more ≤ self.old.spare → IsOk result }
        ensures atoms { self.new.atoms ≡ self.old.atoms }
        ensures model { IsModel self.new.atoms }
        ensures spare { self.old.spare ≤ self.new.spare }
        ensures err { OnErr result (self.new ≡ self.old) }
    {
        if more > MOST_ATOMS - self.atoms.len() {
            return Err(NoMemory);
        }
        self.atoms.reserve(more)?;
        Ok(())
    }

    /// Adds a ground atom where there is room for one. Returns true exactly where it wasn't there; it takes at most one place of the room.
    /// Does not allocate.
    pub fn insert_spare(&mut self, atom: Atom) -> bool
        requires is_ground { IsGround atom }
        requires room { 1 ≤ self.old.spare }
        ensures atoms { self.new.atoms ≡ with_atom atom self.old.atoms }
        ensures model { IsModel self.new.atoms }
        ensures is_new { MatchBool result (¬ Contains self.old.atoms atom) (Contains self.old.atoms atom) }
        ensures spare { self.old.spare ≤ self.new.spare + 1 }
    {
        match self.place_from_end(&atom) {
            Ok(_) => false,
            Err(place) => {
                self.put(place, atom);
                true
            }
        }
    }

    /// Takes the atom away. Returns true exactly where it was there; its place is then room. Does not allocate.
    pub fn remove(&mut self, atom: &Atom) -> bool
        ensures atoms { self.new.atoms ≡ without_atom atom.now self.old.atoms }
        ensures model { IsModel self.new.atoms }
        ensures was_there { MatchBool result (Contains self.old.atoms atom.now) (¬ Contains self.old.atoms atom.now) }
        ensures spare_kept { self.old.spare ≤ self.new.spare }
        ensures spare_won { IsTrue result → self.old.spare + 1 ≤ self.new.spare }
    {
        match self.place(atom) {
            Ok(place) => {
                self.atoms.remove(place);
                true
            }
            Err(_) => false,
        }
    }

    /// Returns a model of the same atoms, in memory of the same allocator.
    ///
    /// # Errors
    /// `NoMemory` where there is no memory for the copy.
    pub fn try_copy(&self) -> Result<Model, NoMemory>
        ensures { IfOk result (λ copy. copy.atoms ≡ self.now.atoms) }
    {
        self.copy_in(*self.atoms.allocator())
    }

    /// Returns a model of the same atoms in memory of another allocator.
    pub(crate) fn copy_in(&self, alloc: Global) -> Result<Model, NoMemory>
        ensures { IfOk result (λ copy. copy.atoms ≡ self.now.atoms) }
    {
        let mut atoms = Vec::new(alloc);
        atoms.extend_from_slice(&self.atoms)?;
        Ok(Model { atoms })
    }

    /// Removes the atoms that the instance deletes.
    pub(crate) fn remove_deleted(&mut self, schema: &Schema, inst: &OpInst)
        requires schema { IsSchemaWellFormed schema.now }
        requires inst { IsInstanceOfSchema schema.now inst.now }
        requires objects { All IsObject inst.now.args }
        ensures atoms { self.new.atoms ≡ filter (λ atom. not (is_deleted schema.now inst.now atom)) self.old.atoms }
        ensures spare { self.old.spare ≤ self.new.spare }
    {
        keep_undeleted(&mut self.atoms, schema, inst);
    }
}

impl PartialEq for Model {
    ghost eq = { model_eq };

    ghost laws = { partial_equiv_from_equiv model_eq-equivalence };

    fn eq(&self, other: &Model) -> bool {
        self.atoms() == other.atoms()
    }
}

impl Eq for Model {
    ghost laws = { model_eq-equivalence };
}

impl Hash for Model {
    ghost hash_input = { model_hash_input };

    ghost respects_eq = { model_hash-alike.fed };

    fn hash<H: Hasher>(&self, state: &mut H) {
        self.atoms().hash(state);
    }
}

/// Removes the atoms that the instance deletes from a list.
fn keep_undeleted(atoms: &mut Vec<Atom>, schema: &Schema, inst: &OpInst)
    requires schema { IsSchemaWellFormed schema.now }
    requires inst { IsInstanceOfSchema schema.now inst.now }
    requires objects { All IsObject inst.now.args }
    requires is_ground { All IsGround atoms.old.items }
    ensures items { atoms.new.items ≡ filter (λ atom. not (is_deleted schema.now inst.now atom)) atoms.old.items }
    ensures fewer { length atoms.new.items ≤ length atoms.old.items }
    ensures capacity { vec_capacity atoms.new ≡ vec_capacity atoms.old }
{
    let count = atoms.len();
    let mut kept = 0;
    for i in 0..count {
        let atom = atoms[i];
        let stays = !deletes(schema, inst, &atom);
        if stays {
            atoms[kept] = atom;
            kept += 1;
        }
    }
    atoms.truncate(kept);
}
