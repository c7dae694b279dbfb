//! What an operator instance needs, deletes and adds.
ghost use Rattle.std.specs.Prelude.{◌≡◌, ◌<◌, ◌↔◌, length, slice_get, All, IsTrue};
ghost use Rattle.px_terms.specs.Instances.{IsGround};
ghost use Rattle.px_terms.specs.Language.{IsObject};
ghost use Rattle.px_terms.specs.Operators.{IsDeleted, is_deleted, atoms_of};
ghost use Rattle.px_terms.specs.Substitution.{substitute_atom};
ghost use Rattle.px_terms.specs.Validity.{IsSchemaWellFormed};
ghost use Rattle.px_ops.specs.Models.{IsInstanceOfSchema};

use px_terms::{Atom, OpInst, Schema, apply, instance_of};

/// Returns whether the instance deletes the atom: whether putting objects in the place of the wild cards of one of its delete patterns
/// gives the atom (Fikes and Nilsson 1971). Does not allocate.
pub fn deletes(schema: &Schema, inst: &OpInst, atom: &Atom) -> bool
    requires schema { IsSchemaWellFormed schema.now }
    requires inst { IsInstanceOfSchema schema.now inst.now }
    requires objects { All IsObject inst.now.args }
    requires is_ground { IsGround atom.now }
    ensures test { result ≡ is_deleted schema.now inst.now atom.now }
    ensures meaning { IsTrue result ↔ IsDeleted schema.now inst.now atom.now }
{
    passes_a_pattern(schema, inst, atom)
}

/// Returns whether the atom is an instance of one of the delete patterns under the instance's arguments.
fn passes_a_pattern(schema: &Schema, inst: &OpInst, atom: &Atom) -> bool
    requires schema { IsSchemaWellFormed schema.now }
    requires inst { IsInstanceOfSchema schema.now inst.now }
    requires objects { All IsObject inst.now.args }
    requires is_ground { IsGround atom.now }
    ensures { result ≡ is_deleted schema.now inst.now atom.now }
{
    let patterns = schema.del.as_slice();
    for pattern in patterns {
        if instance_of(atom, &apply(inst.args(), pattern)) {
            return true;
        }
    }
    false
}

// Alike: `adds` below. The precondition and the add list are asked for by their own names.
/// Returns the atom at place `k` of the instance's precondition. Does not allocate.
pub fn pre(schema: &Schema, inst: &OpInst, k: usize) -> Atom
    requires schema { IsSchemaWellFormed schema.now }
    requires inst { IsInstanceOfSchema schema.now inst.now }
    requires place { k < length schema.now.pre }
    ensures { slice_get (atoms_of schema.now.pre inst.now) k ≡ Some result }
{
    apply(inst.args(), &schema.pre.as_slice()[k])
}

/// Returns the atom at place `k` of what the instance adds. Does not allocate.
pub fn adds(schema: &Schema, inst: &OpInst, k: usize) -> Atom
    requires schema { IsSchemaWellFormed schema.now }
    requires inst { IsInstanceOfSchema schema.now inst.now }
    requires place { k < length schema.now.add }
    ensures { slice_get (atoms_of schema.now.add inst.now) k ≡ Some result }
{
    apply(inst.args(), &schema.add.as_slice()[k])
}
