//! What a problem says of an operator instance and of an atom.
ghost use Rattle.std.specs.Prelude.{◌≡◌, ◌<◌, ◌↔◌, length, Any, IfOk, IsTrue};
ghost use Rattle.px_terms.specs.Operators.{IsAddable, IsSchemaAt, precondition, schema_of as spec_schema_of};
ghost use Rattle.px_terms.specs.Validity.{IsSchemaWellFormed, IsValid};
ghost use Rattle.px_ops.specs.Models.{IsInstanceOfSchema};

use crate::operators::pre;
use px_base::push;
use px_terms::{Atom, NoMemory, OpInst, Problem, Schema};
use std::alloc::Global;

/// Returns the schema of the instance's operator. Does not allocate.
pub fn schema_of<'a>(problem: &'a Problem, inst: &OpInst) -> &'a Schema
    requires problem { IsValid problem.now }
    requires op { inst.now.op < length problem.now.schemas }
    ensures schema { result.now ≡ spec_schema_of problem.now inst.now }
    ensures number { result.now.op ≡ inst.now.op }
    ensures here { IsSchemaAt problem.now result.now }
    ensures well_formed { IsSchemaWellFormed result.now }
    ensures instance { length inst.now.args ≡ (spec_schema_of problem.now inst.now).params → IsInstanceOfSchema result.now inst.now }
{
    &problem.schemas.as_slice()[inst.op() as usize]
}

/// Returns the atoms that the instance needs.
///
/// # Errors
/// `NoMemory` where there is no memory for them.
pub fn precondition_of(
    alloc: Global,
    problem: &Problem,
    inst: &OpInst,
) -> Result<Vec<Atom>, NoMemory>
    requires problem { IsValid problem.now }
    requires op { inst.now.op < length problem.now.schemas }
    requires count { length inst.now.args ≡ (spec_schema_of problem.now inst.now).params }
    ensures { IfOk result (λ atoms. atoms.items ≡ precondition problem.now inst.now) }
{
    let schema = schema_of(problem, inst);
    let mut atoms = Vec::new(alloc);
    for k in 0..schema.pre.len() {
        push(&mut atoms, pre(schema, inst, k))?;
    }
    Ok(atoms)
}

/// Returns whether the schema has an add with the predicate.
fn adds_predicate(schema: &Schema, predicate: u32) -> bool
    ensures { IsTrue result ↔ Any (λ added. added.pred ≡ predicate) schema.now.add }
{
    schema
        .add
        .as_slice()
        .iter()
        .any(|added| added.pred() == predicate)
}

/// Returns whether some operator has the predicate in its add list. Does not allocate.
pub fn is_added(problem: &Problem, predicate: u32) -> bool
    ensures { IsTrue result ↔ Any (λ schema. Any (λ added. added.pred ≡ predicate) schema.add) problem.now.schemas }
{
    problem
        .schemas
        .as_slice()
        .iter()
        .any(|schema| adds_predicate(schema, predicate))
}

/// Returns whether some operator has the atom's predicate in its add list. Does not allocate.
pub fn is_addable(problem: &Problem, atom: &Atom) -> bool
    ensures { IsTrue result ↔ IsAddable problem.now atom.now }
{
    is_added(problem, atom.pred())
}
