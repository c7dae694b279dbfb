//! Applying operator instances to models.
ghost use Rattle.std.specs.Prelude.{◌≡◌, ◌+◌, ◌≤◌, ◌++◌, length, All, IfOk};
ghost use Rattle.px_terms.specs.Language.{IsObject};
ghost use Rattle.px_terms.specs.Operators.{atoms_of, IsResult, adds as adds_of, result_of};
ghost use Rattle.px_terms.specs.AtomSets.{atom_set};
ghost use Rattle.px_terms.specs.Validity.{IsSchemaWellFormed, IsValid, IsGroundInstanceOf};
ghost use Rattle.px_ops.specs.Models.{IsInstanceOfSchema, IsModel};

use crate::model::Model;
use crate::operators::adds;
use crate::problems::schema_of;
use px_terms::{NoMemory, OpInst, Problem, Schema};
use std::alloc::Global;

/// Returns the model that the instance leaves: first all that it deletes goes, then what it adds comes (Fikes and Nilsson 1971).
///
/// # Errors
/// `NoMemory` where there is no memory for the new model.
pub fn apply_op(
    alloc: Global,
    problem: &Problem,
    model: &Model,
    inst: &OpInst,
) -> Result<Model, NoMemory>
    requires problem { IsValid problem.now }
    requires inst { IsGroundInstanceOf problem.now inst.now }
    ensures atoms { IfOk result (λ next. next.atoms ≡ result_of problem.now model.now.atoms inst.now) }
    ensures result { IfOk result (λ next. IsResult problem.now inst.now model.now.atoms next.atoms) }
    ensures model { IfOk result (λ next. IsModel next.atoms) }
    ensures length { IfOk result (λ next. length next.atoms ≤ length model.now.atoms + length (adds_of problem.now inst.now)) }
{
    let mut next = model.copy_in(alloc)?;
    next.reserve(schema_of(problem, inst).add.len())?;
    apply_in(problem, &mut next, inst);
    Ok(next)
}

/// Changes the model to the one that the instance leaves, where there is room for what it adds. Does not allocate.
pub fn apply_in(problem: &Problem, model: &mut Model, inst: &OpInst)
    requires problem { IsValid problem.now }
    requires inst { IsGroundInstanceOf problem.now inst.now }
    requires room { length (adds_of problem.now inst.now) ≤ model.old.spare }
    ensures atoms { model.new.atoms ≡ result_of problem.now model.old.atoms inst.now }
    ensures result { IsResult problem.now inst.now model.old.atoms model.new.atoms }
    ensures model { IsModel model.new.atoms }
    ensures spare { model.old.spare ≤ model.new.spare + length (adds_of problem.now inst.now) }
{
    replace(problem, model, inst);
    // `atoms` says that these are a model, which the contract hands on
    let _known = model.atoms();
}

/// Changes the model to the one that the instance leaves, by the lists of atoms.
fn replace(problem: &Problem, model: &mut Model, inst: &OpInst)
    requires problem { IsValid problem.now }
    requires inst { IsGroundInstanceOf problem.now inst.now }
    requires room { length (adds_of problem.now inst.now) ≤ model.old.spare }
    ensures atoms { model.new.atoms ≡ result_of problem.now model.old.atoms inst.now }
    ensures spare { model.old.spare ≤ model.new.spare + length (adds_of problem.now inst.now) }
{
    let schema = schema_of(problem, inst);
    model.remove_deleted(schema, inst);
    add_all(schema, model, inst);
}

/// Adds what the instance adds.
fn add_all(schema: &Schema, model: &mut Model, inst: &OpInst)
    requires schema { IsSchemaWellFormed schema.now }
    requires inst { IsInstanceOfSchema schema.now inst.now }
    requires objects { All IsObject inst.now.args }
    requires room { length schema.now.add ≤ model.old.spare }
    ensures atoms { model.new.atoms ≡ atom_set (model.old.atoms ++ atoms_of schema.now.add inst.now) }
    ensures spare { model.old.spare ≤ model.new.spare + length schema.now.add }
{
    // `atoms` says that these are a model, on which the proof of the loop rests
    let _known = model.atoms();
    let count = schema.add.len();
    for k in 0..count {
        model.insert_spare(adds(schema, inst, k));
    }
}
