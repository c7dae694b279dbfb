//! The steps that applying an entry takes, and what they leave.
ghost use Rattle.std.specs.Prelude.{◌≡◌, ◌∷◌, [], length, map, All, IfOk, OnOk};
ghost use Rattle.px_terms.specs.Language.{IsVariableBelow};
ghost use Rattle.px_terms.specs.Operators.{results_of};
ghost use Rattle.px_terms.specs.Validity.{IsGroundInstanceOf, IsValid};
ghost use Rattle.px_table.specs.Kernels.{instance_under};
ghost use Rattle.px_entries.specs.Entries.{IsEntry, effect_of};
ghost use Rattle.px_support.specs.Asking.{IsAskable};

use px_ops::Model;
use px_support::{Asked, apply_to};
use px_table::{Entry, instance_with};
use px_terms::{NoMemory, OpInst, Problem};
use std::alloc::Global;

/// Returns the steps, with these objects for their parameters.
fn steps_with(alloc: Global, sigma: &[u32], steps: &[OpInst]) -> Result<Vec<OpInst>, NoMemory>
    requires { All (λ step. All (IsVariableBelow (length sigma.now)) step.args) steps.now }
    ensures { IfOk result (λ made. made.items ≡ map (instance_under sigma.now) steps.now) }
{
    let mut made = Vec::new(alloc);
    for step in steps {
        let inst = instance_with(sigma, step);
        made.push(inst)?;
    }
    Ok(made)
}

/// Returns the one step of an operator.
fn only_step(alloc: Global, inst: &OpInst) -> Result<Vec<OpInst>, NoMemory>
    ensures { IfOk result (λ made. made.items ≡ inst.now ∷ []) }
{
    let mut made = Vec::new(alloc);
    made.extend_from_slice(&[*inst])?;
    Ok(made)
}

/// Returns the steps that applying the entry takes.
pub fn effect(asked: &Asked, entry: &Entry) -> Result<Vec<OpInst>, NoMemory>
    requires asked { IsAskable asked.now }
    requires entry { IsEntry asked.now.problem.now asked.now.tables.now entry.now }
    ensures { IfOk result (λ steps. steps.items ≡ effect_of asked.now.tables.now entry.now) }
{
    match entry {
        Entry::Op(inst) => only_step(asked.alloc, inst),
        Entry::Macro {
            number,
            prefix,
            sigma,
        } => {
            let steps = asked.tables[*number as usize].steps.as_slice();
            let first = &steps[..*prefix as usize];
            steps_with(asked.alloc, sigma.as_slice(), first)
        }
    }
}

/// Changes the model to the one that the steps leave.
fn apply_steps(problem: &Problem, model: &mut Model, steps: &[OpInst]) -> Result<(), NoMemory>
    requires problem { IsValid problem.now }
    requires steps { All (IsGroundInstanceOf problem.now) steps.now }
    ensures { OnOk result (model.new.atoms ≡ results_of problem.now model.old.atoms steps.now) }
{
    for step in steps {
        apply_to(problem, model, step)?;
    }
    Ok(())
}

/// Changes the model to the one that applying the entry leaves.
pub fn apply_entry(asked: &Asked, model: &mut Model, entry: &Entry) -> Result<(), NoMemory>
    requires asked { IsAskable asked.now }
    requires entry { IsEntry asked.now.problem.now asked.now.tables.now entry.now }
    ensures { OnOk result (model.new.atoms ≡ results_of asked.now.problem.now model.old.atoms
        (effect_of asked.now.tables.now entry.now)) }
{
    let steps = effect(asked, entry)?;
    apply_steps(asked.problem, model, steps.as_slice())
}
