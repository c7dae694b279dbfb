//! Rows of first proofs whose facts name where they come from.
ghost use Rattle.std.specs.Prelude.{◌≤◌, ◌<◌, length, map, All, IfOk};
ghost use Rattle.std.specs.List.{AllZip};
ghost use Rattle.px_terms.specs.Limits.{most_formula_variables};
ghost use Rattle.px_base.specs.Bounds.{u32_max};
ghost use Rattle.px_terms.specs.Validity.{IsAtomOf, IsGroundInstanceOf, IsValid};
ghost use Rattle.px_proof.specs.ProofTerm.{derivation_of};
ghost use Rattle.px_ends.specs.Made.{IsFirstRow, IsSourced};
ghost use Rattle.px_support.specs.Asking.{IsFindable};
ghost use Rattle.px_support.specs.Sources.{HasFirstLeaves};

use crate::sources::sourced;
use px_base::{NoMemory, push};
use px_ops::Model;
use px_proof::Proof;
use px_prover::{ProveErr, prove};
use px_table::Row;
use px_terms::{Atom, OpInst, Problem};
use std::alloc::Global;

/// Returns the proofs, where each leaf names where its atom comes from after the steps.
fn sourced_row(
    alloc: Global,
    problem: &Problem,
    steps: &[OpInst],
    proofs: &[Proof],
) -> Result<Row, NoMemory>
    requires problem { IsValid problem.now }
    requires steps { All (IsGroundInstanceOf problem.now) steps.now }
    requires short { length steps.now ≤ u32_max }
    requires leaves { All HasFirstLeaves (map derivation_of proofs.now) }
    ensures { IfOk result (λ row. AllZip (IsSourced problem.now steps.now) (map derivation_of proofs.now) (map derivation_of row)) }
{
    let mut made = Vec::new(alloc);
    for proof in proofs {
        let new = sourced(alloc, problem, steps, proof)?;
        push(&mut made, new)?;
    }
    Ok(Row::from_proofs(made))
}

/// Returns the first proofs of the formula from the model that the steps led to, where each leaf names where its atom comes from.
pub fn first_row(
    alloc: Global,
    problem: &Problem,
    steps: &[OpInst],
    model: &Model,
    formula: &[Atom],
    variable_count: u32,
) -> Result<Row, NoMemory>
    requires problem { IsValid problem.now }
    requires steps { All (IsGroundInstanceOf problem.now) steps.now }
    requires short { length steps.now ≤ u32_max }
    requires formula { All (IsAtomOf problem.now variable_count) formula.now }
    requires few_variables { variable_count ≤ most_formula_variables }
    requires some_object { 0 < variable_count → 0 < problem.now.objects }
    requires findable { IsFindable problem.now (record { formula = formula.now; variable_count = variable_count; facts = model.now.atoms }) }
    ensures { IfOk result (λ row. IsFirstRow problem.now steps.now model.now.atoms formula.now variable_count (map derivation_of row)) }
{
    match prove(alloc, problem, formula, variable_count, model) {
        Ok(answer) => sourced_row(alloc, problem, steps, answer.proofs.as_slice()),
        Err(ProveErr::NoMemory) => Err(NoMemory),
        Err(ProveErr::Unprovable) => unreachable!(),
        Err(ProveErr::ShapeLimit(_)) => unreachable!(),
    }
}
