//! Whether each leaf of the rows of a table names where its atom comes from.
ghost use Rattle.std.specs.Prelude.{◌≡◌, ◌↔◌, Some, All, IsTrue, length, map, slice_get, ◌≤◌};
ghost use Rattle.px_base.specs.Bounds.{u32_max};
ghost use Rattle.px_terms.specs.Operators.{adds as adds_of};
ghost use Rattle.px_terms.specs.Validity.{IsAtomOf, IsValid};
ghost use Rattle.px_proof.specs.Derivation.{all_leaves_of, derivations, leaves_of};
ghost use Rattle.px_proof.specs.ProofTerm.{derivation_of};
ghost use Rattle.px_table.specs.Marks.{IsNamed, mark_of, marks_from};
ghost use Rattle.px_table.specs.Tables.{IsStepOf, rows_of};

use crate::kept::leaf_mark;
use crate::mark::Mark;
use crate::table::Row;
use px_ops::{adds, schema_of};
use px_proof::{Leaf, Proof};
use px_terms::{OpInst, Problem, is_atom_of};

/// Returns whether the step adds the atom of the mark at the mark's index.
pub fn adds_mark(problem: &Problem, params: u32, inst: &OpInst, mark: &Mark) -> bool
    requires problem { IsValid problem.now }
    requires inst { IsStepOf problem.now params inst.now }
    ensures { IsTrue result ↔ (slice_get (adds_of problem.now inst.now) mark.now.index ≡ Some mark.now.atom) }
{
    let schema = schema_of(problem, inst);
    let index = mark.index as usize;
    index < schema.add.len() && adds(schema, inst, index) == mark.atom
}

/// Returns whether the mark names the initial model, or one of the adds of a step before its row.
fn is_named(problem: &Problem, params: u32, steps: &[OpInst], mark: &Mark) -> bool
    requires problem { IsValid problem.now }
    requires steps { All (IsStepOf problem.now params) steps.now }
    ensures { IsTrue result ↔ IsNamed problem.now steps.now mark.now }
{
    let column = mark.column as usize;
    if mark.column >= mark.row || column > steps.len() {
        return false;
    }
    if column == 0 {
        return mark.index == 0;
    }
    adds_mark(problem, params, &steps[column - 1], mark)
}

/// Returns whether the leaf, in the row of that number, has an atom of the problem and names where it comes from.
fn leaf_is_named(problem: &Problem, params: u32, steps: &[OpInst], row: u32, leaf: &Leaf) -> bool
    requires problem { IsValid problem.now }
    requires steps { All (IsStepOf problem.now params) steps.now }
    ensures { IsTrue result ↔ (IsAtomOf problem.now params leaf.now.atom × IsNamed problem.now steps.now (mark_of row leaf.now)) }
{
    if !is_atom_of(problem, u64::from(params), &leaf.atom) {
        return false;
    }
    is_named(problem, params, steps, &leaf_mark(row, leaf))
}

/// Returns whether each leaf of the proof, in the row of that number, has an atom of the problem and names where it comes from.
#[cycle(leaves)]
fn proof_is_named(problem: &Problem, params: u32, steps: &[OpInst], row: u32, proof: &Proof) -> bool
    requires problem { IsValid problem.now }
    requires steps { All (IsStepOf problem.now params) steps.now }
    ensures { IsTrue result ↔ All (λ leaf. IsAtomOf problem.now params leaf.atom × IsNamed problem.now steps.now (mark_of row leaf))
        (leaves_of (derivation_of proof.now)) }
{
    match proof {
        Proof::Fact(leaf) => leaf_is_named(problem, params, steps, row, leaf),
        Proof::Anc(_) | Proof::Gap(_) => true,
        Proof::Step { subs, .. } => proofs_are_named(problem, params, steps, row, subs.as_slice()),
    }
}

/// Returns whether each leaf of the proofs, in the row of that number, has an atom of the problem and names where it comes from.
#[cycle(leaves)]
fn proofs_are_named(
    problem: &Problem,
    params: u32,
    steps: &[OpInst],
    row: u32,
    proofs: &[Proof],
) -> bool
    requires problem { IsValid problem.now }
    requires steps { All (IsStepOf problem.now params) steps.now }
    ensures { IsTrue result ↔ All (λ leaf. IsAtomOf problem.now params leaf.atom × IsNamed problem.now steps.now (mark_of row leaf))
        (all_leaves_of (derivations (map derivation_of proofs.now))) }
{
    for proof in proofs {
        if !proof_is_named(problem, params, steps, row, proof) {
            return false;
        }
    }
    true
}

/// Returns whether each leaf of the rows, the first of which has number 1, has an atom of the problem and names where it comes from.
pub fn leaves_are_named(problem: &Problem, params: u32, steps: &[OpInst], rows: &[Row]) -> bool
    requires problem { IsValid problem.now }
    requires steps { All (IsStepOf problem.now params) steps.now }
    requires short { length rows.now ≤ u32_max }
    ensures { IsTrue result ↔ All (λ mark. IsAtomOf problem.now params mark.atom × IsNamed problem.now steps.now mark)
        (marks_from 1 (rows_of rows.now)) }
{
    for (k, row) in rows.iter().enumerate() {
        if !proofs_are_named(problem, params, steps, k as u32 + 1, row.proofs()) {
            return false;
        }
    }
    true
}
