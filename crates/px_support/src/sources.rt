//! Where the facts of a proof come from: the last step that adds them, or the initial model.
ghost use Rattle.std.specs.Prelude.{◌≡◌, ◌≤◌, None, length, map, All, Contains, IfOk, IfSome};
ghost use Rattle.px_base.specs.Bounds.{u32_max};
ghost use Rattle.px_terms.specs.Operators.{adds as adds_of};
ghost use Rattle.px_terms.specs.Validity.{IsGroundInstanceOf, IsValid};
ghost use Rattle.px_proof.specs.ProofTerm.{derivation_of};
ghost use Rattle.px_ends.specs.Made.{IsSource, IsSourced};
ghost use Rattle.px_support.specs.Sources.{AreSources, HasFirstLeaves, IsFirstPlace};

use px_base::{NoMemory, push};
use px_ops::{adds, schema_of};
use px_proof::{Leaf, Proof, graft, leaves};
use px_terms::{Atom, OpInst, Problem};
use std::alloc::Global;

/// Returns the first place of the atom in what the instance adds.
fn first_place(problem: &Problem, inst: &OpInst, atom: &Atom) -> Option<u32>
    requires problem { IsValid problem.now }
    requires inst { IsGroundInstanceOf problem.now inst.now }
    ensures place { IfSome result (IsFirstPlace (adds_of problem.now inst.now) atom.now) }
    ensures none { result ≡ None → ¬ Contains (adds_of problem.now inst.now) atom.now }
{
    let schema = schema_of(problem, inst);
    for k in 0..schema.add.len() {
        let added = adds(schema, inst, k);
        if added == *atom {
            return Some(k as u32);
        }
    }
    None
}

/// Returns where the atom comes from after the steps: a leaf that names the last of them that adds it, by its first place there, or the
/// initial model if none does.
fn source_of(problem: &Problem, steps: &[OpInst], atom: &Atom) -> Leaf
    requires problem { IsValid problem.now }
    requires steps { All (IsGroundInstanceOf problem.now) steps.now }
    requires short { length steps.now ≤ u32_max }
    ensures source { IsSource problem.now steps.now result }
    ensures atom { result.atom ≡ atom.now }
{
    let count = steps.len();
    for passed in 0..count {
        let column = count - passed;
        let step = &steps[column - 1];
        if let Some(index) = first_place(problem, step, atom) {
            return Leaf {
                column: column as u32,
                index,
                atom: *atom,
            };
        }
    }
    Leaf {
        column: 0,
        index: 0,
        atom: *atom,
    }
}

/// Returns a proof for each leaf that is a leaf of the same atom, and names where it comes from.
fn source_each(
    alloc: Global,
    problem: &Problem,
    steps: &[OpInst],
    leaves: &[Leaf],
) -> Result<Vec<Proof>, NoMemory>
    requires problem { IsValid problem.now }
    requires steps { All (IsGroundInstanceOf problem.now) steps.now }
    requires short { length steps.now ≤ u32_max }
    ensures { IfOk result (λ parts. AreSources problem.now steps.now leaves.now (map derivation_of parts.items)) }
{
    let mut parts = Vec::new(alloc);
    for leaf in leaves {
        let source = source_of(problem, steps, &leaf.atom);
        push(&mut parts, Proof::Fact(source))?;
    }
    Ok(parts)
}

/// Returns the proof, where each leaf names where its atom comes from after the steps.
pub fn sourced(
    alloc: Global,
    problem: &Problem,
    steps: &[OpInst],
    proof: &Proof,
) -> Result<Proof, NoMemory>
    requires problem { IsValid problem.now }
    requires steps { All (IsGroundInstanceOf problem.now) steps.now }
    requires short { length steps.now ≤ u32_max }
    requires leaves { HasFirstLeaves (derivation_of proof.now) }
    ensures { IfOk result (λ new. IsSourced problem.now steps.now (derivation_of proof.now) (derivation_of new)) }
{
    let old = leaves(alloc, proof)?;
    let parts = source_each(alloc, problem, steps, &old)?;
    graft(alloc, proof, &parts, 0)
}
