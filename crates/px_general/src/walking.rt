//! The terms of an opened plan in the order in which parameters are numbered.
ghost use Rattle.std.specs.Prelude.{◌≡◌, ◌≤◌, ◌+◌, ◌++◌, IfOk, flat_map, map};
ghost use Rattle.px_proof.specs.Derivation.{all_terms_of, derivations, terms_of};
ghost use Rattle.px_proof.specs.ProofTerm.{derivation_of};
ghost use Rattle.px_table.specs.Marks.{row_leaves};
ghost use Rattle.px_terms.specs.Substitution.{variables_from};
ghost use Rattle.px_table.specs.Tables.{rows_of};
ghost use Rattle.px_general.specs.Naming.{args_of_leaves, leaf_terms};
ghost use Rattle.px_general.specs.General.{row_terms, step_terms};

use px_base::NoMemory;
use px_proof::{Leaf, Proof, leaves};
use px_replay::variables;
use px_table::Row;
use px_terms::{OpInst, Term};
use px_unify::MOST_VARIABLES;
use std::alloc::Global;

/// Returns the terms of the leaves by rows, those of the steps, `objects` variables from number `first` on, and the terms of the proofs.
pub fn walk(
    alloc: Global,
    steps: &[OpInst],
    rows: &[Row],
    first: u32,
    objects: u32,
) -> Result<Vec<Term>, NoMemory>
    requires { first + objects ≤ MOST_VARIABLES }
    ensures { IfOk result (λ walked. walked.items ≡ leaf_terms (rows_of rows.now) ++
        (step_terms steps.now ++ (variables_from first objects ++ row_terms (rows_of rows.now)))) }
{
    let mut walked = Vec::new(alloc);
    add_leaves(&mut walked, alloc, rows)?;
    add_steps(&mut walked, steps)?;
    let slots = variables(alloc, first, objects)?;
    walked.extend_from_slice(&slots)?;
    add_rows(&mut walked, rows)?;
    Ok(walked)
}

/// Appends the terms of the leaves, by rows.
fn add_leaves(walked: &mut Vec<Term>, alloc: Global, rows: &[Row]) -> Result<(), NoMemory>
    ensures { IfOk result (λ _. walked.new.items ≡ walked.old.items ++ leaf_terms (rows_of rows.now)) }
{
    for row in rows {
        add_row_leaves(walked, alloc, row.proofs())?;
    }
    Ok(())
}

/// Appends the terms of the proofs' leaves.
fn add_row_leaves(walked: &mut Vec<Term>, alloc: Global, proofs: &[Proof]) -> Result<(), NoMemory>
    ensures { IfOk result (λ _. walked.new.items ≡ walked.old.items ++ args_of_leaves (row_leaves (map derivation_of proofs.now))) }
{
    for proof in proofs {
        let found = leaves(alloc, proof)?;
        add_args(walked, &found)?;
    }
    Ok(())
}

/// Appends the leaves' arguments.
fn add_args(walked: &mut Vec<Term>, leaves: &[Leaf]) -> Result<(), NoMemory>
    ensures { IfOk result (λ _. walked.new.items ≡ walked.old.items ++ args_of_leaves leaves.now) }
{
    for leaf in leaves {
        walked.extend_from_slice(leaf.atom.args())?;
    }
    Ok(())
}

/// Appends the steps' arguments.
fn add_steps(walked: &mut Vec<Term>, steps: &[OpInst]) -> Result<(), NoMemory>
    ensures { IfOk result (λ _. walked.new.items ≡ walked.old.items ++ step_terms steps.now) }
{
    for inst in steps {
        walked.extend_from_slice(inst.args())?;
    }
    Ok(())
}

/// Appends the terms of the proofs, by rows.
fn add_rows(walked: &mut Vec<Term>, rows: &[Row]) -> Result<(), NoMemory>
    ensures { IfOk result (λ _. walked.new.items ≡ walked.old.items ++ row_terms (rows_of rows.now)) }
{
    for row in rows {
        add_each(walked, row.proofs())?;
    }
    Ok(())
}

/// Appends the terms of the proof, in preorder.
#[cycle(terms)]
fn add_proof(walked: &mut Vec<Term>, proof: &Proof) -> Result<(), NoMemory>
    ensures { IfOk result (λ _. walked.new.items ≡ walked.old.items ++ terms_of (derivation_of proof.now)) }
{
    match proof {
        Proof::Fact(leaf) => Ok(walked.extend_from_slice(leaf.atom.args())?),
        Proof::Anc(_) => Ok(()),
        Proof::Step { theta, subs, .. } => {
            walked.extend_from_slice(theta.as_slice())?;
            add_each(walked, subs.as_slice())
        }
        Proof::Gap(atom) => Ok(walked.extend_from_slice(atom.args())?),
    }
}

/// Appends the terms of each of the proofs.
#[cycle(terms)]
fn add_each(walked: &mut Vec<Term>, proofs: &[Proof]) -> Result<(), NoMemory>
    ensures { IfOk result (λ _. walked.new.items ≡ walked.old.items ++ all_terms_of (derivations (map derivation_of proofs.now))) }
{
    for proof in proofs {
        add_proof(walked, proof)?;
    }
    Ok(())
}
