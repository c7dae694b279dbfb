//! The terms of steps, a goal and rows in the order in which parameters are numbered.
ghost use Rattle.std.specs.Prelude.{◌≡◌, ◌≤◌, ◌++◌, IfOk, flat_map, length, map};
ghost use Rattle.px_base.specs.Bounds.{u32_max};
ghost use Rattle.px_proof.specs.Derivation.{all_terms_of, derivations, terms_of};
ghost use Rattle.px_proof.specs.ProofTerm.{derivation_of};
ghost use Rattle.px_table.specs.declared.mark.Mark.{Mark};
ghost use Rattle.px_table.specs.Parameters.{goal_terms, row_terms, step_terms};
ghost use Rattle.px_table.specs.Tables.{rows_of};
ghost use Rattle.px_edit.specs.Editing.{terms_of_parts};

use px_base::NoMemory;
use px_proof::Proof;
use px_table::{Mark, Row, marks};
use px_terms::{Atom, OpInst, Term};
use std::alloc::Global;

/// Returns the terms of the marks of the rows, then those of the steps, the goal and the rows.
pub fn walk(
    alloc: Global,
    steps: &[OpInst],
    goal: &[Atom],
    rows: &[Row],
) -> Result<Vec<Term>, NoMemory>
    requires { length rows.now ≤ u32_max }
    ensures { IfOk result (λ walked. walked.items ≡ terms_of_parts steps.now goal.now (rows_of rows.now)) }
{
    let found = marks(alloc, rows)?;
    let mut walked = Vec::new(alloc);
    add_marks(&mut walked, found.as_slice())?;
    add_steps(&mut walked, steps)?;
    add_goal(&mut walked, goal)?;
    add_rows(&mut walked, rows)?;
    Ok(walked)
}

/// Appends the arguments of the marks' atoms.
fn add_marks(walked: &mut Vec<Term>, marks: &[Mark]) -> Result<(), NoMemory>
    ensures { IfOk result (λ _. walked.new.items ≡ walked.old.items ++ flat_map (λ (mark : Mark). mark.atom.args) marks.now) }
{
    for mark in marks {
        walked.extend_from_slice(mark.atom.args())?;
    }
    Ok(())
}

/// Appends the steps' arguments.
fn add_steps(walked: &mut Vec<Term>, steps: &[OpInst]) -> Result<(), NoMemory>
    ensures { IfOk result (λ _. walked.new.items ≡ walked.old.items ++ step_terms steps.now) }
{
    for inst in steps {
        walked.extend_from_slice(inst.args())?;
    }
    Ok(())
}

/// Appends the arguments of the goal's atoms.
fn add_goal(walked: &mut Vec<Term>, goal: &[Atom]) -> Result<(), NoMemory>
    ensures { IfOk result (λ _. walked.new.items ≡ walked.old.items ++ goal_terms goal.now) }
{
    for atom in goal {
        walked.extend_from_slice(atom.args())?;
    }
    Ok(())
}

/// Appends the terms of the proofs, by rows.
fn add_rows(walked: &mut Vec<Term>, rows: &[Row]) -> Result<(), NoMemory>
    ensures { IfOk result (λ _. walked.new.items ≡ walked.old.items ++ row_terms (rows_of rows.now)) }
{
    for row in rows {
        add_each(walked, row.proofs())?;
    }
    Ok(())
}

/// Appends the terms of the proof, in preorder.
// Alike: `add_proof` of `px_general`, which this crate doesn't stand on.
#[cycle(terms)]
fn add_proof(walked: &mut Vec<Term>, proof: &Proof) -> Result<(), NoMemory>
    ensures { IfOk result (λ _. walked.new.items ≡ walked.old.items ++ terms_of (derivation_of proof.now)) }
{
    match proof {
        Proof::Fact(leaf) => Ok(walked.extend_from_slice(leaf.atom.args())?),
        Proof::Anc(_) => Ok(()),
        Proof::Step { theta, subs, .. } => {
            walked.extend_from_slice(theta.as_slice())?;
            add_each(walked, subs.as_slice())
        }
        Proof::Gap(atom) => Ok(walked.extend_from_slice(atom.args())?),
    }
}

/// Appends the terms of each of the proofs.
#[cycle(terms)]
fn add_each(walked: &mut Vec<Term>, proofs: &[Proof]) -> Result<(), NoMemory>
    ensures { IfOk result (λ _. walked.new.items ≡ walked.old.items ++ all_terms_of (derivations (map derivation_of proofs.now))) }
{
    for proof in proofs {
        add_proof(walked, proof)?;
    }
    Ok(())
}
