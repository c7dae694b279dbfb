//! The replay of a plan, row by row.
ghost use Rattle.std.specs.Prelude.{◌≡◌, ◌<◌, ◌++◌, ◌∷◌, [], IfOk, List, map, length, All};
ghost use Rattle.px_terms.specs.Operators.{precondition, schema_of};
ghost use Rattle.px_terms.specs.Validity.{IsValid};
ghost use Rattle.px_unify.specs.Changes.{variables_of};
ghost use Rattle.px_proof.specs.ProofTerm.{derivation_of};
ghost use Rattle.px_table.specs.Tables.{rows_of};
ghost use Rattle.px_replay.specs.Opened.{row_pairs, rows_pairs};
ghost use Rattle.px_replay.specs.Replaying.{CanReplayRow, CanReplayRows, HasSchema, IsReplayOf};

use crate::pairing::replay;
use px_base::{NoMemory, push};
use px_proof::{Path, Proof};
use px_table::Row;
use px_terms::{Atom, ClauseArena, Lit, OpInst, Problem, apply};
use px_unify::Bind;
use std::alloc::Global;

/// Makes the pairs of the proofs of the atoms equal.
fn replay_row(row: &[Proof], bind: &mut Bind, arena: &ClauseArena, atoms: &[Atom])
    requires { CanReplayRow arena.now atoms.now (map derivation_of row.now) bind.old }
    ensures { IsReplayOf bind.old bind.new (row_pairs arena.now atoms.now (map derivation_of row.now)) }
{
    for (k, proof) in row.iter().enumerate() {
        let lit = Lit {
            positive: true,
            atom: atoms[k],
        };
        replay(proof, bind, arena, &Path::Root, &lit);
    }
}

/// Returns the atoms that the instance needs.
fn needs(alloc: Global, problem: &Problem, inst: &OpInst) -> Result<Vec<Atom>, NoMemory>
    requires problem { IsValid problem.now }
    requires schema { HasSchema problem.now inst.now }
    ensures { IfOk result (λ atoms. atoms.items ≡ precondition problem.now inst.now) }
{
    let schema = &problem.schemas.as_slice()[inst.op() as usize];
    let mut atoms = Vec::new(alloc);
    for atom in schema.pre.as_slice() {
        push(&mut atoms, apply(inst.args(), atom))?;
    }
    Ok(atoms)
}

/// Makes all pairs of the opened plan equal.
///
/// # Errors
/// `NoMemory` where there is no memory for the atoms of a precondition.
pub fn replay_rows(
    alloc: Global,
    problem: &Problem,
    steps: &[OpInst],
    goal: &[Atom],
    rows: &[Row],
    bind: &mut Bind,
) -> Result<(), NoMemory>
    requires problem { IsValid problem.now }
    requires schemas { All (HasSchema problem.now) steps.now }
    requires can { CanReplayRows problem.now steps.now goal.now (rows_of rows.now) bind.old }
    ensures { IfOk result (λ _. IsReplayOf bind.old bind.new (rows_pairs problem.now steps.now goal.now (rows_of rows.now))) }
{
    for (k, inst) in steps.iter().enumerate() {
        let atoms = needs(alloc, problem, inst)?;
        replay_row(rows[k].proofs(), bind, &problem.axioms, &atoms);
    }
    replay_row(rows[steps.len()].proofs(), bind, &problem.axioms, goal);
    Ok(())
}
