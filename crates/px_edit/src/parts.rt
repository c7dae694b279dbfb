//! The kept steps, the wanted adds and their rows, over the old parameters.
ghost use Rattle.std.specs.Prelude.{◌≡◌, ◌↔◌, ◌<◌, ◌≤◌, ◌-◌, [], All, Any, IfOk, IsTrue, length, map, slice_index, slice_index_or};
ghost use Rattle.px_base.specs.Bounds.{u32_max};
ghost use Rattle.px_terms.specs.declared.problem.Problem.{Problem};
ghost use Rattle.px_table.specs.declared.table.Table.{Table};
ghost use Rattle.px_terms.specs.Validity.{IsValid};
ghost use Rattle.px_proof.specs.Derivation.{fact, height, no_atom};
ghost use Rattle.px_proof.specs.ProofTerm.{derivation_of};
ghost use Rattle.px_table.specs.Tables.{IsTable, rows_of};
ghost use Rattle.px_edit.specs.EditCauses.{IsAddOf, most_kept_height};
ghost use Rattle.px_edit.specs.Editing.{in_columns, kept_of, no_step, kept_rows as rows_kept, kept_steps as steps_kept, new_number as new_column, wanted_atom as atom_wanted, wanted_atoms as atoms_wanted, wanted_fact};
ghost use Rattle.px_edit.specs.Parts.{AreNumbersOf};

use crate::columns::{in_new_columns, new_number};
use px_base::{NoMemory, push};
use px_ops::{adds, schema_of};
use px_proof::{Leaf, Proof, higher_than};
use px_table::{Row, Table};
use px_terms::{Atom, OpInst, Problem};
use std::alloc::Global;

/// The greatest height of the proofs of a learned table.
const MOST_KEPT_HEIGHT: u32 = 56;

/// Returns whether one of the proofs is higher than those of a learned table may be.
fn has_high_proof(proofs: &[Proof]) -> bool
    ensures { IsTrue result ↔ Any (λ proof. most_kept_height < height (derivation_of proof)) proofs.now }
{
    proofs
        .iter()
        .any(|proof| higher_than(proof, MOST_KEPT_HEIGHT))
}

/// Returns whether a proof of the row of the kept step at the place is higher than those of a learned table may be.
fn is_high_row(table: &Table, kept: &[u32], place: usize) -> bool
    requires rows { length table.now.steps < length table.now.proofs }
    requires numbers { AreNumbersOf table.now kept.now }
    requires place { place < length kept.now }
    ensures { IsTrue result ↔ Any (λ proof. most_kept_height < height (derivation_of proof))
        (slice_index_or table.now.proofs (slice_index kept.now place - 1) []) }
{
    let row = &table.proofs.as_slice()[kept[place] as usize - 1];
    has_high_proof(row.proofs())
}

/// Returns whether a proof of a kept step's row is higher than those of a learned table may be.
pub fn has_high_row(table: &Table, kept: &[u32]) -> bool
    requires rows { length table.now.steps < length table.now.proofs }
    requires numbers { AreNumbersOf table.now kept.now }
    ensures { IsTrue result ↔ Any (Any (λ d. most_kept_height < height d)) (kept_of [] kept.now (rows_of table.now.proofs)) }
{
    for place in 0..kept.len() {
        if is_high_row(table, kept, place) {
            return true;
        }
    }
    false
}

/// Returns the kept step at the place.
fn kept_step(table: &Table, kept: &[u32], place: usize) -> OpInst
    requires numbers { AreNumbersOf table.now kept.now }
    requires place { place < length kept.now }
    ensures { result ≡ slice_index_or table.now.steps (slice_index kept.now place - 1) no_step }
{
    table.steps.as_slice()[kept[place] as usize - 1]
}

/// Returns the kept steps.
pub fn kept_steps(alloc: Global, table: &Table, kept: &[u32]) -> Result<Vec<OpInst>, NoMemory>
    requires { AreNumbersOf table.now kept.now }
    ensures { IfOk result (λ made. made.items ≡ steps_kept table.now kept.now) }
{
    let mut made = Vec::new(alloc);
    for place in 0..kept.len() {
        made.push(kept_step(table, kept, place))?;
    }
    Ok(made)
}

/// Returns the atom that the step of the pair adds at its place.
fn wanted_atom(problem: &Problem, table: &Table, prefix: u32, step: u32, index: u32) -> Atom
    requires problem { IsValid problem.now }
    requires table { IsTable problem.now table.now }
    requires most { prefix ≤ length table.now.steps }
    requires pair { IsAddOf problem.now table.now prefix (step, index) }
    ensures { result ≡ atom_wanted problem.now table.now (step, index) }
{
    let inst = &table.steps.as_slice()[step as usize - 1];
    adds(schema_of(problem, inst), inst, index as usize)
}

/// Returns the atom that is wanted by the pair at the place.
fn wanted_at(
    problem: &Problem,
    table: &Table,
    prefix: u32,
    wanted: &[(u32, u32)],
    place: usize,
) -> Atom
    requires problem { IsValid problem.now }
    requires table { IsTable problem.now table.now }
    requires most { prefix ≤ length table.now.steps }
    requires pairs { All (IsAddOf problem.now table.now prefix) wanted.now }
    requires place { place < length wanted.now }
    ensures { result ≡ atom_wanted problem.now table.now (slice_index_or wanted.now place (0, 0)) }
{
    let (step, index) = wanted[place];
    wanted_atom(problem, table, prefix, step, index)
}

/// Returns the wanted adds.
pub fn wanted_atoms(
    alloc: Global,
    problem: &Problem,
    table: &Table,
    prefix: u32,
    wanted: &[(u32, u32)],
) -> Result<Vec<Atom>, NoMemory>
    requires problem { IsValid problem.now }
    requires table { IsTable problem.now table.now }
    requires most { prefix ≤ length table.now.steps }
    requires pairs { All (IsAddOf problem.now table.now prefix) wanted.now }
    ensures { IfOk result (λ made. made.items ≡ atoms_wanted problem.now table.now wanted.now) }
{
    let mut made = Vec::new(alloc);
    for place in 0..wanted.len() {
        made.push(wanted_at(problem, table, prefix, wanted, place))?;
    }
    Ok(made)
}

/// Returns the fact of the pair at the place, whose atom is the goal's at this place.
fn fact_at(goal: &[Atom], wanted: &[(u32, u32)], kept: &[u32], place: usize) -> Proof
    requires count { length goal.now ≡ length wanted.now }
    requires few { length kept.now ≤ u32_max }
    requires place { place < length wanted.now }
    ensures { derivation_of result ≡ fact (record {
      column = new_column kept.now (slice_index_or wanted.now place (0, 0)).0;
      index = (slice_index_or wanted.now place (0, 0)).1;
      atom = slice_index_or goal.now place no_atom;
    }) }
{
    let (step, index) = wanted[place];
    Proof::Fact(Leaf {
        column: new_number(kept, step),
        index,
        atom: goal[place],
    })
}

/// Returns the row of the facts that the steps of the pairs add the goal's atoms.
fn goal_row(
    alloc: Global,
    goal: &[Atom],
    wanted: &[(u32, u32)],
    kept: &[u32],
) -> Result<Vec<Proof>, NoMemory>
    requires count { length goal.now ≡ length wanted.now }
    requires few { length kept.now ≤ u32_max }
    ensures { IfOk result (λ made. (problem : Problem) (table : Table) → goal.now ≡ atoms_wanted problem table wanted.now
        → map derivation_of made.items ≡ map (wanted_fact problem table kept.now) wanted.now) }
{
    let mut made = Vec::new(alloc);
    for place in 0..wanted.len() {
        made.push(fact_at(goal, wanted, kept, place))?;
    }
    Ok(made)
}

/// Returns the proofs, their leaves in the columns of the kept steps.
fn row_in_columns(alloc: Global, proofs: &[Proof], kept: &[u32]) -> Result<Vec<Proof>, NoMemory>
    requires { length kept.now ≤ u32_max }
    ensures { IfOk result (λ made. map derivation_of made.items
        ≡ map (in_columns (new_column kept.now)) (map derivation_of proofs.now)) }
{
    let mut made = Vec::new(alloc);
    for proof in proofs {
        let one = in_new_columns(alloc, proof, kept)?;
        push(&mut made, one)?;
    }
    Ok(made)
}

/// Returns the row of the kept step at the place, in the columns of the kept steps.
fn kept_row(alloc: Global, table: &Table, kept: &[u32], place: usize) -> Result<Row, NoMemory>
    requires rows { length table.now.steps < length table.now.proofs }
    requires numbers { AreNumbersOf table.now kept.now }
    requires few { length kept.now ≤ u32_max }
    requires place { place < length kept.now }
    ensures { IfOk result (λ made. map derivation_of made ≡ map (in_columns (new_column kept.now))
        (map derivation_of (slice_index_or table.now.proofs (slice_index kept.now place - 1) []))) }
{
    let row = &table.proofs.as_slice()[kept[place] as usize - 1];
    let proofs = row_in_columns(alloc, row.proofs(), kept)?;
    Ok(Row::from_proofs(proofs))
}

/// Returns the rows of the kept steps, and last the row of the goal, which is the wanted adds.
pub fn kept_rows(
    alloc: Global,
    table: &Table,
    goal: &[Atom],
    wanted: &[(u32, u32)],
    kept: &[u32],
) -> Result<Vec<Row>, NoMemory>
    requires rows { length table.now.steps < length table.now.proofs }
    requires numbers { AreNumbersOf table.now kept.now }
    requires few { length kept.now ≤ u32_max }
    requires count { length goal.now ≡ length wanted.now }
    ensures { IfOk result (λ made. (problem : Problem) → goal.now ≡ atoms_wanted problem table.now wanted.now
        → rows_of made.items ≡ rows_kept problem table.now wanted.now kept.now) }
{
    let mut made = Vec::new(alloc);
    for place in 0..kept.len() {
        let row = kept_row(alloc, table, kept, place)?;
        made.push(row)?;
    }
    let facts = goal_row(alloc, goal, wanted, kept)?;
    let last = Row::from_proofs(facts);
    made.push(last)?;
    Ok(made)
}
