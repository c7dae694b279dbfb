//! Whether the marks of a table are the leaves of its rows, each once in its row.
ghost use Rattle.std.specs.Prelude.{◌≡◌, ◌↔◌, ◌<◌, ◌≤◌, [], ◌∷◌, IsTrue, length, map, take, drop};
ghost use Rattle.px_base.specs.Bounds.{u32_max};
ghost use Rattle.px_proof.specs.Derivation.{derivations, leaves_of, all_leaves_of};
ghost use Rattle.px_proof.specs.ProofTerm.{derivation_of};
ghost use Rattle.px_table.specs.Marks.{mark_eq, mark_of, marks_from, row_marks};
ghost use Rattle.px_table.specs.Once.{IsPrefix, put_each};
ghost use Rattle.px_table.specs.Tables.{rows_of};

use crate::kept::{has_mark, leaf_mark};
use crate::mark::Mark;
use crate::table::Table;
use px_proof::{Leaf, Proof};

/// Returns how many marks the first `count` ones and the leaf's make, where the list begins with these.
fn after_leaf(marks: &[Mark], count: usize, row: u32, leaf: &Leaf) -> Option<usize>
    requires { count ≤ length marks.now }
    ensures { IsPrefix marks.now (put_each mark_eq (take count marks.now) (map (mark_of row) (leaf.now ∷ []))) result }
{
    let mark = leaf_mark(row, leaf);
    if has_mark(&marks[..count], &mark) {
        return Some(count);
    }
    if count < marks.len() && marks[count] == mark {
        return Some(count + 1);
    }
    None
}

/// Returns how many marks the first `count` ones and those of the proof's leaves make, where the list begins with these.
#[cycle(walks)]
fn after_proof(marks: &[Mark], count: usize, row: u32, proof: &Proof) -> Option<usize>
    requires { count ≤ length marks.now }
    ensures { IsPrefix marks.now (put_each mark_eq (take count marks.now) (map (mark_of row) (leaves_of (derivation_of proof.now)))) result }
{
    match proof {
        Proof::Fact(leaf) => after_leaf(marks, count, row, leaf),
        Proof::Anc(_) | Proof::Gap(_) => Some(count),
        Proof::Step { subs, .. } => after_proofs(marks, count, row, subs.as_slice()),
    }
}

/// Returns how many marks the first `count` ones and those of the leaves of the proofs make, where the list begins with these.
#[cycle(walks)]
fn after_proofs(marks: &[Mark], count: usize, row: u32, proofs: &[Proof]) -> Option<usize>
    requires { count ≤ length marks.now }
    ensures { IsPrefix marks.now (put_each mark_eq (take count marks.now)
        (map (mark_of row) (all_leaves_of (derivations (map derivation_of proofs.now))))) result }
{
    let mut at = count;
    for proof in proofs {
        match after_proof(marks, at, row, proof) {
            Some(next) => at = next,
            None => return None,
        }
    }
    Some(at)
}

/// Returns how many marks the row has, where the list begins with these.
fn after_row(marks: &[Mark], row: u32, proofs: &[Proof]) -> Option<usize>
    ensures { IsPrefix marks.now (row_marks row (map derivation_of proofs.now)) result }
{
    after_proofs(marks, 0, row, proofs)
}

/// Returns whether the marks are the leaves of the rows, each once in its row.
pub fn marks_are_leaves(table: &Table) -> bool
    requires { length table.now.proofs ≤ u32_max }
    ensures { IsTrue result ↔ (table.now.marks ≡ marks_from 1 (rows_of table.now.proofs)) }
{
    let marks = table.marks.as_slice();
    let mut at = 0;
    for (k, row) in table.proofs.as_slice().iter().enumerate() {
        match after_row(&marks[at..], k as u32 + 1, row.proofs()) {
            Some(count) => at += count,
            None => return false,
        }
    }
    at == marks.len()
}
