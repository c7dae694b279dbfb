//! Walks through proof terms: how high they are, their leaves, their shapes.
ghost use Rattle.std.specs.Prelude.{◌≡◌, ◌↔◌, ◌<◌, ◌++◌, ◌∷◌, [], IsTrue, IfOk, map};
ghost use Rattle.px_proof.specs.Derivation.{height, greatest_height, leaves_of, all_leaves_of, skeleton, skeletons, derivations};
ghost use Rattle.px_proof.specs.ProofTerm.{derivation_of};

use crate::proof::{Leaf, Proof};
use px_base::{NoMemory, push};
use std::alloc::Global;

/// Returns whether the proof is higher than the limit.
#[cycle(height)]
pub fn higher_than(proof: &Proof, limit: u32) -> bool
    ensures { IsTrue result ↔ (limit < height (derivation_of proof.now)) }
{
    if limit == 0 {
        return true;
    }
    match proof {
        Proof::Fact(_) | Proof::Anc(_) | Proof::Gap(_) => false,
        Proof::Step { subs, .. } => is_one_higher_than(subs.as_slice(), limit - 1),
    }
}

/// Returns whether one of the proofs is higher than the limit.
#[cycle(height)]
fn is_one_higher_than(proofs: &[Proof], limit: u32) -> bool
    ensures { IsTrue result ↔ (limit < greatest_height (derivations (map derivation_of proofs.now))) }
{
    for proof in proofs {
        if higher_than(proof, limit) {
            return true;
        }
    }
    false
}

/// Returns the fact leaves from left to right.
///
/// # Errors
/// `NoMemory` where there is no memory for the list.
pub fn leaves(alloc: Global, proof: &Proof) -> Result<Vec<Leaf>, NoMemory>
    ensures { IfOk result (λ found. found.items ≡ leaves_of (derivation_of proof.now)) }
{
    let mut found = Vec::new(alloc);
    add_leaves(&mut found, proof)?;
    Ok(found)
}

/// Appends the leaves of the proof.
#[cycle(leaves)]
fn add_leaves(found: &mut Vec<Leaf>, proof: &Proof) -> Result<(), NoMemory>
    ensures { IfOk result (λ _. found.new.items ≡ found.old.items ++ leaves_of (derivation_of proof.now)) }
{
    match proof {
        Proof::Fact(leaf) => push(found, *leaf),
        Proof::Anc(_) | Proof::Gap(_) => Ok(()),
        Proof::Step { subs, .. } => add_all_leaves(found, subs.as_slice()),
    }
}

/// Appends the leaves of each of the proofs.
#[cycle(leaves)]
fn add_all_leaves(found: &mut Vec<Leaf>, proofs: &[Proof]) -> Result<(), NoMemory>
    ensures { IfOk result (λ _. found.new.items ≡ found.old.items ++ all_leaves_of (derivations (map derivation_of proofs.now))) }
{
    for proof in proofs {
        add_leaves(found, proof)?;
    }
    Ok(())
}

/// Returns whether the proofs differ at most in terms and atoms.
#[cycle(same_shape)]
pub fn same_shape(a: &Proof, b: &Proof) -> bool
    ensures { IsTrue result ↔ (skeleton (derivation_of a.now) ≡ skeleton (derivation_of b.now)) }
{
    match (a, b) {
        (Proof::Fact(one), Proof::Fact(other)) => {
            one.column == other.column && one.index == other.index
        }
        (Proof::Anc(one), Proof::Anc(other)) => one == other,
        (
            Proof::Step {
                clause: one_clause,
                place: one_place,
                subs: one_subs,
                ..
            },
            Proof::Step {
                clause: other_clause,
                place: other_place,
                subs: other_subs,
                ..
            },
        ) => {
            one_clause == other_clause
                && one_place == other_place
                && have_same_shapes(one_subs.as_slice(), other_subs.as_slice())
        }
        (Proof::Gap(_), Proof::Gap(_)) => true,
        _ => false,
    }
}

/// Returns whether there are equally many proofs in both lists, and each differs from the other at its place at most in terms and atoms.
#[cycle(same_shape)]
fn have_same_shapes(a: &[Proof], b: &[Proof]) -> bool
    ensures { IsTrue result ↔ (skeletons (derivations (map derivation_of a.now)) ≡ skeletons (derivations (map derivation_of b.now))) }
{
    if a.len() != b.len() {
        return false;
    }
    for (k, proof) in a.iter().enumerate() {
        if !same_shape(proof, &b[k]) {
            return false;
        }
    }
    true
}
