//! Proofs put in the places of leaves.
ghost use Rattle.std.specs.Prelude.{◌≡◌, ◌≤◌, ◌+◌, ◌∷◌, [], All, IfOk, OnOk, drop, length, map};
ghost use Rattle.std.specs.List.{flat_map};
ghost use Rattle.px_base.specs.Bounds.{u32_max};
ghost use Rattle.px_proof.specs.Derivation.{derivations, leaves_of, all_leaves_of};
ghost use Rattle.px_proof.specs.Grafting.{first_leaves, later_leaves, in_place_of, grafted, all_grafted, in_places_of, GraftIsTree, GraftProves};
ghost use Rattle.px_proof.specs.ProofTerm.{derivation_of};

use crate::proof::{Leaf, Proof};
use px_base::{NoMemory, Sequence, push};
use std::alloc::Global;

/// Returns the proof with each leaf in column 0 replaced by its part, one each from left to right, and with the columns of the
/// other leaves raised by `shift`. Where [`is_tree`](crate::is_tree) accepts the proof of a literal, and each part as a
/// proof of its leaf's atom, it accepts the new proof of that literal; the same goes for [`check`](crate::check), where
/// the atoms of the other leaves are among the facts. Terms and parts are copied in memory of their own allocators.
///
/// # Errors
/// `NoMemory` where there is no memory for the proof.
pub fn graft(alloc: Global, proof: &Proof, parts: &[Proof], shift: u32) -> Result<Proof, NoMemory>
    requires parts { length parts.now ≡ length (first_leaves (leaves_of (derivation_of proof.now))) }
    requires columns { All (λ leaf. leaf.column + shift ≤ u32_max) (later_leaves (leaves_of (derivation_of proof.now))) }
    ensures value { IfOk result (λ made. derivation_of made ≡ grafted shift (map derivation_of parts.now) (derivation_of proof.now)) }
    ensures leaves { IfOk result (λ made. leaves_of (derivation_of made) ≡ flat_map leaves_of
        (in_places_of shift (map derivation_of parts.now) (leaves_of (derivation_of proof.now)))) }
    ensures tree { IfOk result (λ made. GraftIsTree (map derivation_of parts.now) (derivation_of proof.now) (derivation_of made)) }
    ensures proves { IfOk result (λ made. GraftProves (map derivation_of parts.now) (derivation_of proof.now) (derivation_of made)) }
{
    let mut used = 0;
    graft_all(alloc, proof, parts, &mut used, shift)
}

/// Returns that proof, where the parts are those from the first that isn't used yet.
// Alike: `Proof::try_copy`, which says why.
#[cycle(grafts)]
fn graft_all(
    alloc: Global,
    proof: &Proof,
    parts: &[Proof],
    used: &mut usize,
    shift: u32,
) -> Result<Proof, NoMemory>
    requires parts { used.old + length (first_leaves (leaves_of (derivation_of proof.now))) ≤ length parts.now }
    requires columns { All (λ leaf. leaf.column + shift ≤ u32_max) (later_leaves (leaves_of (derivation_of proof.now))) }
    ensures value { IfOk result (λ made. derivation_of made ≡ grafted shift (drop used.old (map derivation_of parts.now))
        (derivation_of proof.now)) }
    ensures used { OnOk result (used.new ≡ used.old + length (first_leaves (leaves_of (derivation_of proof.now)))) }
{
    match proof {
        Proof::Fact(leaf) => graft_leaf(leaf, parts, used, shift),
        Proof::Anc(place) => Ok(Proof::Anc(*place)),
        Proof::Step {
            clause,
            theta,
            place,
            subs,
        } => {
            let theta = theta.try_copy()?;
            let subs = graft_each(alloc, subs.as_slice(), parts, used, shift)?;
            Ok(Proof::Step {
                clause: *clause,
                theta,
                place: *place,
                subs: Sequence::from_vec(subs),
            })
        }
        Proof::Gap(atom) => Ok(Proof::Gap(*atom)),
    }
}

/// Returns each of the proofs grafted in this way, with the parts from the first that isn't used yet.
#[cycle(grafts)]
fn graft_each(
    alloc: Global,
    proofs: &[Proof],
    parts: &[Proof],
    used: &mut usize,
    shift: u32,
) -> Result<Vec<Proof>, NoMemory>
    requires parts { used.old + length (first_leaves (all_leaves_of (derivations (map derivation_of proofs.now)))) ≤ length parts.now }
    requires columns { All (λ leaf. leaf.column + shift ≤ u32_max)
        (later_leaves (all_leaves_of (derivations (map derivation_of proofs.now)))) }
    ensures value { IfOk result (λ made. derivations (map derivation_of made.items) ≡ all_grafted shift
        (drop used.old (map derivation_of parts.now)) (derivations (map derivation_of proofs.now))) }
    ensures used { OnOk result (used.new ≡ used.old + length (first_leaves (all_leaves_of (derivations (map derivation_of proofs.now))))) }
{
    let mut made = Vec::new(alloc);
    for proof in proofs {
        let one = graft_all(alloc, proof, parts, used, shift)?;
        push(&mut made, one)?;
    }
    Ok(made)
}

/// Returns what comes in the place of a leaf.
fn graft_leaf(leaf: &Leaf, parts: &[Proof], used: &mut usize, shift: u32) -> Result<Proof, NoMemory>
    requires parts { used.old + length (first_leaves (leaf.now ∷ [])) ≤ length parts.now }
    requires columns { All (λ leaf. leaf.column + shift ≤ u32_max) (later_leaves (leaf.now ∷ [])) }
    ensures value { IfOk result (λ made. derivation_of made ≡ in_place_of shift (drop used.old (map derivation_of parts.now)) leaf.now) }
    ensures used { OnOk result (used.new ≡ used.old + length (first_leaves (leaf.now ∷ []))) }
{
    if leaf.column == 0 {
        let next = *used;
        let part = parts[next].try_copy()?;
        *used += 1;
        return Ok(part);
    }
    Ok(Proof::Fact(Leaf {
        column: leaf.column + shift,
        index: leaf.index,
        atom: leaf.atom,
    }))
}
