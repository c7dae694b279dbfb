//! Proofs with their leaves in the columns of the kept steps.
ghost use Rattle.std.specs.Prelude.{◌≡◌, IfOk, length, map, ◌≤◌};
ghost use Rattle.px_base.specs.Bounds.{u32_max};
ghost use Rattle.px_proof.specs.Derivation.{derivations};
ghost use Rattle.px_proof.specs.ProofTerm.{derivation_of};
ghost use Rattle.px_edit.specs.Editing.{all_in_columns, in_columns, new_number as new_column};

use px_base::{NoMemory, Sequence, push};
use px_proof::{Leaf, Proof};
use std::alloc::Global;

/// Returns the number that the step has among the kept ones; 0 for the initial model.
pub fn new_number(kept: &[u32], step: u32) -> u32
    requires { length kept.now ≤ u32_max }
    ensures { result ≡ new_column kept.now step }
{
    let mut count = 0;
    for number in kept {
        if *number <= step {
            count += 1;
        }
    }
    count
}

/// Returns the proof, its leaves in the columns of the kept steps.
// Alike: `Proof::try_copy`, which says why.
#[cycle(columns)]
pub fn in_new_columns(alloc: Global, proof: &Proof, kept: &[u32]) -> Result<Proof, NoMemory>
    requires { length kept.now ≤ u32_max }
    ensures { IfOk result (λ made. derivation_of made ≡ in_columns (new_column kept.now) (derivation_of proof.now)) }
{
    match proof {
        Proof::Fact(leaf) => Ok(Proof::Fact(Leaf {
            column: new_number(kept, leaf.column),
            index: leaf.index,
            atom: leaf.atom,
        })),
        Proof::Anc(place) => Ok(Proof::Anc(*place)),
        Proof::Step {
            clause,
            theta,
            place,
            subs,
        } => {
            let theta = theta.try_copy()?;
            let subs = each_in_new_columns(alloc, subs.as_slice(), kept)?;
            Ok(Proof::Step {
                clause: *clause,
                theta,
                place: *place,
                subs: Sequence::from_vec(subs),
            })
        }
        Proof::Gap(atom) => Ok(Proof::Gap(*atom)),
    }
}

/// Returns each of the proofs with its leaves in these columns.
#[cycle(columns)]
fn each_in_new_columns(
    alloc: Global,
    proofs: &[Proof],
    kept: &[u32],
) -> Result<Vec<Proof>, NoMemory>
    requires { length kept.now ≤ u32_max }
    ensures { IfOk result (λ made. derivations (map derivation_of made.items) ≡ all_in_columns (new_column kept.now)
        (derivations (map derivation_of proofs.now))) }
{
    let mut made = Vec::new(alloc);
    for proof in proofs {
        let one = in_new_columns(alloc, proof, kept)?;
        push(&mut made, one)?;
    }
    Ok(made)
}
