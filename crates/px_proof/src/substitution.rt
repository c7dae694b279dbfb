//! Proofs with their variables replaced.
ghost use Rattle.std.specs.Prelude.{◌≡◌, All, IfOk, length, map as map_list};
ghost use Rattle.px_terms.specs.Language.{IsVariableBelow, substitute as substitute_term};
ghost use Rattle.px_proof.specs.Derivation.{derivations, terms_of, all_terms_of};
ghost use Rattle.px_proof.specs.ProofTerm.{derivation_of};
ghost use Rattle.px_proof.specs.Substitution.{derivation_under, derivations_under, StaysProof, StaysTree, ProvesFromFacts};

use crate::proof::{Leaf, Proof};
use px_base::{NoMemory, Sequence, push};
use px_terms::{Term, apply, apply_term};
use std::alloc::Global;

/// Returns the proof with each variable replaced by the map's term of its number. Where [`is_tree`](crate::is_tree) accepts
/// the proof of a literal, and the map gives each parameter an object or a parameter in range, it accepts the new
/// proof of that literal under the map; where the map gives objects, [`check`](crate::check) accepts it from the
/// leaves' atoms under the map.
///
/// # Errors
/// `NoMemory` where there is no memory for the proof.
pub fn substitute(alloc: Global, proof: &Proof, map: &[Term]) -> Result<Proof, NoMemory>
    requires { All (IsVariableBelow (length map.now)) (terms_of (derivation_of proof.now)) }
    ensures value { IfOk result (λ made. derivation_of made ≡ derivation_under map.now (derivation_of proof.now)) }
    ensures proves { IfOk result (λ made. StaysProof map.now (derivation_of proof.now) (derivation_of made)) }
    ensures tree { IfOk result (λ made. StaysTree map.now (derivation_of proof.now) (derivation_of made)) }
    ensures proves_from_facts { IfOk result (λ made. ProvesFromFacts map.now (derivation_of proof.now) (derivation_of made)) }
{
    substitute_all(alloc, proof, map)
}

/// Returns that proof, part by part.
// Alike: `Proof::try_copy`, which says why.
#[cycle(substitute)]
fn substitute_all(alloc: Global, proof: &Proof, map: &[Term]) -> Result<Proof, NoMemory>
    requires { All (IsVariableBelow (length map.now)) (terms_of (derivation_of proof.now)) }
    ensures { IfOk result (λ made. derivation_of made ≡ derivation_under map.now (derivation_of proof.now)) }
{
    match proof {
        Proof::Fact(leaf) => Ok(Proof::Fact(Leaf {
            column: leaf.column,
            index: leaf.index,
            atom: apply(map, &leaf.atom),
        })),
        Proof::Anc(place) => Ok(Proof::Anc(*place)),
        Proof::Step {
            clause,
            theta,
            place,
            subs,
        } => {
            let theta = substitute_terms(alloc, theta.as_slice(), map)?;
            let subs = substitute_each(alloc, subs.as_slice(), map)?;
            Ok(Proof::Step {
                clause: *clause,
                theta: Sequence::from_vec(theta),
                place: *place,
                subs: Sequence::from_vec(subs),
            })
        }
        Proof::Gap(atom) => Ok(Proof::Gap(apply(map, atom))),
    }
}

/// Returns each of the proofs with its variables replaced in this way.
#[cycle(substitute)]
fn substitute_each(alloc: Global, proofs: &[Proof], map: &[Term]) -> Result<Vec<Proof>, NoMemory>
    requires { All (IsVariableBelow (length map.now)) (all_terms_of (derivations (map_list derivation_of proofs.now))) }
    ensures { IfOk result (λ made. derivations (map_list derivation_of made.items) ≡ derivations_under map.now
        (derivations (map_list derivation_of proofs.now))) }
{
    let mut made = Vec::new(alloc);
    for proof in proofs {
        let one = substitute_all(alloc, proof, map)?;
        push(&mut made, one)?;
    }
    Ok(made)
}

/// Returns the terms with each variable replaced by the map's term of its number.
///
/// # Errors
/// `NoMemory` where there is no memory for the list.
pub fn substitute_terms(alloc: Global, terms: &[Term], map: &[Term]) -> Result<Vec<Term>, NoMemory>
    requires { All (IsVariableBelow (length map.now)) terms.now }
    ensures { IfOk result (λ made. made.items ≡ map_list (substitute_term map.now) terms.now) }
{
    let mut made = Vec::new(alloc);
    for term in terms {
        push(&mut made, apply_term(map, *term))?;
    }
    Ok(made)
}
