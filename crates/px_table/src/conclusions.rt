//! The atoms that proofs prove.
ghost use Rattle.std.specs.Prelude.{◌≡◌, ◌↔◌, ℕ, Some, All, IsTrue};
ghost use Rattle.px_terms.specs.declared.atom.Atom.{Atom};
ghost use Rattle.px_terms.specs.declared.clause.Clause.{Clause};
ghost use Rattle.px_proof.specs.Literals.{positive_of};
ghost use Rattle.px_proof.specs.Proves.{IsObjectOrParameter, UsesClause};
ghost use Rattle.px_table.specs.Conclusions.{IsConclusion, ProvesSome};

use px_proof::{Proof, is_tree};
use px_terms::{Atom, ClauseArena, Lit, Term, apply};

/// Returns the literal that is the atom itself.
pub fn positive(atom: Atom) -> Lit
    ensures { result ≡ positive_of atom }
{
    Lit {
        positive: true,
        atom,
    }
}

/// Returns the one atom that the proof may prove, where it proves any.
pub fn conclusion(axioms: &ClauseArena, proof: &Proof) -> Option<Atom>
    ensures { (atom : Atom) → IsConclusion axioms.now atom proof.now → result ≡ Some atom }
{
    match proof {
        Proof::Fact(leaf) => Some(leaf.atom),
        Proof::Step {
            clause,
            theta,
            place,
            ..
        } => atom_at(axioms, *clause, theta.as_slice(), *place),
        Proof::Anc(_) | Proof::Gap(_) => None,
    }
}

/// Returns the atom of the clause's literal at that place under `theta`.
fn atom_at(axioms: &ClauseArena, clause: u32, theta: &[Term], place: u32) -> Option<Atom>
    ensures { (objects params : ℕ) (atom : Atom) (used : Clause)
        → UsesClause (IsObjectOrParameter objects params) axioms.now (positive_of atom) clause theta.now place used → result ≡ Some atom }
{
    if clause >= axioms.count() || theta.len() != axioms.variable_count(clause) as usize {
        return None;
    }
    let lits = axioms.lits(clause);
    if place as usize >= lits.len() {
        return None;
    }
    Some(apply(theta, &lits[place as usize].atom))
}

/// Returns whether the proof proves an atom over these numbers of objects and parameters.
fn proves_some(axioms: &ClauseArena, objects: u32, params: u32, proof: &Proof) -> bool
    ensures { IsTrue result ↔ ProvesSome axioms.now objects params proof.now }
{
    match conclusion(axioms, proof) {
        Some(atom) => is_tree(axioms, objects, params, &positive(atom), proof),
        None => false,
    }
}

/// Returns whether each of the proofs proves an atom over these numbers of objects and parameters.
pub fn each_proves_some(axioms: &ClauseArena, objects: u32, params: u32, row: &[Proof]) -> bool
    ensures { IsTrue result ↔ All (ProvesSome axioms.now objects params) row.now }
{
    for proof in row {
        if !proves_some(axioms, objects, params, proof) {
            return false;
        }
    }
    true
}
