//! The limits of plans that are generalised, and whether a plan is too deep.
ghost use Rattle.std.specs.Prelude.{◌↔◌, ◌<◌, Any, IsTrue, map};
ghost use Rattle.px_proof.specs.Derivation.{height};
ghost use Rattle.px_proof.specs.ProofTerm.{derivation_of};
ghost use Rattle.px_general.specs.Limits.{IsTooDeep, most_proof_height};

use px_proof::{Proof, higher_than};
use px_table::{Row, Table};

/// The greatest height of the proofs of a plan that is generalised.
const MOST_PROOF_HEIGHT: u32 = 56;

/// Returns whether a proof of the plan is higher than 56.
pub fn is_too_deep(table: &Table) -> bool
    ensures { IsTrue result ↔ IsTooDeep table.now }
{
    has_high_row(table.proofs.as_slice())
}

/// Returns whether a proof of the rows is higher than 56.
fn has_high_row(rows: &[Row]) -> bool
    ensures { IsTrue result ↔ Any (λ row. Any (λ proof. most_proof_height < height (derivation_of proof)) row) rows.now }
{
    rows.iter().any(|row| has_high_proof(row.proofs()))
}

/// Returns whether one of the proofs is higher than 56.
fn has_high_proof(proofs: &[Proof]) -> bool
    ensures { IsTrue result ↔ Any (λ proof. most_proof_height < height (derivation_of proof)) proofs.now }
{
    proofs
        .iter()
        .any(|proof| higher_than(proof, MOST_PROOF_HEIGHT))
}
