//! What is asked for of one table of a session: to show, to save or to certify it.
ghost use Rattle.std.specs.Prelude.{◌↔◌, ◌<◌, Any, IfOk, IsTrue, map};
ghost use Rattle.px_terms.specs.Validity.{IsValid};
ghost use Rattle.px_proof.specs.Derivation.{height};
ghost use Rattle.px_proof.specs.ProofTerm.{derivation_of};
ghost use Rattle.px_general.specs.Limits.{IsTooDeep, most_proof_height};
ghost use Rattle.px_session.specs.Asked.{IsFirstCause, TellsCertifying, TellsSaving, TellsShow};

use crate::state::State;
use px_base::{NoMemory, Sequence};
use px_cert::cert_text;
use px_printer::{Reply, SaveWhy};
use px_proof::{Proof, higher_than};
use px_script::LAST_NUMBER;
use px_table::{MOST_STEPS, Row, Table};
use px_terms::Problem;
use std::alloc::Global;

/// The greatest height of the proofs of a table that is written.
const MOST_PROOF_HEIGHT: u32 = 56;

/// Returns the first cause not to write the table, as a block or as a certificate, if there is one. Does not allocate.
#[tactic(auto, using(crate::proofs::WrittenTables::nothing_refuses))]
fn first_cause(table: &Table) -> Option<SaveWhy>
    ensures { IsFirstCause table.now result }
{
    if table.steps.len() > MOST_STEPS {
        Some(SaveWhy::TooLong)
    } else if is_too_deep(table) {
        Some(SaveWhy::TooDeep)
    } else if table.params > LAST_NUMBER {
        Some(SaveWhy::TooMany)
    } else {
        None
    }
}

// Alike: `limits` of `px_general`, where this is a limit of plans that are learned.
/// Returns whether a proof of the table is higher than 56.
fn is_too_deep(table: &Table) -> bool
    ensures { IsTrue result ↔ IsTooDeep table.now }
{
    has_high_row(table.proofs.as_slice())
}

/// Returns whether a proof of the rows is higher than 56.
fn has_high_row(rows: &[Row]) -> bool
    ensures { IsTrue result ↔ Any (λ row. Any (λ proof. most_proof_height < height (derivation_of proof)) row) rows.now }
{
    rows.iter().any(|row| has_high_proof(row.proofs()))
}

/// Returns whether one of the proofs is higher than 56.
fn has_high_proof(proofs: &[Proof]) -> bool
    ensures { IsTrue result ↔ Any (λ proof. most_proof_height < height (derivation_of proof)) proofs.now }
{
    proofs
        .iter()
        .any(|proof| higher_than(proof, MOST_PROOF_HEIGHT))
}

impl State {
    /// Shows the table of that name.
    ///
    /// # Errors
    /// `NoMemory` where there is no memory for a copy of the table.
    pub(crate) fn show(&self, name: u32) -> Result<Reply, NoMemory>
        ensures told { IfOk result (λ reply. TellsShow self.now name reply self.now) }
    {
        match self.table(name) {
            None => Ok(Reply::Unknown { name }),
            Some(table) => Ok(Reply::Shown {
                name,
                table: table.try_copy()?,
            }),
        }
    }

    /// Answers the table of that name, to be printed as a block.
    ///
    /// # Errors
    /// `NoMemory` where there is no memory for a copy of the table.
    pub(crate) fn save(&self, name: u32) -> Result<Reply, NoMemory>
        ensures told { IfOk result (λ reply. TellsSaving self.now name reply self.now) }
    {
        let Some(table) = self.table(name) else {
            return Ok(Reply::Unknown { name });
        };
        match first_cause(table) {
            Some(why) => Ok(Reply::SaveRefused { name, why }),
            None => Ok(Reply::Saved {
                name,
                table: table.try_copy()?,
            }),
        }
    }

    /// Answers the certificate of the table of that name.
    ///
    /// # Errors
    /// `NoMemory` where there is no memory for the certificate.
    pub(crate) fn certify(
        &self,
        alloc: Global,
        problem: &Problem,
        name: u32,
    ) -> Result<Reply, NoMemory>
        ensures told { IfOk result (λ reply. TellsCertifying problem.now self.now name reply self.now) }
    {
        let Some(table) = self.table(name) else {
            return Ok(Reply::Unknown { name });
        };
        match first_cause(table) {
            Some(why) => Ok(Reply::CertifyRefused { name, why }),
            None => Ok(Reply::Certified {
                name,
                bytes: Sequence::from_vec(cert_text(alloc, problem, table)?),
            }),
        }
    }
}
