//! The table that an opened plan becomes.
ghost use Rattle.std.specs.Prelude.{◌≡◌, ◌≤◌, ◌+◌, ◌-◌, ◌^◌, All, IfOk, flat_map, length, map};
ghost use Rattle.px_terms.specs.Language.{IsVariableBelow};
ghost use Rattle.px_terms.specs.Substitution.{substitute_instance};
ghost use Rattle.px_proof.specs.Derivation.{terms_of};
ghost use Rattle.px_proof.specs.ProofTerm.{derivation_of};
ghost use Rattle.px_proof.specs.Substitution.{derivation_under};
ghost use Rattle.px_table.specs.Marks.{marks_from};
ghost use Rattle.px_table.specs.Tables.{rows_of};
ghost use Rattle.px_general.specs.General.{row_terms, step_terms};

use px_base::{NoMemory, push};
use px_proof::{Proof, substitute};
use px_table::Row;
use px_terms::{OpInst, Term, apply_inst};
use std::alloc::Global;

/// Returns the steps with these names for their variables.
pub fn named_steps(alloc: Global, names: &[Term], steps: &[OpInst]) -> Result<Vec<OpInst>, NoMemory>
    requires { All (IsVariableBelow (length names.now)) (step_terms steps.now) }
    ensures { IfOk result (λ made. made.items ≡ map (substitute_instance names.now) steps.now) }
{
    let mut made = Vec::new(alloc);
    for inst in steps {
        push(&mut made, apply_inst(names, inst))?;
    }
    Ok(made)
}

/// Returns the rows with these names for their variables.
pub fn named_rows(alloc: Global, names: &[Term], rows: &[Row]) -> Result<Vec<Row>, NoMemory>
    requires { All (IsVariableBelow (length names.now)) (row_terms (rows_of rows.now)) }
    ensures { IfOk result (λ made. rows_of made.items ≡ map (map (derivation_under names.now)) (rows_of rows.now)) }
{
    let mut made = Vec::new(alloc);
    for row in rows {
        let proofs = named_proofs(alloc, names, row.proofs())?;
        push(&mut made, Row::from_proofs(proofs))?;
    }
    Ok(made)
}

/// Returns the proofs with these names for their variables.
fn named_proofs(alloc: Global, names: &[Term], proofs: &[Proof]) -> Result<Vec<Proof>, NoMemory>
    requires { All (IsVariableBelow (length names.now)) (flat_map terms_of (map derivation_of proofs.now)) }
    ensures { IfOk result (λ made. map derivation_of made.items ≡ map (derivation_under names.now) (map derivation_of proofs.now)) }
{
    let mut made = Vec::new(alloc);
    for proof in proofs {
        let one = substitute(alloc, proof, names)?;
        push(&mut made, one)?;
    }
    Ok(made)
}
