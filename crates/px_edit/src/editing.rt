//! Editing a table.
ghost use Rattle.std.specs.Prelude.{◌≡◌, ◌↔◌, ◌⊎◌, ◌<◌, ◌≤◌, ℕ, All, Err, IfErr, IfOk, length};
ghost use Rattle.px_base.specs.Bounds.{u32_max};
ghost use Rattle.px_terms.specs.Validity.{IsValid};
ghost use Rattle.px_proof.specs.Derivation.{height};
ghost use Rattle.px_table.specs.Kernels.{KernelsCarry};
ghost use Rattle.px_table.specs.Limits.{most_steps};
ghost use Rattle.px_table.specs.Tables.{IsTable, rows_of};
ghost use Rattle.px_edit.specs.EditCauses.{IsBadPrefix, IsEditable, IsFirstBadWant, KeepsTooDeep, KeepsTooMany, most_kept_height};
ghost use Rattle.px_edit.specs.EditClaims.{EachStepServes};
ghost use Rattle.px_edit.specs.Editing.{AreKeptSteps, IsEdited};
ghost use Rattle.px_edit.specs.Refusals.{IsWithinLimits, Refuses};

use crate::building::renamed_table;
use crate::causes::{first_bad_want, is_bad_prefix};
use crate::edit_err::EditErr;
use crate::keeping::kept_numbers;
use crate::parts::{has_high_row, kept_rows, kept_steps, wanted_atoms};
use px_base::NoMemory;
use px_table::{MOST_STEPS, Table};
use px_terms::Problem;
use std::alloc::Global;

/// Returns the table of those of the first `prefix` steps that the wanted adds rest on, with these adds for its goal.
///
/// # Errors
/// `BadPrefix`, else `BadWant`, else `TooLong`, else `TooDeep`, each exactly by its cause, but for `NoMemory`, which may come after
/// the first two.
pub fn edit(
    alloc: Global,
    problem: &Problem,
    table: &Table,
    prefix: u32,
    wanted: &[(u32, u32)],
) -> Result<Table, EditErr>
    requires problem { IsValid problem.now }
    requires table { IsTable problem.now table.now }
    requires some { 0 < length wanted.now }
    requires short { length wanted.now < u32_max }
    // The table of the steps that are kept, and no other.
    ensures edited { IfOk result (λ edited. IsEdited problem.now table.now wanted.now edited) }
    ensures editable { IfOk result (λ edited. IsEditable problem.now table.now prefix wanted.now) }

    // It is a table, each proper instance of each of its kernels carries the steps that are left to its goal, and each step serves a row.
    ensures table { IfOk result (λ edited. IsTable problem.now edited) }
    ensures kernels { IfOk result (λ edited. KernelsCarry problem.now edited) }
    ensures serves { IfOk result (λ edited. EachStepServes edited) }

    // It is as short, and its proofs are as low, as those of a learned table.
    ensures few_steps { IfOk result (λ edited. length edited.steps ≤ most_steps) }
    ensures low { IfOk result (λ edited. All (All (λ d. height d ≤ most_kept_height)) (rows_of edited.proofs)) }

    // Each refusal comes exactly where its cause is there and none before it in this order is, unless memory runs out.
    ensures bad_prefix { (result ≡ Err EditErr.BadPrefix) ↔ IsBadPrefix table.now prefix }
    ensures bad_want { (place : ℕ) → (result ≡ Err (EditErr.BadWant place))
        ↔ ((¬ IsBadPrefix table.now prefix) × IsFirstBadWant problem.now table.now prefix wanted.now place) }
    ensures too_long { result ≡ Err EditErr.TooLong → IsEditable problem.now table.now prefix wanted.now
        × KeepsTooMany table.now wanted.now }
    ensures always_too_long { IsEditable problem.now table.now prefix wanted.now → KeepsTooMany table.now wanted.now
        → (result ≡ Err EditErr.TooLong) ⊎ (result ≡ Err EditErr.NoMemory) }
    ensures too_deep { result ≡ Err EditErr.TooDeep → IsEditable problem.now table.now prefix wanted.now
        × (¬ KeepsTooMany table.now wanted.now) × KeepsTooDeep table.now wanted.now }
    ensures always_too_deep { IsEditable problem.now table.now prefix wanted.now → ¬ KeepsTooMany table.now wanted.now
        → KeepsTooDeep table.now wanted.now → (result ≡ Err EditErr.TooDeep) ⊎ (result ≡ Err EditErr.NoMemory) }
{
    if is_bad_prefix(table, prefix) {
        return Err(EditErr::BadPrefix);
    }
    match first_bad_want(problem, table, prefix, wanted) {
        Some(place) => Err(EditErr::BadWant(place)),
        None => edit_editable(alloc, problem, table, prefix, wanted),
    }
}

/// Returns the edited table, where the prefix is there and the pairs are different adds of it.
fn edit_editable(
    alloc: Global,
    problem: &Problem,
    table: &Table,
    prefix: u32,
    wanted: &[(u32, u32)],
) -> Result<Table, EditErr>
    requires problem { IsValid problem.now }
    requires table { IsTable problem.now table.now }
    requires editable { IsEditable problem.now table.now prefix wanted.now }
    ensures edited { IfOk result (λ edited. IsEdited problem.now table.now wanted.now edited) }
    ensures allowed { IfOk result (λ _. IsWithinLimits table.now wanted.now) }
    ensures refused { IfErr result (Refuses table.now wanted.now) }
{
    match kept_numbers(alloc, table, wanted) {
        Ok(kept) => edit_kept(alloc, problem, table, prefix, wanted, &kept),
        Err(NoMemory) => Err(EditErr::NoMemory),
    }
}

/// Returns the edited table, where these are the kept steps, unless they are too many or a proof of their rows is too high.
fn edit_kept(
    alloc: Global,
    problem: &Problem,
    table: &Table,
    prefix: u32,
    wanted: &[(u32, u32)],
    kept: &[u32],
) -> Result<Table, EditErr>
    requires problem { IsValid problem.now }
    requires table { IsTable problem.now table.now }
    requires editable { IsEditable problem.now table.now prefix wanted.now }
    requires kept { AreKeptSteps table.now wanted.now kept.now }
    ensures edited { IfOk result (λ edited. IsEdited problem.now table.now wanted.now edited) }
    ensures allowed { IfOk result (λ _. IsWithinLimits table.now wanted.now) }
    ensures refused { IfErr result (Refuses table.now wanted.now) }
{
    if kept.len() > MOST_STEPS {
        return Err(EditErr::TooLong);
    }
    if has_high_row(table, kept) {
        return Err(EditErr::TooDeep);
    }
    match edited_table(alloc, problem, table, prefix, wanted, kept) {
        Ok(edited) => Ok(edited),
        Err(NoMemory) => Err(EditErr::NoMemory),
    }
}

/// Returns the edited table, where these are the kept steps.
fn edited_table(
    alloc: Global,
    problem: &Problem,
    table: &Table,
    prefix: u32,
    wanted: &[(u32, u32)],
    kept: &[u32],
) -> Result<Table, NoMemory>
    requires problem { IsValid problem.now }
    requires table { IsTable problem.now table.now }
    requires editable { IsEditable problem.now table.now prefix wanted.now }
    requires kept { AreKeptSteps table.now wanted.now kept.now }
    requires few { length kept.now ≤ most_steps }
    ensures { IfOk result (λ edited. IsEdited problem.now table.now wanted.now edited) }
{
    let steps = kept_steps(alloc, table, kept)?;
    let goal = wanted_atoms(alloc, problem, table, prefix, wanted)?;
    let rows = kept_rows(alloc, table, &goal, wanted, kept)?;
    renamed_table(alloc, problem, table.params, &steps, &goal, &rows)
}
