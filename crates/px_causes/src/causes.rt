//! The first fault of a line.
ghost use Rattle.std.specs.Prelude.{◌≡◌, ◌∷◌, [], false, IfOk, IfSome, None, Some};
ghost use Rattle.px_script.specs.Faults.{fault_at, first_of};
ghost use Rattle.px_statements.specs.FactLines.{is_fact};
ghost use Rattle.px_lines.specs.LineViews.{line_view};
ghost use Rattle.px_causes.specs.Common.{coded, option_map, line_of, AreInRange, early_fault, late_fault, refusal_of, stage_view, declared_of, statement_view};

use crate::closing::closes_bad_table;
use crate::duplicates::has_duplicate;
use crate::limits::passed_limit;
use crate::line_fault::LineFault;
use crate::naming::{has_unknown_name, has_wrong_arity, is_unbound};
use crate::order::{is_out_of_order, is_unbuilt};
use px_base::NoMemory;
use px_lines::Line;
use px_so_far::SoFar;
use px_statements::Statement;

/// Returns that the line closes the block of a bad table, if it does.
fn bad_table(is_bad: bool) -> Option<LineFault>
    ensures { option_map refusal_of result ≡ first_of ((is_bad, coded 12) ∷ []) }
{
    if is_bad {
        Some(LineFault::BadTable)
    } else {
        None
    }
}

/// Returns the first fault of a line by what it says, in the order of the causes, but for the limit of facts; or `None`, where it has
/// none of them.
///
/// # Errors
/// `NoMemory` where there is no memory to look for it.
pub fn fault(
    so_far: &SoFar,
    stage: &[&str],
    line: &Line<'_>,
    statement: Statement<'_, '_>,
) -> Result<Option<LineFault>, NoMemory>
    requires range { AreInRange (declared_of so_far.now) }
    requires same { line_of (statement_view statement) ≡ line_view line.now }
    ensures early { IfOk result (λ fault. option_map refusal_of fault
        ≡ early_fault (stage_view stage.now) (declared_of so_far.now) (statement_view statement.entry)) }
    ensures found { IfOk result (λ fault. IfSome fault (λ one.
        fault_at (stage_view stage.now) (declared_of so_far.now) (statement_view statement.entry) ≡ Some (refusal_of one))) }
    ensures none { IfOk result (λ fault. fault ≡ None → is_fact (statement_view statement.entry) ≡ false
        → fault_at (stage_view stage.now) (declared_of so_far.now) (statement_view statement.entry) ≡ None) }
{
    early_fault(so_far, stage, line, statement)
}

/// Returns the first fault of a line, but for the limit of facts: the causes are tried in their order.
fn early_fault(
    so_far: &SoFar,
    stage: &[&str],
    line: &Line<'_>,
    statement: Statement<'_, '_>,
) -> Result<Option<LineFault>, NoMemory>
    requires range { AreInRange (declared_of so_far.now) }
    requires same { line_of (statement_view statement) ≡ line_view line.now }
    ensures { IfOk result (λ fault. option_map refusal_of fault
        ≡ early_fault (stage_view stage.now) (declared_of so_far.now) (statement_view statement.entry)) }
{
    if is_out_of_order(so_far, line) {
        Ok(Some(LineFault::Order))
    } else if is_unbuilt(stage, line) {
        Ok(Some(LineFault::NotBuilt))
    } else if has_unknown_name(so_far, line) {
        Ok(Some(LineFault::UnknownName))
    } else if has_duplicate(so_far, line, statement)? {
        Ok(Some(LineFault::Duplicate))
    } else if has_wrong_arity(so_far, line) {
        Ok(Some(LineFault::Arity))
    } else if is_unbound(so_far, line) {
        Ok(Some(LineFault::Unbound))
    } else {
        late_fault(so_far, line, statement)
    }
}

/// Returns the limit that the line passes, but for that of facts, or else whether it closes the block of a bad table.
fn late_fault(
    so_far: &SoFar,
    line: &Line<'_>,
    statement: Statement<'_, '_>,
) -> Result<Option<LineFault>, NoMemory>
    requires range { AreInRange (declared_of so_far.now) }
    requires same { line_of (statement_view statement) ≡ line_view line.now }
    ensures { IfOk result (λ fault. option_map refusal_of fault ≡ late_fault (declared_of so_far.now) (statement_view statement.entry)) }
{
    match passed_limit(so_far, line, statement)? {
        Some(limit) => Ok(Some(LineFault::Limit(limit))),
        None => {
            let is_bad = closes_bad_table(so_far, statement)?;
            Ok(bad_table(is_bad))
        }
    }
}
