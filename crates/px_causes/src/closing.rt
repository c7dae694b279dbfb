//! The end of a table's block whose parts make no table of the problem.
ghost use Rattle.std.specs.Prelude.{◌≡◌, IfOk};
ghost use Rattle.px_script.specs.Faults.{is_bad_table};
ghost use Rattle.px_script.specs.Statements as spec;
ghost use Rattle.px_causes.specs.Common.{AreInRange, declared_of, statement_view};

use px_base::NoMemory;
use px_so_far::SoFar;
use px_statements::Statement;

/// Returns whether the line closes a table's block that is bad.
///
/// # Errors
/// `NoMemory` where there is no memory to look.
pub fn closes_bad_table(so_far: &SoFar, statement: Statement<'_, '_>) -> Result<bool, NoMemory>
    requires { AreInRange (declared_of so_far.now) }
    ensures { IfOk result (λ bad. bad ≡ is_bad_table (declared_of so_far.now) (statement_view statement.entry)) }
{
    match statement {
        Statement::End => has_bad_table(so_far),
        _ => Ok(false),
    }
}

/// Returns whether the open block is a table's that is bad.
fn has_bad_table(so_far: &SoFar) -> Result<bool, NoMemory>
    requires { AreInRange (declared_of so_far.now) }
    ensures { IfOk result (λ bad. bad ≡ is_bad_table (declared_of so_far.now) spec.end) }
{
    match so_far.open_table() {
        Some(table) => {
            let problem = so_far.problem_here()?;
            let bad = table.is_bad(so_far.alloc, &problem);
            drop(problem);
            bad
        }
        None => Ok(false),
    }
}
