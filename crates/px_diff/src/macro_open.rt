//! Decides by the facts whether a MACROP is open. Where no axiom mentions a predicate that some operator adds, and the steps delete only
//! atoms of such predicates, each atom of a row is decided by itself, and may be asked from the whole model.
ghost use Rattle.std.specs.Prelude.{◌↔◌, ◌≤◌, ◌<◌, length, All, IfOk, IfSome, IsTrue, MatchBool};
ghost use Rattle.px_table.specs.Kernels.{atom_under};
ghost use Rattle.px_table.specs.Prefixes.{IsMacro};
ghost use Rattle.px_table.specs.Tables.{IsTable};
ghost use Rattle.px_terms.specs.Language.{IsVariableBelow};
ghost use Rattle.px_terms.specs.Operators.{IsAddable};
ghost use Rattle.px_terms.specs.Validity.{IsAtomOf, IsValid};
ghost use Rattle.px_diff.specs.MacroOpen.{DeletesAddable, FactsSuffice, IsNeeded, IsSettledMark};
ghost use Rattle.px_diff.specs.Macros.{IsMacroPrefix};

use crate::prefix::Prefix;
use px_entries::{axioms_mention_addable, is_settled};
use px_ops::{is_addable, schema_of};
use px_table::{Mark, Table, atom_with};
use px_terms::{Atom, NoMemory, OpInst, Problem};

/// Returns whether some operator adds the predicate of each atom.
fn are_addable(problem: &Problem, atoms: &[Atom]) -> bool
    ensures { IsTrue result ↔ All (IsAddable problem.now) atoms.now }
{
    for atom in atoms {
        if !is_addable(problem, atom) {
            return false;
        }
    }
    true
}

/// Returns whether the step deletes only atoms whose predicates some operator adds.
fn deletes_addable(problem: &Problem, step: &OpInst) -> bool
    requires problem { IsValid problem.now }
    requires op { step.now.op < length problem.now.schemas }
    ensures { IsTrue result ↔ DeletesAddable problem.now step.now }
{
    are_addable(problem, schema_of(problem, step).del.as_slice())
}

/// Returns whether each step deletes only atoms that some operator may add.
fn delete_addable(problem: &Problem, steps: &[OpInst]) -> bool
    requires problem { IsValid problem.now }
    requires steps { All (λ step. step.op < length problem.now.schemas) steps.now }
    ensures { IsTrue result ↔ All (DeletesAddable problem.now) steps.now }
{
    for step in steps {
        if !deletes_addable(problem, step) {
            return false;
        }
    }
    true
}

/// Returns whether the facts suffice to decide which MACROPs of the table are open, so that [`are_settled_marks`] decides it.
pub fn facts_suffice(problem: &Problem, table: &Table) -> bool
    requires problem { IsValid problem.now }
    requires table { IsTable problem.now table.now }
    ensures { IsTrue result ↔ FactsSuffice problem.now table.now }
{
    if axioms_mention_addable(problem) {
        return false;
    }
    delete_addable(problem, table.steps.as_slice())
}

/// Returns whether the mark is one of the first rows that comes from the initial model.
fn is_needed(mark: &Mark, prefix: u32) -> bool
    ensures { IsTrue result ↔ IsNeeded prefix mark.now }
{
    mark.column == 0 && 1 <= mark.row && mark.row <= prefix
}

/// Returns whether the mark isn't one of the first rows from the initial model, or its atom is one that operators add or that is provable.
/// `None` where asking meets the limit of shapes.
fn is_settled_mark(prefix: &Prefix, sigma: &[u32], mark: &Mark) -> Result<Option<bool>, NoMemory>
    requires prefix { IsMacroPrefix prefix.now }
    requires variables { All (IsVariableBelow (length sigma.now)) mark.now.atom.args }
    requires atom { mark.now.row ≤ prefix.now.count → IsAtomOf prefix.now.request.problem.now 0 (atom_under sigma.now mark.now.atom) }
    ensures { IfOk result (λ found. IfSome found (λ settled. MatchBool settled
        (IsSettledMark prefix.now.request.problem.now prefix.now.request.model.now.atoms prefix.now.count sigma.now mark.now)
        (¬ IsSettledMark prefix.now.request.problem.now prefix.now.request.model.now.atoms prefix.now.count sigma.now mark.now))) }
{
    if !is_needed(mark, prefix.count) {
        return Ok(Some(true));
    }
    let atom = atom_with(sigma, &mark.atom);
    is_settled(
        prefix.alloc,
        prefix.request.problem,
        &atom,
        prefix.request.model,
    )
}

/// Returns whether each mark that the first rows need of the model before the first step has an atom that operators add or that is
/// provable; `None` where asking for one meets the limit of shapes. Where the facts suffice and no question about an entry is ever
/// limited, this says that the MACROP with these objects is open. The prover is asked only about atoms that axioms conclude and that
/// aren't facts, and takes the whole model for all rows.
pub fn are_settled_marks(prefix: &Prefix, sigma: &[u32]) -> Result<Option<bool>, NoMemory>
    requires prefix { IsMacroPrefix prefix.now }
    requires sigma { IsMacro prefix.now.request.problem.now prefix.now.table.now prefix.now.count sigma.now }
    ensures { IfOk result (λ found. IfSome found (λ settled. MatchBool settled
        (All (IsSettledMark prefix.now.request.problem.now prefix.now.request.model.now.atoms prefix.now.count sigma.now)
        prefix.now.table.now.marks) (¬ All (IsSettledMark prefix.now.request.problem.now prefix.now.request.model.now.atoms prefix.now.count
        sigma.now) prefix.now.table.now.marks))) }
{
    let marks = prefix.table.marks.as_slice();
    for mark in marks {
        match is_settled_mark(prefix, sigma, mark)? {
            Some(true) => {}
            Some(false) => return Ok(Some(false)),
            None => return Ok(None),
        }
    }
    Ok(Some(true))
}
