//! The first steps of a table, taken as one operator.
ghost use Rattle.std.specs.Prelude.{◌≡◌, ◌↔◌, ◌≤◌, All, Any, Contains, EachIndex, IsTrue, length, slice_index};
ghost use Rattle.px_terms.specs.declared.term.Term.TheVariants.{Var};
ghost use Rattle.px_terms.specs.Validity.{IsAtomOf, IsValid};
ghost use Rattle.px_table.specs.Kernels.{mark_under, steps_under};
ghost use Rattle.px_table.specs.Marks.{IsKept};
ghost use Rattle.px_table.specs.Prefixes.{IsMacro, IsAllowedNumber, IsProperPrefix, IsUsed};
ghost use Rattle.px_table.specs.Tables.{IsStepOf, IsTable};

use crate::mark::Mark;
use crate::proper_instance::is_kept;
use crate::table::Table;
use crate::well_sorted::steps_fit;
use px_terms::{OpInst, Problem, Term};

/// Returns whether a search may take these first steps of the table, with the objects, as one operator (Fikes, Hart and Nilsson 1972):
/// whether they are two or more, there is an object of the problem for each parameter that these steps or the marks of their rows use, and
/// object 0 for each other one, each of these steps fits, and none deletes a mark of their rows that it stands between (`proper_prefix`).
/// Does not allocate.
pub fn is_macro(problem: &Problem, table: &Table, prefix: u32, sigma: &[u32]) -> bool
    requires problem { IsValid problem.now }
    requires table { IsTable problem.now table.now }
    ensures { IsTrue result ↔ IsMacro problem.now table.now prefix sigma.now }
{
    if prefix < 2 || prefix as usize > table.steps.len() || sigma.len() != table.params as usize {
        return false;
    }
    if !are_allowed(problem, table, prefix, sigma) {
        return false;
    }
    steps_fit(problem, table, prefix, sigma) && proper_prefix(problem, table, prefix, sigma)
}

/// Returns whether no step, with the objects of `sigma` for the parameters, deletes a mark of the first rows between whose column and row
/// it stands. Marks of later rows don't count, and objects that the problem does not have may stand in `sigma`. Does not allocate.
pub fn proper_prefix(problem: &Problem, table: &Table, prefix: u32, sigma: &[u32]) -> bool
    requires problem { IsValid problem.now }
    requires table { IsTable problem.now table.now }
    requires sigma { length sigma.now ≡ table.now.params }
    ensures { IsTrue result ↔ IsProperPrefix problem.now table.now prefix sigma.now }
{
    for mark in table.marks.as_slice() {
        if !is_kept_within(problem, table, prefix, sigma, mark) {
            return false;
        }
    }
    true
}

/// Returns whether the mark is one of a later row, or kept by the steps.
fn is_kept_within(problem: &Problem, table: &Table, prefix: u32, sigma: &[u32], mark: &Mark) -> bool
    requires problem { IsValid problem.now }
    requires steps { All (IsStepOf problem.now table.now.params) table.now.steps }
    requires sigma { length sigma.now ≡ table.now.params }
    requires mark { IsAtomOf problem.now table.now.params mark.now.atom }
    ensures { IsTrue result ↔ (mark.now.row ≤ prefix → IsKept problem.now (steps_under table.now sigma.now) 1
        (mark_under sigma.now mark.now)) }
{
    if mark.row > prefix {
        return true;
    }
    is_kept(problem, table, sigma, 1, mark)
}

/// Returns whether the parameter occurs in the first steps, or in the marks of their rows. Does not allocate.
pub fn is_used(table: &Table, prefix: u32, parameter: u32) -> bool
    ensures { IsTrue result ↔ IsUsed table.now prefix parameter }
{
    let steps = table.steps.as_slice();
    let taken = (prefix as usize).min(steps.len());
    steps_use(&steps[..taken], parameter) || marks_use(table.marks.as_slice(), prefix, parameter)
}

/// Returns whether the variable of that number is among the terms.
fn has_variable(terms: &[Term], number: u32) -> bool
    ensures { IsTrue result ↔ Contains terms.now (Var number) }
{
    terms.contains(&Term::Var(number))
}

/// Returns whether the parameter occurs in the steps.
fn steps_use(steps: &[OpInst], parameter: u32) -> bool
    ensures { IsTrue result ↔ Any (λ inst. Contains inst.args (Var parameter)) steps.now }
{
    steps
        .iter()
        .any(|inst| has_variable(inst.args(), parameter))
}

/// Returns whether the parameter occurs in the marks of the first rows.
fn marks_use(marks: &[Mark], prefix: u32, parameter: u32) -> bool
    ensures { IsTrue result ↔ Any (λ mark. (mark.row ≤ prefix) × Contains mark.atom.args (Var parameter)) marks.now }
{
    marks.iter().any(|mark| mark.row <= prefix && has_variable(mark.atom.args(), parameter))
}

/// Returns whether the number is one that the parameter may have.
fn is_allowed(problem: &Problem, table: &Table, prefix: u32, parameter: u32, number: u32) -> bool
    ensures { IsTrue result ↔ IsAllowedNumber problem.now table.now prefix parameter number }
{
    if is_used(table, prefix, parameter) {
        return number < problem.objects;
    }
    number == 0
}

/// Returns whether each parameter has a number that it may have.
fn are_allowed(problem: &Problem, table: &Table, prefix: u32, sigma: &[u32]) -> bool
    requires { length sigma.now ≡ table.now.params }
    ensures { IsTrue result ↔ EachIndex sigma.now (λ v. IsAllowedNumber problem.now table.now prefix v (slice_index sigma.now v)) }
{
    for (parameter, number) in sigma.iter().enumerate() {
        if !is_allowed(problem, table, prefix, parameter as u32, *number) {
            return false;
        }
    }
    true
}
