//! Which objects make the first steps of a table a MACROP, where it is known which parameters these use.
ghost use Rattle.std.specs.Prelude.{◌≡◌, ◌↔◌, ◌<◌, ◌≤◌, ℕ, List, false, All, Any, EachIndex, IsTrue, length, map as map_list, slice_index, take};
ghost use Rattle.px_table.specs.Kernels.{atom_under, instance_under, mark_under, steps_under};
ghost use Rattle.px_table.specs.Marks.{IsKept};
ghost use Rattle.px_table.specs.Prefixes.{IsAllowedNumber, IsMacro, IsProperPrefix, IsUsed};
ghost use Rattle.px_table.specs.Tables.{IsTable};
ghost use Rattle.px_terms.specs.Language.{IsVariableBelow};
ghost use Rattle.px_terms.specs.Operators.{IsDeleted, schema_of as spec_schema_of};
ghost use Rattle.px_terms.specs.Sorts.{IsWellSorted};
ghost use Rattle.px_terms.specs.Validity.{IsInstanceOf, IsValid};
ghost use Rattle.px_diff.specs.Macros.{IsMacroPrefix};

use crate::prefix::Prefix;
use px_ops::schema_of;
use px_table::{Mark, Table, instance_with, proper_prefix};
use px_terms::{OpInst, Problem, Term, fits};

// Alike: `is_allowed`, `are_allowed`, `all_fit` and `steps_fit` of `px_table`, which look for the parameters' uses anew each time.
/// Returns whether the parameter may have this number.
fn is_allowed(prefix: &Prefix, parameter: usize, number: u32) -> bool
    requires prefix { IsMacroPrefix prefix.now }
    requires parameter { parameter < prefix.now.table.now.params }
    ensures { IsTrue result ↔ IsAllowedNumber prefix.now.request.problem.now prefix.now.table.now prefix.now.count parameter number }
{
    match prefix.start[parameter] {
        Term::Obj(object) => number == object,
        Term::Var(_) | Term::Any => number < prefix.request.problem.objects,
    }
}

/// Returns whether each parameter has a number that it may have.
fn are_allowed(prefix: &Prefix, sigma: &[u32]) -> bool
    requires prefix { IsMacroPrefix prefix.now }
    requires sigma { length sigma.now ≡ prefix.now.table.now.params }
    ensures { IsTrue result ↔ EachIndex sigma.now (λ v. IsAllowedNumber prefix.now.request.problem.now prefix.now.table.now prefix.now.count v
        (slice_index sigma.now v)) }
{
    for (parameter, number) in sigma.iter().enumerate() {
        if !is_allowed(prefix, parameter, *number) {
            return false;
        }
    }
    true
}

/// Returns whether each of the steps fits, with the objects for the parameters.
fn all_fit(problem: &Problem, sigma: &[u32], steps: &[OpInst]) -> bool
    requires variables { All (λ step. All (IsVariableBelow (length sigma.now)) step.args) steps.now }
    requires instances { All (λ step. IsInstanceOf problem.now (instance_under sigma.now step)) steps.now }
    ensures { IsTrue result ↔ All (λ step. IsWellSorted problem.now (instance_under sigma.now step)) steps.now }
{
    for step in steps {
        if !fits(problem, &instance_with(sigma, step)) {
            return false;
        }
    }
    true
}

/// Returns whether each of the first steps fits, with the objects for the parameters.
fn steps_fit(prefix: &Prefix, sigma: &[u32]) -> bool
    requires prefix { IsMacroPrefix prefix.now }
    requires count { length sigma.now ≡ prefix.now.table.now.params }
    requires used { (v : ℕ) → v < prefix.now.table.now.params → IsUsed prefix.now.table.now prefix.now.count v → slice_index sigma.now v
        < prefix.now.request.problem.now.objects }
    ensures { IsTrue result ↔ All (IsWellSorted prefix.now.request.problem.now) (take prefix.now.count (steps_under prefix.now.table.now
        sigma.now)) }
{
    let steps = prefix.table.steps.as_slice();
    all_fit(
        prefix.request.problem,
        sigma,
        &steps[..prefix.count as usize],
    )
}

/// Returns whether none of the first steps deletes a mark of their rows that it stands between, with the objects for the parameters.
fn is_proper(prefix: &Prefix, sigma: &[u32]) -> bool
    requires prefix { IsMacroPrefix prefix.now }
    requires sigma { length sigma.now ≡ prefix.now.table.now.params }
    ensures { IsTrue result ↔ IsProperPrefix prefix.now.request.problem.now prefix.now.table.now prefix.now.count sigma.now }
{
    if prefix.keeps_marks {
        return true;
    }
    proper_prefix(prefix.request.problem, prefix.table, prefix.count, sigma)
}

/// Returns whether the first steps with these objects are a MACROP.
pub fn is_macro_of(prefix: &Prefix, sigma: &[u32]) -> bool
    requires { IsMacroPrefix prefix.now }
    ensures { IsTrue result ↔ IsMacro prefix.now.request.problem.now prefix.now.table.now prefix.now.count sigma.now }
{
    if sigma.len() != prefix.table.params as usize {
        return false;
    }
    if !are_allowed(prefix, sigma) {
        return false;
    }
    steps_fit(prefix, sigma) && is_proper(prefix, sigma)
}

/// Returns whether one of the step's delete patterns is about the predicate.
fn may_delete(problem: &Problem, step: &OpInst, pred: u32) -> bool
    requires problem { IsValid problem.now }
    requires op { step.now.op < length problem.now.schemas }
    ensures { IsTrue result ↔ Any (λ pattern. pattern.pred ≡ pred) (spec_schema_of problem.now step.now).del }
{
    let patterns = schema_of(problem, step).del.as_slice();
    patterns.iter().any(|pattern| pattern.pred() == pred)
}

/// Returns whether step `k` comes after the mark's column and before its row, and may delete its atom.
fn may_spoil(problem: &Problem, mark: &Mark, k: usize, step: &OpInst) -> bool
    requires problem { IsValid problem.now }
    requires op { step.now.op < length problem.now.schemas }
    ensures { result ≡ false → mark.now.column < k → k < mark.now.row → (sigma : List ℕ)
        → ¬ IsDeleted (spec_schema_of problem.now (instance_under sigma step.now)) (instance_under sigma step.now)
        (atom_under sigma mark.now.atom) }
{
    let between = (mark.column as usize) < k && k < mark.row as usize;
    between && may_delete(problem, step, mark.atom.pred())
}

/// Returns whether the mark is one of a later row, or no step between its column and its row may delete its atom, whatever objects the
/// parameters have.
fn stays(problem: &Problem, steps: &[OpInst], count: u32, mark: &Mark) -> bool
    requires problem { IsValid problem.now }
    requires steps { All (λ step. step.op < length problem.now.schemas) steps.now }
    ensures { IsTrue result → (sigma : List ℕ) → mark.now.row ≤ count
        → IsKept problem.now (map_list (instance_under sigma) steps.now) 1 (mark_under sigma mark.now) }
{
    if mark.row > count {
        return true;
    }
    for (before, step) in steps.iter().enumerate() {
        if may_spoil(problem, mark, before + 1, step) {
            return false;
        }
    }
    true
}

/// Returns whether it is sure that the first steps delete none of their marks, whatever objects the parameters have.
pub fn keep_marks(problem: &Problem, table: &Table, count: u32) -> bool
    requires problem { IsValid problem.now }
    requires table { IsTable problem.now table.now }
    ensures { IsTrue result → (sigma : List ℕ) → IsProperPrefix problem.now table.now count sigma }
{
    let steps = table.steps.as_slice();
    for mark in table.marks.as_slice() {
        if !stays(problem, steps, count, mark) {
            return false;
        }
    }
    true
}
