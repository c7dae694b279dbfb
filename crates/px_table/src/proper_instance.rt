//! Proper instances of kernels.
ghost use Rattle.std.specs.Prelude.{◌≡◌, ◌↔◌, ◌<◌, ◌≤◌, ◌+◌, All, Any, IsTrue, length};
ghost use Rattle.px_terms.specs.Instances.{IsGround};
ghost use Rattle.px_terms.specs.Operators.{IsDeleted, schema_of as spec_schema_of};
ghost use Rattle.px_terms.specs.Validity.{IsAtomOf, IsValid};
ghost use Rattle.px_table.specs.Kernels.{IsInstantiation, IsProper, TailCarries, instance_under, mark_under, steps_under};
ghost use Rattle.px_table.specs.Marks.{IsKept};
ghost use Rattle.px_table.specs.Tables.{IsStepOf, IsTable};
ghost use Rattle.px_table.specs.WellSorted.{ParametersFit};

use crate::mark::Mark;
use crate::table::Table;
use crate::under_objects::{atom_with, instance_with};
use crate::well_sorted::fit_parameters;
use px_ops::{deletes, schema_of};
use px_terms::{Atom, OpInst, Problem, Schema};

/// Returns whether the instance of kernel `i` under the objects of `sigma` is proper: whether each object fits its parameter's sort, and no
/// step from `i` on deletes the instance of a mark between whose column and row it stands. Two parameters may have one object, and a step
/// may then delete what a later one needs.
///
/// A proper instance carries the steps from `i` on: in each run of them that begins in a state in which the instance holds,
/// in which the axioms hold throughout, and each step of which leaves what its operator describes, each precondition is
/// met, and a run of all of them ends in the goal (Lifschitz 1987). Does not allocate.
pub fn proper(problem: &Problem, table: &Table, sigma: &[u32], i: u32) -> bool
    requires problem { IsValid problem.now }
    requires table { IsTable problem.now table.now }
    requires sigma { IsInstantiation problem.now table.now sigma.now }
    requires number { (1 ≤ i) × (i ≤ length table.now.steps + 1) }
    ensures exact { IsTrue result ↔ (ParametersFit problem.now.object_sorts table.now sigma.now
        × IsProper problem.now table.now sigma.now i) }
    ensures carries { IsTrue result → TailCarries problem.now table.now sigma.now i }
{
    let objects_fit = fit_parameters(problem, table, sigma);
    objects_fit && are_kept(problem, table, sigma, i)
}

/// Returns whether the instance of each mark is kept by the steps from `first` on.
fn are_kept(problem: &Problem, table: &Table, sigma: &[u32], first: u32) -> bool
    requires problem { IsValid problem.now }
    requires table { IsTable problem.now table.now }
    requires sigma { IsInstantiation problem.now table.now sigma.now }
    ensures { IsTrue result ↔ IsProper problem.now table.now sigma.now first }
{
    for mark in table.marks.as_slice() {
        if !is_kept(problem, table, sigma, first, mark) {
            return false;
        }
    }
    true
}

/// Returns whether step `k` comes no earlier than `first`, after the mark's column and before its row.
fn stands_between(first: u32, mark: &Mark, k: usize) -> bool
    ensures { IsTrue result ↔ ((first ≤ k) × (mark.now.column < k) × (k < mark.now.row)) }
{
    first as usize <= k && (mark.column as usize) < k && k < mark.row as usize
}

/// Returns whether the mark's instance is kept by the steps from `first` on.
pub fn is_kept(problem: &Problem, table: &Table, sigma: &[u32], first: u32, mark: &Mark) -> bool
    requires problem { IsValid problem.now }
    requires steps { All (IsStepOf problem.now table.now.params) table.now.steps }
    requires sigma { length sigma.now ≡ table.now.params }
    requires mark { IsAtomOf problem.now table.now.params mark.now.atom }
    ensures { IsTrue result ↔ IsKept problem.now (steps_under table.now sigma.now) first (mark_under sigma.now mark.now) }
{
    let atom = atom_with(sigma, &mark.atom);
    for (before, step) in table.steps.as_slice().iter().enumerate() {
        if stands_between(first, mark, before + 1)
            && step_deletes(problem, table, sigma, step, &atom)
        {
            return false;
        }
    }
    true
}

/// Returns whether one of the operator's delete patterns is about the predicate.
fn may_delete(schema: &Schema, pred: u32) -> bool
    ensures { IsTrue result ↔ Any (λ pattern. pattern.pred ≡ pred) schema.now.del }
{
    let patterns = schema.del.as_slice();
    patterns.iter().any(|pattern| pattern.pred() == pred)
}

/// Returns whether the step's instance deletes the atom.
fn step_deletes(problem: &Problem, table: &Table, sigma: &[u32], step: &OpInst, atom: &Atom) -> bool
    requires problem { IsValid problem.now }
    requires step { IsStepOf problem.now table.now.params step.now }
    requires sigma { length sigma.now ≡ table.now.params }
    requires is_ground { IsGround atom.now }
    ensures { IsTrue result ↔ IsDeleted (spec_schema_of problem.now (instance_under sigma.now step.now)) (instance_under sigma.now step.now)
        atom.now }
{
    if !may_delete(schema_of(problem, step), atom.pred()) {
        return false;
    }
    let inst = instance_with(sigma, step);
    deletes(schema_of(problem, &inst), &inst, atom)
}
