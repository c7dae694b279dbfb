//! Sorts of tables: which terms may stand in the steps, which objects fit the parameters, and the sort of a parameter by its places.
ghost use Rattle.std.specs.Prelude.{◌≡◌, ◌↔◌, ◌<◌, ◌≤◌, ◌==◌, ◌&&◌, ℕ, All, IfOk, IsTrue, length, not, slice_index, slice_index_or, take};
ghost use Rattle.px_terms.specs.declared.term.Term.TheVariants.{Any, Var};
ghost use Rattle.px_terms.specs.Language.{IsVariableBelow};
ghost use Rattle.px_terms.specs.Order.{term_eq};
ghost use Rattle.px_terms.specs.Operators.{schema_of as spec_schema_of};
ghost use Rattle.px_terms.specs.Sorts.{IsOfSort, IsWellSorted, MayStand};
ghost use Rattle.px_terms.specs.Validity.{AreSortsOf, IsInstanceOf, IsValid};
ghost use Rattle.px_table.specs.Kernels.{instance_under, steps_under};
ghost use Rattle.px_table.specs.Prefixes.{IsUsed};
ghost use Rattle.px_table.specs.Tables.{IsStepOf};
ghost use Rattle.px_table.specs.WellSorted.{IsWellSortedStep, ParametersFit, first_sort, paired, sort_places, sorts_by_places as sorts_of_places};

use crate::table::Table;
use crate::under_objects::instance_with;
use px_base::{NoMemory, Sequence};
use px_ops::schema_of;
use px_terms::{OpInst, Problem, Term, are_sorts_of, fits, fits_sort, objects_fit, sort_at};
use std::alloc::Global;

/// Returns whether the term may stand at a place of the wanted sort.
fn is_of_sort(sorts: &[u32], param_sorts: &[u32], wanted: u32, term: Term) -> bool
    ensures { IsTrue result ↔ IsOfSort sorts.now param_sorts.now wanted term }
{
    match term {
        Term::Obj(object) => fits_sort(sorts, wanted, object),
        Term::Var(parameter) => fits_sort(param_sorts, wanted, parameter),
        Term::Any => true,
    }
}

/// Returns whether each term may stand at its place.
fn may_stand(sorts: &[u32], param_sorts: &[u32], wanted: &[u32], args: &[Term]) -> bool
    ensures { IsTrue result ↔ MayStand sorts.now param_sorts.now wanted.now args.now }
{
    for (place, term) in args.iter().enumerate() {
        if !is_of_sort(sorts, param_sorts, sort_at(wanted, place), *term) {
            return false;
        }
    }
    true
}

/// Returns whether each term of the step may stand at its place.
fn is_well_sorted_step(problem: &Problem, param_sorts: &[u32], inst: &OpInst) -> bool
    requires problem { IsValid problem.now }
    requires op { inst.now.op < length problem.now.schemas }
    ensures { IsTrue result ↔ IsWellSortedStep problem.now param_sorts.now inst.now }
{
    let sorts = problem.object_sorts.as_slice();
    let schema = schema_of(problem, inst);
    may_stand(
        sorts,
        param_sorts,
        schema.param_sorts.as_slice(),
        inst.args(),
    )
}

/// Returns whether there is a sort of the problem for each parameter, and each term of each step may stand at its place.
pub fn are_well_sorted(
    problem: &Problem,
    params: u32,
    param_sorts: &[u32],
    steps: &[OpInst],
) -> bool
    requires problem { IsValid problem.now }
    requires steps { All (IsStepOf problem.now params) steps.now }
    ensures { IsTrue result ↔ ((length param_sorts.now ≡ params) × AreSortsOf problem.now param_sorts.now
        × All (IsWellSortedStep problem.now param_sorts.now) steps.now) }
{
    if param_sorts.len() != params as usize || !are_sorts_of(problem, param_sorts) {
        return false;
    }
    for inst in steps {
        if !is_well_sorted_step(problem, param_sorts, inst) {
            return false;
        }
    }
    true
}

/// Returns whether each object fits its parameter's sort. Does not allocate.
pub fn fit_parameters(problem: &Problem, table: &Table, sigma: &[u32]) -> bool
    ensures { IsTrue result ↔ ParametersFit problem.now.object_sorts table.now sigma.now }
{
    let sorts = problem.object_sorts.as_slice();
    objects_fit(sorts, table.param_sorts.as_slice(), sigma)
}

/// Returns whether each of the steps fits, with the objects of `sigma` for the parameters.
fn all_fit(problem: &Problem, sigma: &[u32], steps: &[OpInst]) -> bool
    requires variables { All (λ step. All (IsVariableBelow (length sigma.now)) step.args) steps.now }
    requires instances { All (λ step. IsInstanceOf problem.now (instance_under sigma.now step)) steps.now }
    ensures { IsTrue result ↔ All (λ step. IsWellSorted problem.now (instance_under sigma.now step)) steps.now }
{
    for step in steps {
        if !fits(problem, &instance_with(sigma, step)) {
            return false;
        }
    }
    true
}

/// Returns whether each of the first steps fits, with the objects of `sigma` for the parameters.
pub fn steps_fit(problem: &Problem, table: &Table, prefix: u32, sigma: &[u32]) -> bool
    requires steps { All (IsStepOf problem.now table.now.params) table.now.steps }
    requires within { prefix ≤ length table.now.steps }
    requires count { length sigma.now ≡ table.now.params }
    requires used { (v : ℕ) → v < table.now.params → IsUsed table.now prefix v → slice_index sigma.now v < problem.now.objects }
    ensures { IsTrue result ↔ All (IsWellSorted problem.now) (take prefix (steps_under table.now sigma.now)) }
{
    let steps = table.steps.as_slice();
    all_fit(problem, sigma, &steps[..prefix as usize])
}

/// Returns whether the place has a sort, and the parameter stands there.
fn stands_sorted(wanted: &[u32], args: &[Term], place: usize, parameter: u32) -> bool
    requires { place < length args.now }
    ensures { result ≡ (term_eq (slice_index_or args.now place Any) (Var parameter) && not (slice_index wanted.now place == 0)) }
{
    args[place] == Term::Var(parameter) && sort_at(wanted, place) != 0
}

/// Returns the first sort other than 0 of the places at which the parameter stands, or 0, where the places want these sorts. Does not
/// allocate.
pub fn sort_in_step(wanted: &[u32], args: &[Term], parameter: u32) -> u32
    ensures { result ≡ first_sort (paired wanted.now args.now) parameter }
{
    for place in 0..args.len() {
        if stands_sorted(wanted, args, place, parameter) {
            return sort_at(wanted, place);
        }
    }
    0
}

/// Returns the sorts of the parameters of the step's operator; none where the problem has no such operator.
fn sorts_of_step<'a>(problem: &'a Problem, inst: &OpInst) -> &'a [u32]
    ensures { result.now ≡ (spec_schema_of problem.now inst.now).param_sorts }
{
    match problem.schemas.as_slice().get(inst.op() as usize) {
        Some(schema) => schema.param_sorts.as_slice(),
        None => &[],
    }
}

/// Returns the sort of the parameter by the places of the steps at which it stands.
fn sort_by_places(problem: &Problem, steps: &[OpInst], parameter: u32) -> u32
    ensures { result ≡ first_sort (sort_places problem.now steps.now) parameter }
{
    for inst in steps {
        let sort = sort_in_step(sorts_of_step(problem, inst), inst.args(), parameter);
        if sort != 0 {
            return sort;
        }
    }
    0
}

/// Returns the sort of each parameter by the places of the steps at which it stands: the first sort other than 0 of those places, or 0.
///
/// # Errors
/// `NoMemory` where there is no memory for the list.
pub fn sorts_by_places(
    alloc: Global,
    problem: &Problem,
    steps: &[OpInst],
    params: u32,
) -> Result<Sequence<u32>, NoMemory>
    ensures { IfOk result (λ sorts. sorts ≡ sorts_of_places problem.now steps.now params) }
{
    let mut sorts = Vec::new(alloc);
    for parameter in 0..params {
        sorts.push(sort_by_places(problem, steps, parameter))?;
    }
    Ok(Sequence::from_vec(sorts))
}
