//! What sorts exclude, so that no question is asked about what doesn't fit.
ghost use Rattle.std.specs.Prelude.{◌≡◌, ◌<◌, ◌≤◌, ℕ, List, false, length, map as map_list, slice_index};
ghost use Rattle.px_prover.specs.Patterns.{object_under};
ghost use Rattle.px_table.specs.Kernels.{instance_under};
ghost use Rattle.px_table.specs.Prefixes.{IsMacro};
ghost use Rattle.px_table.specs.Tables.{IsStepOf};
ghost use Rattle.px_terms.specs.Sorts.{FitsSort, IsWellSorted, ObjectsFit};
ghost use Rattle.px_terms.specs.Validity.{IsValid};
ghost use Rattle.px_terms.specs.declared.instance.OpInst.{OpInst as InstanceValue};
ghost use Rattle.px_gaps.specs.Bindings.{ExtendsTerms, IsBinding};
ghost use Rattle.px_diff.specs.Gathering.{AreObjectsFor, instance_by};
ghost use Rattle.px_diff.specs.Macros.{IsMacroPrefix};
ghost use Rattle.px_entries.specs.Instances.{IsPartialInstance, StandsFor};

use crate::prefix::Prefix;
use px_entries::PartialInstance;
use px_gaps::{Sorting, sort_of};
use px_ops::schema_of;
use px_table::Table;
use px_terms::{MOST_PARAMETERS, OpInst, Problem, Term, apply_inst, fits_sort, sort_at};

/// Returns false only where an object among the terms is of another sort than its place.
fn objects_may_stand(sorting: &Sorting, terms: &[Term]) -> bool
    ensures { result ≡ false → (values : List ℕ)
        → ¬ ObjectsFit sorting.now.object_sorts.now sorting.now.wanted.now (map_list (object_under values) terms.now) }
{
    for (place, term) in terms.iter().enumerate() {
        let wanted = sort_at(sorting.wanted, place);
        match term {
            Term::Obj(object) => {
                if !fits_sort(sorting.object_sorts, wanted, *object) {
                    return false;
                }
            }
            Term::Var(_) | Term::Any => {}
        }
    }
    true
}

/// Returns false only where no instance that the partial one stands for fits: where an object stands at a place of another sort.
pub fn may_fit(problem: &Problem, partial: &PartialInstance) -> bool
    requires problem { IsValid problem.now }
    requires partial { IsPartialInstance problem.now partial.now }
    ensures { result ≡ false → (full : InstanceValue) → StandsFor problem.now partial.now full → ¬ IsWellSorted problem.now full }
{
    let sorting = Sorting {
        object_sorts: problem.object_sorts.as_slice(),
        wanted: schema_of(problem, &partial.inst).param_sorts.as_slice(),
    };
    objects_may_stand(&sorting, partial.inst.args())
}

/// Returns the sort that the object of each variable has to have, or 0: the first sort other than 0 of the places at which it stands.
pub fn variable_sorts(problem: &Problem, partial: &PartialInstance) -> [u32; MOST_PARAMETERS]
    requires problem { IsValid problem.now }
    requires partial { IsPartialInstance problem.now partial.now }
    ensures { (objects : List ℕ) → AreObjectsFor problem.now partial.now objects
        → IsWellSorted problem.now (instance_by partial.now objects) → ObjectsFit problem.now.object_sorts result objects }
{
    let sorting = Sorting {
        object_sorts: problem.object_sorts.as_slice(),
        wanted: schema_of(problem, &partial.inst).param_sorts.as_slice(),
    };
    let mut sorts = [0; MOST_PARAMETERS];
    for variable in 0..partial.variable_count {
        sorts[variable as usize] = sort_of(&sorting, partial.inst.args(), variable);
    }
    sorts
}

/// Returns false only where no objects that extend the terms make the step fit: where an object stands at a place of another sort.
fn step_may_fit(problem: &Problem, step: &OpInst, terms: &[Term]) -> bool
    requires problem { IsValid problem.now }
    requires binding { IsBinding problem.now.objects terms.now }
    requires step { IsStepOf problem.now (length terms.now) step.now }
    ensures { result ≡ false → (sigma : List ℕ) → ExtendsTerms problem.now.objects terms.now sigma
        → ¬ IsWellSorted problem.now (instance_under sigma step.now) }
{
    let sorting = Sorting {
        object_sorts: problem.object_sorts.as_slice(),
        wanted: schema_of(problem, step).param_sorts.as_slice(),
    };
    let here = apply_inst(terms, step);
    objects_may_stand(&sorting, here.args())
}

/// Returns false only where no objects that extend the terms make these steps of the table fit.
pub fn steps_may_fit(prefix: &Prefix, terms: &[Term]) -> bool
    requires prefix { IsMacroPrefix prefix.now }
    requires binding { IsBinding prefix.now.request.problem.now.objects terms.now }
    ensures { result ≡ false → (sigma : List ℕ) → ExtendsTerms prefix.now.request.problem.now.objects terms.now sigma
        → ¬ IsMacro prefix.now.request.problem.now prefix.now.table.now prefix.now.count sigma }
{
    let problem = prefix.request.problem;
    if problem.sorts == 0 || terms.len() != prefix.table.params as usize {
        return true;
    }
    for place in 0..prefix.count as usize {
        if !step_may_fit(problem, &prefix.table.steps.as_slice()[place], terms) {
            return false;
        }
    }
    true
}

/// Returns the object that the argument is with the terms for the parameters, if it is one.
fn object_with(terms: &[Term], arg: Term) -> Option<u32> {
    match arg {
        Term::Obj(object) => Some(object),
        Term::Var(parameter) => match terms.get(parameter as usize) {
            Some(Term::Obj(object)) => Some(*object),
            _ => None,
        },
        Term::Any => None,
    }
}

/// Returns whether no object stands at a place of the step that has another sort, with the terms for the parameters.
fn step_stands(problem: &Problem, terms: &[Term], step: &OpInst) -> bool {
    let wanted = match problem.schemas.as_slice().get(step.op() as usize) {
        Some(schema) => schema.param_sorts.as_slice(),
        None => return true,
    };
    let sorts = problem.object_sorts.as_slice();
    for (place, arg) in step.args().iter().enumerate() {
        if let Some(object) = object_with(terms, *arg) {
            if !fits_sort(sorts, sort_at(wanted, place), object) {
                return false;
            }
        }
    }
    true
}

/// Returns whether no object among the terms is of another sort than its places in the steps up to the row have. Each MACROP that has the
/// row has these steps. Nothing rests on the answer.
pub fn row_may_fit(problem: &Problem, table: &Table, row: u32, terms: &[Term]) -> bool {
    if problem.sorts == 0 {
        return true;
    }
    let steps = table.steps.as_slice();
    for place in 0..steps.len().min(row as usize) {
        if !step_stands(problem, terms, &steps[place]) {
            return false;
        }
    }
    true
}

/// Returns the sort that the object of the parameter has to have, or 0: the first sort other than 0 of the places of these steps at which
/// it stands.
pub fn parameter_sort(prefix: &Prefix, parameter: u32) -> u32
    requires prefix { IsMacroPrefix prefix.now }
    ensures { (sigma : List ℕ) → IsMacro prefix.now.request.problem.now prefix.now.table.now prefix.now.count sigma → parameter < length sigma
        → FitsSort prefix.now.request.problem.now.object_sorts result (slice_index sigma parameter) }
{
    let problem = prefix.request.problem;
    if problem.sorts == 0 {
        return 0;
    }
    let count = prefix.count as usize;
    for place in 0..count {
        let step = &prefix.table.steps.as_slice()[place];
        let sorting = Sorting {
            object_sorts: problem.object_sorts.as_slice(),
            wanted: schema_of(problem, step).param_sorts.as_slice(),
        };
        let sort = sort_of(&sorting, step.args(), parameter);
        if sort != 0 {
            return sort;
        }
    }
    0
}
