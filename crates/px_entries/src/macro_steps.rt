//! What the first steps of a table add, taken as one operator.
ghost use Rattle.std.specs.Prelude.{◌≡◌, ◌↔◌, ◌≤◌, false, length, take, All, Contains, IsTrue, IfOk};
ghost use Rattle.px_table.specs.Kernels.{steps_under};
ghost use Rattle.px_terms.specs.Instances.{IsGround};
ghost use Rattle.px_terms.specs.Language.{IsVariableBelow};
ghost use Rattle.px_terms.specs.Operators.{IsAdded, adds as adds_of, deletes as deletes_of};
ghost use Rattle.px_terms.specs.Validity.{IsInstanceOf, IsValid};
ghost use Rattle.px_gaps.specs.Closings.{OneOf};

use px_base::push;
use px_ops::{adds, deletes, schema_of};
use px_table::{Table, instance_with};
use px_terms::{Atom, NoMemory, OpInst, Problem};
use std::alloc::Global;

/// Returns the first `prefix` steps of the table, with the objects of `sigma` for the parameters.
///
/// # Errors
/// `NoMemory` if there isn't enough memory.
pub fn steps_with(
    alloc: Global,
    table: &Table,
    prefix: u32,
    sigma: &[u32],
) -> Result<Vec<OpInst>, NoMemory>
    requires prefix { prefix ≤ length table.now.steps }
    requires steps { All (λ inst. All (IsVariableBelow (length sigma.now)) inst.args) table.now.steps }
    ensures { IfOk result (λ steps. steps.items ≡ take prefix (steps_under table.now sigma.now)) }
{
    let mut steps = Vec::new(alloc);
    for place in 0..prefix {
        let step = instance_with(sigma, &table.steps.as_slice()[place as usize]);
        push(&mut steps, step)?;
    }
    Ok(steps)
}

/// Returns whether the step adds the atom.
fn step_adds(problem: &Problem, step: &OpInst, atom: &Atom) -> bool
    requires problem { IsValid problem.now }
    requires step { IsInstanceOf problem.now step.now }
    ensures { IsTrue result ↔ Contains (adds_of problem.now step.now) atom.now }
{
    let schema = schema_of(problem, step);
    for place in 0..schema.add.len() {
        if adds(schema, step, place) == *atom {
            return true;
        }
    }
    false
}

/// Returns whether none of the steps deletes the atom.
fn none_deletes(problem: &Problem, steps: &[OpInst], atom: &Atom) -> bool
    requires problem { IsValid problem.now }
    requires steps { All (IsInstanceOf problem.now) steps.now }
    requires is_ground { IsGround atom.now }
    ensures { IsTrue result ↔ All (λ later. deletes_of problem.now later atom.now ≡ false) steps.now }
{
    for later in steps {
        if deletes(schema_of(problem, later), later, atom) {
            return false;
        }
    }
    true
}

/// Returns whether some step adds the atom, and no later one deletes it.
fn is_added(problem: &Problem, steps: &[OpInst], atom: &Atom) -> bool
    requires problem { IsValid problem.now }
    requires steps { All (IsInstanceOf problem.now) steps.now }
    ensures { IsTrue result ↔ IsAdded problem.now steps.now atom.now }
{
    for place in 0..steps.len() {
        if step_adds(problem, &steps[place], atom)
            && none_deletes(problem, &steps[place + 1..], atom)
        {
            return true;
        }
    }
    false
}

/// Returns whether the steps together add one of the wanted atoms. What a later step deletes isn't added.
pub fn add_wanted(problem: &Problem, steps: &[OpInst], wanted: &[Atom]) -> bool
    requires problem { IsValid problem.now }
    requires steps { All (IsInstanceOf problem.now) steps.now }
    ensures { IsTrue result ↔ OneOf wanted.now (IsAdded problem.now steps.now) }
{
    for atom in wanted {
        if is_added(problem, steps, atom) {
            return true;
        }
    }
    false
}
