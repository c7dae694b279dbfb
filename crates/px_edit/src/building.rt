//! The table of some parts with names for their parameters.
ghost use Rattle.std.specs.Prelude.{◌≡◌, ◌≤◌, ◌<◌, All, IfOk, flat_map, length, map};
ghost use Rattle.px_base.specs.Bounds.{u32_max};
ghost use Rattle.px_terms.specs.Language.{IsVariableBelow};
ghost use Rattle.px_terms.specs.Substitution.{substitute_atom, substitute_instance};
ghost use Rattle.px_proof.specs.Derivation.{terms_of};
ghost use Rattle.px_proof.specs.ProofTerm.{derivation_of};
ghost use Rattle.px_proof.specs.Substitution.{derivation_under};
ghost use Rattle.px_table.specs.Parameters.{goal_terms, row_terms, step_terms};
ghost use Rattle.px_table.specs.Tables.{rows_of};
ghost use Rattle.px_edit.specs.Editing.{IsRenamedTable, names_by, parameters_in, terms_of_parts};

use crate::naming::names_along;
use crate::walking::walk;
use px_base::{NoMemory, Sequence, push};
use px_proof::{Proof, substitute};
use px_table::{Row, Table, marks, sorts_by_places};
use px_terms::{Atom, OpInst, Problem, Term, apply, apply_inst};
use std::alloc::Global;

/// Returns the steps with these names for their parameters.
fn named_steps(alloc: Global, names: &[Term], steps: &[OpInst]) -> Result<Vec<OpInst>, NoMemory>
    requires { All (IsVariableBelow (length names.now)) (step_terms steps.now) }
    ensures { IfOk result (λ made. made.items ≡ map (substitute_instance names.now) steps.now) }
{
    let mut made = Vec::new(alloc);
    for inst in steps {
        push(&mut made, apply_inst(names, inst))?;
    }
    Ok(made)
}

/// Returns the goal with these names for its parameters.
fn named_goal(alloc: Global, names: &[Term], goal: &[Atom]) -> Result<Vec<Atom>, NoMemory>
    requires { All (IsVariableBelow (length names.now)) (goal_terms goal.now) }
    ensures { IfOk result (λ made. made.items ≡ map (substitute_atom names.now) goal.now) }
{
    let mut made = Vec::new(alloc);
    for atom in goal {
        push(&mut made, apply(names, atom))?;
    }
    Ok(made)
}

/// Returns the proofs with these names for their parameters.
fn named_proofs(alloc: Global, names: &[Term], proofs: &[Proof]) -> Result<Vec<Proof>, NoMemory>
    requires { All (IsVariableBelow (length names.now)) (flat_map terms_of (map derivation_of proofs.now)) }
    ensures { IfOk result (λ made. map derivation_of made.items ≡ map (derivation_under names.now) (map derivation_of proofs.now)) }
{
    let mut made = Vec::new(alloc);
    for proof in proofs {
        let one = substitute(alloc, proof, names)?;
        push(&mut made, one)?;
    }
    Ok(made)
}

/// Returns the rows with these names for their parameters.
fn named_rows(alloc: Global, names: &[Term], rows: &[Row]) -> Result<Vec<Row>, NoMemory>
    requires { All (IsVariableBelow (length names.now)) (row_terms (rows_of rows.now)) }
    ensures { IfOk result (λ made. rows_of made.items ≡ map (map (derivation_under names.now)) (rows_of rows.now)) }
{
    let mut made = Vec::new(alloc);
    for row in rows {
        let proofs = named_proofs(alloc, names, row.proofs())?;
        push(&mut made, Row::from_proofs(proofs))?;
    }
    Ok(made)
}

/// Returns the table of these steps, this goal and these rows with the names for their parameters, of which `params` are left.
fn named_table(
    alloc: Global,
    problem: &Problem,
    params: u32,
    names: &[Term],
    steps: &[OpInst],
    goal: &[Atom],
    rows: &[Row],
) -> Result<Table, NoMemory>
    requires steps { All (IsVariableBelow (length names.now)) (step_terms steps.now) }
    requires goal { All (IsVariableBelow (length names.now)) (goal_terms goal.now) }
    requires rows { All (IsVariableBelow (length names.now)) (row_terms (rows_of rows.now)) }
    requires short { length rows.now ≤ u32_max }
    ensures params { IfOk result (λ made. made.params ≡ params) }
    ensures renamed { IfOk result (λ made. IsRenamedTable problem.now names.now steps.now goal.now (rows_of rows.now) made) }
{
    let steps = named_steps(alloc, names, steps)?;
    let goal = named_goal(alloc, names, goal)?;
    let rows = named_rows(alloc, names, rows)?;
    let found = marks(alloc, &rows)?;
    let sorts = sorts_by_places(alloc, problem, &steps, params)?;
    Ok(Table {
        params,
        steps: Sequence::from_vec(steps),
        goal: Sequence::from_vec(goal),
        goal_variable_count: 0,
        marks: found,
        proofs: Sequence::from_vec(rows),
        param_sorts: sorts,
    })
}

/// Returns the table of these steps, this goal and these rows over `params` parameters, with names for those of the parameters that occur.
pub fn renamed_table(
    alloc: Global,
    problem: &Problem,
    params: u32,
    steps: &[OpInst],
    goal: &[Atom],
    rows: &[Row],
) -> Result<Table, NoMemory>
    requires steps { All (IsVariableBelow params) (step_terms steps.now) }
    requires goal { All (IsVariableBelow params) (goal_terms goal.now) }
    requires rows { All (IsVariableBelow params) (row_terms (rows_of rows.now)) }
    requires short { length rows.now ≤ u32_max }
    ensures params { IfOk result (λ made. made.params
        ≡ length (parameters_in params (terms_of_parts steps.now goal.now (rows_of rows.now)))) }
    ensures renamed { IfOk result (λ made. IsRenamedTable problem.now
        (names_by params (parameters_in params (terms_of_parts steps.now goal.now (rows_of rows.now))))
        steps.now goal.now (rows_of rows.now) made) }
{
    let walked = walk(alloc, steps, goal, rows)?;
    let names = names_along(alloc, params, &walked)?;
    named_table(
        alloc,
        problem,
        names.params,
        &names.terms,
        steps,
        goal,
        rows,
    )
}
