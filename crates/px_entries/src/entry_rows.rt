//! What is known of an entry in a world model: row by row, each from what the steps before leave.
ghost use Rattle.std.specs.Prelude.{◌≡◌, ◌<◌, ◌==◌, ◌&&◌, ◌++◌, ◌∷◌, [], false, length, not, take, filter, slice_get, Some, All, IfOk, OnOk, MatchBool, IsTrue};
ghost use Rattle.px_terms.specs.AtomSets.{with_atom};
ghost use Rattle.px_terms.specs.Instances.{IsGround};
ghost use Rattle.px_table.specs.Kernels.{atom_under, steps_under};
ghost use Rattle.px_table.specs.Prefixes.{IsMacro};
ghost use Rattle.px_table.specs.Tables.{IsTable};
ghost use Rattle.px_terms.specs.Language.{IsVariableBelow};
ghost use Rattle.px_terms.specs.Operators.{deletes as deletes_of};
ghost use Rattle.px_terms.specs.Validity.{IsValid, IsAtomOf, IsGroundInstanceOf, IsInstanceOf};
ghost use Rattle.px_entries.specs.Entries.{IsEntry, initial_atoms, obligations_of, row_needs};
ghost use Rattle.px_gaps.specs.Known.{IsKnownOf};
ghost use Rattle.px_entries.specs.Learned.{AreLearned};
ghost use Rattle.px_entries.specs.Parameters.{row_formula as formula_by};

use crate::joining::{is_limited, joined};
use px_base::push;
use px_gaps::{Known, Tried, known_formula, try_formula};
use px_ops::{Model, deletes, precondition_of, schema_of};
use px_table::{Entry, Mark, Table, atom_with, instance_with};
use px_terms::{Atom, NoMemory, OpInst, Problem, Term, apply};
use std::alloc::Global;

/// Returns what is known of a formula without variables.
fn known_row(
    alloc: Global,
    problem: &Problem,
    formula: &[Atom],
    facts: &Model,
) -> Result<Known, NoMemory>
    requires problem { IsValid problem.now }
    requires formula { All (IsAtomOf problem.now 0) formula.now }
    ensures { IfOk result (IsKnownOf problem.now (record { formula = formula.now; variable_count = 0; facts = facts.now.atoms } ∷ [])) }
{
    match try_formula(alloc, problem, formula, 0, facts) {
        Ok(Tried::Answered) => Ok(Known::Applicable),
        Ok(Tried::Unanswered) => known_formula(alloc, problem, formula, 0, facts),
        Ok(Tried::Limited(limit)) => Ok(Known::Limited(limit)),
        Err(NoMemory) => Err(NoMemory),
    }
}

/// Returns whether the mark is one of the row that comes from the initial model.
pub fn is_initial(mark: &Mark, row: u32) -> bool
    ensures { result ≡ ((mark.now.row == row) && (mark.now.column == 0)) }
{
    mark.row == row && mark.column == 0
}

/// Appends the atom, where it is wanted.
pub fn push_wanted(atoms: &mut Vec<Atom>, atom: Atom, is_wanted: bool) -> Result<(), NoMemory>
    ensures { OnOk result (MatchBool is_wanted (atoms.new.items ≡ atoms.old.items ++ atom ∷ []) (atoms.new.items ≡ atoms.old.items)) }
{
    if is_wanted {
        push(atoms, atom)?;
    }
    Ok(())
}

/// Appends the mark's atom, with the objects of `sigma` for the parameters, where the mark is one of the row that comes from the initial
/// model.
fn push_initial(atoms: &mut Vec<Atom>, sigma: &[u32], mark: &Mark, row: u32) -> Result<(), NoMemory>
    requires mark { All (IsVariableBelow (length sigma.now)) mark.now.atom.args }
    ensures { OnOk result (MatchBool ((mark.now.row == row) && (mark.now.column == 0))
        (atoms.new.items ≡ atoms.old.items ++ atom_under sigma.now mark.now.atom ∷ []) (atoms.new.items ≡ atoms.old.items)) }
{
    if is_initial(mark, row) {
        push(atoms, atom_with(sigma, &mark.atom))?;
    }
    Ok(())
}

/// Returns the atoms of the row's marks that come from the initial model, with the objects of `sigma` for the parameters.
///
/// # Errors
/// `NoMemory` if there isn't enough memory.
pub fn initial_of(
    alloc: Global,
    table: &Table,
    sigma: &[u32],
    row: u32,
) -> Result<Vec<Atom>, NoMemory>
    requires marks { All (λ mark. All (IsVariableBelow (length sigma.now)) mark.atom.args) table.now.marks }
    ensures { IfOk result (λ atoms. atoms.items ≡ initial_atoms table.now sigma.now row) }
{
    let marks = table.marks.as_slice();
    let mut atoms = Vec::new(alloc);
    for mark in marks {
        push_initial(&mut atoms, sigma, mark, row)?;
    }
    Ok(atoms)
}

/// Returns whether the instance deletes none of the atoms.
fn none_is_deleted(problem: &Problem, inst: &OpInst, atoms: &[Atom]) -> bool
    requires problem { IsValid problem.now }
    requires inst { IsGroundInstanceOf problem.now inst.now }
    requires is_ground { All IsGround atoms.now }
    ensures { IsTrue result → All (λ atom. deletes_of problem.now inst.now atom ≡ false) atoms.now }
{
    let schema = schema_of(problem, inst);
    for atom in atoms {
        if deletes(schema, inst, atom) {
            return false;
        }
    }
    true
}

/// Puts the atom into the model, unless it is deleted.
fn insert_undeleted(left: &mut Model, atom: &Atom, is_deleted: bool) -> Result<(), NoMemory>
    requires { IsGround atom.now }
    ensures { OnOk result (MatchBool is_deleted (left.new.atoms ≡ left.old.atoms) (left.new.atoms ≡ with_atom atom.now left.old.atoms)) }
{
    if !is_deleted {
        left.insert(*atom)?;
    }
    Ok(())
}

/// Returns what the instance leaves of the facts, without what it adds.
///
/// # Errors
/// `NoMemory` if there isn't enough memory.
pub fn left_of(
    alloc: Global,
    problem: &Problem,
    facts: &Model,
    inst: &OpInst,
) -> Result<Model, NoMemory>
    requires problem { IsValid problem.now }
    requires inst { IsGroundInstanceOf problem.now inst.now }
    ensures { IfOk result (λ left. left.atoms ≡ filter (λ atom. not (deletes_of problem.now inst.now atom)) facts.now.atoms) }
{
    let schema = schema_of(problem, inst);
    let held = facts.atoms();
    let mut left = Model::new(alloc);
    for atom in held {
        let is_deleted = deletes(schema, inst, atom);
        insert_undeleted(&mut left, atom, is_deleted)?;
    }
    Ok(left)
}

/// Returns what the instance leaves of facts that are handed over. Does not allocate where the instance deletes none of them.
fn left_in_place(
    alloc: Global,
    problem: &Problem,
    facts: Model,
    inst: &OpInst,
) -> Result<Model, NoMemory>
    requires problem { IsValid problem.now }
    requires inst { IsGroundInstanceOf problem.now inst.now }
    ensures { IfOk result (λ left. left.atoms ≡ filter (λ atom. not (deletes_of problem.now inst.now atom)) facts.atoms) }
{
    let stay = none_is_deleted(problem, inst, facts.atoms());
    if stay {
        return Ok(facts);
    }
    left_of(alloc, problem, &facts, inst)
}

/// Returns the step at the place, with the objects of `sigma` for the parameters. Does not allocate.
pub fn step_under(table: &Table, sigma: &[u32], place: u32) -> OpInst
    requires place { place < length table.now.steps }
    requires steps { All (λ step. All (IsVariableBelow (length sigma.now)) step.args) table.now.steps }
    ensures { slice_get (steps_under table.now sigma.now) place ≡ Some result }
{
    instance_with(sigma, &table.steps.as_slice()[place as usize])
}

/// Returns what is known of the first steps of a table, with objects for its parameters.
fn known_prefix(
    alloc: Global,
    problem: &Problem,
    table: &Table,
    prefix: u32,
    sigma: &[u32],
    model: &Model,
) -> Result<Known, NoMemory>
    requires problem { IsValid problem.now }
    requires table { IsTable problem.now table.now }
    requires prefix { IsMacro problem.now table.now prefix sigma.now }
    ensures { IfOk result (IsKnownOf problem.now (row_needs problem.now table.now sigma.now model.now.atoms
        (take prefix (steps_under table.now sigma.now)))) }
{
    let mut known = Known::Applicable;
    let mut facts = model.try_copy()?;
    for place in 0..prefix {
        let step = step_under(table, sigma, place);
        let formula = initial_of(alloc, table, sigma, place + 1)?;
        let row = known_row(alloc, problem, &formula, &facts)?;
        let both = joined(alloc, known, row)?;
        if is_limited(&both) {
            return Ok(both);
        }
        let left = left_in_place(alloc, problem, facts, &step)?;
        known = both;
        facts = left;
    }
    Ok(known)
}

/// Returns what is known of an entry in the model: that it can be applied, that it is open with its gaps, that it isn't open, or
/// that a question about it meets the shape limit. The entry is an instance of an operator or a MACROP, the first steps of
/// one of the tables (Fikes, Hart and Nilsson 1972): each of its rows is asked from what the steps before leave of the model.
/// There are at most 32 tables, which `check_table` of `px_table` accepts, of at most 64 steps each.
///
/// # Errors
/// `NoMemory` if there isn't enough memory.
pub fn known_entry(
    alloc: Global,
    problem: &Problem,
    tables: &[Table],
    entry: &Entry,
    model: &Model,
) -> Result<Known, NoMemory>
    requires problem { IsValid problem.now }
    requires tables { AreLearned problem.now tables.now }
    requires entry { IsEntry problem.now tables.now entry.now }
    ensures { IfOk result (IsKnownOf problem.now (obligations_of problem.now tables.now model.now.atoms entry.now)) }
{
    match entry {
        Entry::Op(inst) => {
            let formula = precondition_of(alloc, problem, inst)?;
            known_row(alloc, problem, &formula, model)
        }
        Entry::Macro {
            number,
            prefix,
            sigma,
        } => {
            let table = &tables[*number as usize];
            known_prefix(alloc, problem, table, *prefix, sigma.as_slice(), model)
        }
    }
}

// Alike: `initial_of` does this for objects, which it takes as they are, without terms made of them.
/// Returns the atoms of the row's marks that come from the initial model, with these terms for the parameters.
///
/// # Errors
/// `NoMemory` if there isn't enough memory.
pub fn row_formula(
    alloc: Global,
    table: &Table,
    terms: &[Term],
    row: u32,
) -> Result<Vec<Atom>, NoMemory>
    requires marks { All (λ mark. All (IsVariableBelow (length terms.now)) mark.atom.args) table.now.marks }
    ensures { IfOk result (λ atoms. atoms.items ≡ formula_by table.now terms.now row) }
{
    let marks = table.marks.as_slice();
    let mut atoms = Vec::new(alloc);
    for mark in marks {
        let is_wanted = is_initial(mark, row);
        let atom = apply(terms, &mark.atom);
        push_wanted(&mut atoms, atom, is_wanted)?;
    }
    Ok(atoms)
}
