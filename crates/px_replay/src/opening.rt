//! The steps and the proofs with fresh variables.
ghost use Rattle.std.specs.Prelude.{◌≡◌, ◌≤◌, ◌+◌, IfOk, length, All, map, sum_by};
ghost use Rattle.px_terms.specs.Operators.{adds as adds_of};
ghost use Rattle.px_terms.specs.Validity.{IsValid};
ghost use Rattle.px_proof.specs.Derivation.{fact, no_atom as spec_no_atom};
ghost use Rattle.px_proof.specs.ProofTerm.{derivation_of};
ghost use Rattle.px_terms.specs.Substitution.{variables_from};
ghost use Rattle.px_table.specs.Tables.{rows_of};
ghost use Rattle.px_replay.specs.FreshVariables.{fresh_in};
ghost use Rattle.px_replay.specs.Opened.{add_at, atom_in, opened_row, opened_rows, opened_steps, step_variables};
ghost use Rattle.px_replay.specs.FreshOf.{fresh_of_proof, open_leaf as spec_open_leaf, row_fresh};
ghost use Rattle.px_replay.specs.Replay.{opened};
ghost use Rattle.px_replay.specs.Replaying.{HasSchema};

use px_base::{NoMemory, Sequence, push};
use px_proof::{Leaf, Proof};
use px_table::Row;
use px_terms::{Atom, OpInst, Problem, Term, apply};
use px_unify::MOST_VARIABLES;
use std::alloc::Global;

/// Returns `count` variables, from number `first` on.
///
/// # Errors
/// `NoMemory` where there is no memory for the list.
pub fn variables(alloc: Global, first: u32, count: u32) -> Result<Vec<Term>, NoMemory>
    requires { first + count ≤ MOST_VARIABLES }
    ensures { IfOk result (λ terms. terms.items ≡ variables_from first count) }
{
    let mut terms = Vec::new(alloc);
    for k in 0..count {
        push(&mut terms, Term::Var(first + k))?;
    }
    Ok(terms)
}

/// Returns the atom without arguments.
fn no_atom() -> Atom
    ensures { result ≡ spec_no_atom }
{
    Atom::of(0, &[])
}

/// Returns the add of that number of the step of that number, or an atom without arguments where there is none.
fn named_add(problem: &Problem, steps: &[OpInst], column: u32, index: u32) -> Atom
    requires problem { IsValid problem.now }
    requires schemas { All (HasSchema problem.now) steps.now }
    ensures { result ≡ add_at problem.now steps.now column index }
{
    if column == 0 || column as usize > steps.len() {
        return no_atom();
    }
    add_of(problem, &steps[column as usize - 1], index)
}

/// Returns the add of that number of the step.
fn add_of(problem: &Problem, inst: &OpInst, index: u32) -> Atom
    requires problem { IsValid problem.now }
    requires schema { HasSchema problem.now inst.now }
    ensures { result ≡ atom_in (adds_of problem.now inst.now) index }
{
    let adds = problem.schemas.as_slice()[inst.op() as usize]
        .add
        .as_slice();
    if index as usize >= adds.len() {
        return no_atom();
    }
    apply(inst.args(), &adds[index as usize])
}

/// Returns the leaf with fresh variables from number `next` on, or with the add that it names.
fn open_leaf(
    alloc: Global,
    problem: &Problem,
    steps: &[OpInst],
    next: &mut u32,
    leaf: &Leaf,
) -> Result<Leaf, NoMemory>
    requires problem { IsValid problem.now }
    requires schemas { All (HasSchema problem.now) steps.now }
    requires room { next.old + fresh_in (fact leaf.now) ≤ MOST_VARIABLES }
    ensures leaf { IfOk result (λ made. made ≡ spec_open_leaf (add_at problem.now steps.now) next.old leaf.now) }
    ensures next { IfOk result (λ _. next.new ≡ next.old + fresh_in (fact leaf.now)) }
{
    if leaf.column != 0 {
        return Ok(Leaf {
            column: leaf.column,
            index: leaf.index,
            atom: named_add(problem, steps, leaf.column, leaf.index),
        });
    }
    let atom = fresh_atom(alloc, *next, &leaf.atom)?;
    *next += leaf.atom.args().len() as u32;
    Ok(Leaf {
        column: leaf.column,
        index: leaf.index,
        atom,
    })
}

/// Returns the atom with fresh variables from number `first` on for its arguments.
// Alike: `open_step`, since atoms and steps have no constructor in common.
fn fresh_atom(alloc: Global, first: u32, atom: &Atom) -> Result<Atom, NoMemory>
    requires { first + length atom.now.args ≤ MOST_VARIABLES }
    ensures { IfOk result (λ made. made ≡ record { pred = atom.now.pred; args = variables_from first (length atom.now.args) }) }
{
    let terms = variables(alloc, first, atom.args().len() as u32)?;
    Ok(Atom::of(atom.pred(), &terms))
}

/// Returns the proof with fresh variables from number `next` on for all that its form leaves open.
// Alike: `Proof::try_copy` of `px_proof`, which says why.
#[cycle(opens)]
fn open_proof(
    proof: &Proof,
    alloc: Global,
    problem: &Problem,
    steps: &[OpInst],
    next: &mut u32,
) -> Result<Proof, NoMemory>
    requires problem { IsValid problem.now }
    requires schemas { All (HasSchema problem.now) steps.now }
    requires room { next.old + fresh_of_proof proof.now ≤ MOST_VARIABLES }
    ensures proof { IfOk result (λ made. derivation_of made ≡ opened (add_at problem.now steps.now) next.old (derivation_of proof.now)) }
    ensures next { IfOk result (λ _. next.new ≡ next.old + fresh_of_proof proof.now) }
{
    match proof {
        Proof::Fact(leaf) => Ok(Proof::Fact(open_leaf(alloc, problem, steps, next, leaf)?)),
        Proof::Anc(place) => Ok(Proof::Anc(*place)),
        Proof::Step {
            clause,
            theta,
            place,
            subs,
        } => {
            let count = theta.as_slice().len() as u32;
            let fresh = variables(alloc, *next, count)?;
            *next += count;
            let parts = open_each(subs.as_slice(), alloc, problem, steps, next)?;
            Ok(Proof::Step {
                clause: *clause,
                theta: Sequence::from_vec(fresh),
                place: *place,
                subs: Sequence::from_vec(parts),
            })
        }
        Proof::Gap(atom) => Ok(Proof::Gap(*atom)),
    }
}

/// Returns each of the proofs, in order, with fresh variables for all that its form leaves open.
#[cycle(opens)]
fn open_each(
    proofs: &[Proof],
    alloc: Global,
    problem: &Problem,
    steps: &[OpInst],
    next: &mut u32,
) -> Result<Vec<Proof>, NoMemory>
    requires problem { IsValid problem.now }
    requires schemas { All (HasSchema problem.now) steps.now }
    requires room { next.old + sum_by fresh_of_proof proofs.now ≤ MOST_VARIABLES }
    ensures proofs { IfOk result (λ made. map derivation_of made.items ≡ opened_row (add_at problem.now steps.now) next.old
        (map derivation_of proofs.now)) }
    ensures next { IfOk result (λ _. next.new ≡ next.old + sum_by fresh_of_proof proofs.now) }
{
    let mut made = Vec::new(alloc);
    for proof in proofs {
        let one = open_proof(proof, alloc, problem, steps, next)?;
        push(&mut made, one)?;
    }
    Ok(made)
}

/// Returns the rows with fresh variables, from number `next` on, for all that their forms leave open, and moves `next` past them. The
/// leaves of later columns have the adds of these steps that they name.
///
/// # Errors
/// `NoMemory` where there is no memory for the rows.
pub fn open_rows(
    alloc: Global,
    problem: &Problem,
    steps: &[OpInst],
    next: &mut u32,
    rows: &[Row],
) -> Result<Vec<Row>, NoMemory>
    requires problem { IsValid problem.now }
    requires schemas { All (HasSchema problem.now) steps.now }
    requires room { next.old + sum_by row_fresh rows.now ≤ MOST_VARIABLES }
    ensures rows { IfOk result (λ made. rows_of made.items ≡ opened_rows (add_at problem.now steps.now) next.old (rows_of rows.now)) }
    ensures next { IfOk result (λ _. next.new ≡ next.old + sum_by row_fresh rows.now) }
{
    let mut made = Vec::new(alloc);
    for row in rows {
        let proofs = open_each(row.proofs(), alloc, problem, steps, next)?;
        push(&mut made, Row::from_proofs(proofs))?;
    }
    Ok(made)
}

/// Returns the step with fresh variables from number `first` on for its arguments.
fn open_step(alloc: Global, first: u32, inst: &OpInst) -> Result<OpInst, NoMemory>
    requires { first + length inst.now.args ≤ MOST_VARIABLES }
    ensures { IfOk result (λ made. made ≡ record { op = inst.now.op; args = variables_from first (length inst.now.args) }) }
{
    let terms = variables(alloc, first, inst.args().len() as u32)?;
    match OpInst::new(inst.op(), &terms) {
        Some(made) => Ok(made),
        None => unreachable!(),
    }
}

/// Returns the steps with fresh variables, from number 0 on, for their arguments.
///
/// # Errors
/// `NoMemory` where there is no memory for the list.
pub fn open_steps(alloc: Global, steps: &[OpInst]) -> Result<Vec<OpInst>, NoMemory>
    requires { step_variables steps.now ≤ MOST_VARIABLES }
    ensures { IfOk result (λ made. made.items ≡ opened_steps 0 steps.now) }
{
    let mut made = Vec::new(alloc);
    let mut next = 0;
    for inst in steps {
        let one = open_step(alloc, next, inst)?;
        push(&mut made, one)?;
        next += inst.args().len() as u32;
    }
    Ok(made)
}
