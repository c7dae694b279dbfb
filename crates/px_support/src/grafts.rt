//! Rows of a learned table, put onto the first proofs of their initial facts.
ghost use Rattle.std.specs.Prelude.{◌≡◌, ◌<◌, All, Contains, IfOk, Some, length, map, slice_get};
ghost use Rattle.std.specs.List.{AllZip};
ghost use Rattle.px_terms.specs.declared.term.Term.TheVariants.{Obj};
ghost use Rattle.px_proof.specs.ProofTerm.{derivation_of};
ghost use Rattle.px_proof.specs.Substitution.{derivation_under};
ghost use Rattle.px_ends.specs.Made.{IsGraft};
ghost use Rattle.px_support.specs.Asking.{IsFindable};
ghost use Rattle.px_support.specs.Grafted.{AreFirsts, AreParts, IsGraftBy, IsGraftableBy, IsPartFor, IsReady};

use crate::sources::sourced;
use px_base::{NoMemory, push};
use px_ops::Model;
use px_proof::{Leaf, Proof, leaves, substitute};
use px_prover::{ProveErr, prove};
use px_table::Row;
use px_terms::{Atom, OpInst, Problem, Term};
use std::alloc::Global;

/// How a row of a learned table is put onto the first proofs of its initial facts.
#[derive(Clone, Copy)]
pub struct Graft<'a> {
    pub alloc: Global,
    pub problem: &'a Problem,
    /// The steps that are made before the row.
    pub steps: &'a [OpInst],
    /// The row's initial facts.
    pub formula: &'a [Atom],
    /// The objects for the table's parameters.
    pub terms: &'a [Term],
    /// By how many columns the row's other facts rise.
    pub shift: u32,
}

/// Returns the number at the place.
fn number_at(sigma: &[u32], place: usize) -> u32
    requires { place < length sigma.now }
    ensures { slice_get sigma.now place ≡ Some result }
{
    sigma[place]
}

/// Returns the objects as terms.
pub fn object_terms(alloc: Global, sigma: &[u32]) -> Result<Vec<Term>, NoMemory>
    ensures { IfOk result (λ terms. terms.items ≡ map Obj sigma.now) }
{
    let mut terms = Vec::new(alloc);
    for place in 0..sigma.len() {
        let number = number_at(sigma, place);
        push(&mut terms, Term::Obj(number))?;
    }
    Ok(terms)
}

/// Returns the place of the atom in the formula.
fn place_of(formula: &[Atom], atom: &Atom) -> usize
    requires { Contains formula.now atom.now }
    ensures { slice_get formula.now result ≡ Some atom.now }
{
    for place in 0..formula.len() {
        if formula[place] == *atom {
            return place;
        }
    }
    unreachable!()
}

/// Returns the first proof of the initial fact, where each leaf names where its atom comes from.
fn part_for(graft: &Graft, firsts: &[Proof], atom: &Atom) -> Result<Proof, NoMemory>
    requires graft { IsReady graft.now }
    requires firsts { AreFirsts graft.now firsts.now }
    requires atom { Contains graft.now.formula.now atom.now }
    ensures { IfOk result (λ part. IsPartFor graft.now (map derivation_of firsts.now) atom.now (derivation_of part)) }
{
    let place = place_of(graft.formula, atom);
    sourced(graft.alloc, graft.problem, graft.steps, &firsts[place])
}

/// Returns for each of the leaves the first proof of its atom, where each leaf names where its atom comes from.
fn parts_for(graft: &Graft, firsts: &[Proof], leaves: &[Leaf]) -> Result<Vec<Proof>, NoMemory>
    requires graft { IsReady graft.now }
    requires firsts { AreFirsts graft.now firsts.now }
    requires leaves { All (λ leaf. Contains graft.now.formula.now leaf.atom) leaves.now }
    ensures { IfOk result (λ parts. AreParts graft.now (map derivation_of firsts.now) leaves.now (map derivation_of parts.items)) }
{
    let mut parts = Vec::new(graft.alloc);
    for leaf in leaves {
        let part = part_for(graft, firsts, &leaf.atom)?;
        push(&mut parts, part)?;
    }
    Ok(parts)
}

/// Returns the learned proof, put onto the first proofs.
fn grafted_proof(graft: &Graft, firsts: &[Proof], proof: &Proof) -> Result<Proof, NoMemory>
    requires graft { IsReady graft.now }
    requires firsts { AreFirsts graft.now firsts.now }
    requires proof { IsGraftableBy graft.now (derivation_of proof.now) }
    ensures { IfOk result (λ new. IsGraftBy graft.now (map derivation_of firsts.now)
        (derivation_under graft.now.terms.now (derivation_of proof.now)) (derivation_of new)) }
{
    let under = substitute(graft.alloc, proof, graft.terms)?;
    let mut given = leaves(graft.alloc, &under)?;
    given.retain(|leaf| leaf.column == 0);
    let parts = parts_for(graft, firsts, &given)?;
    px_proof::graft(graft.alloc, &under, &parts, graft.shift)
}

/// Returns the learned proofs, put onto the first proofs.
fn grafted_row(graft: &Graft, firsts: &[Proof], proofs: &[Proof]) -> Result<Row, NoMemory>
    requires graft { IsReady graft.now }
    requires firsts { AreFirsts graft.now firsts.now }
    requires proofs { All (IsGraftableBy graft.now) (map derivation_of proofs.now) }
    ensures { IfOk result (λ row. AllZip (IsGraftBy graft.now (map derivation_of firsts.now))
        (map (derivation_under graft.now.terms.now) (map derivation_of proofs.now)) (map derivation_of row)) }
{
    let mut made = Vec::new(graft.alloc);
    for proof in proofs {
        let new = grafted_proof(graft, firsts, proof)?;
        push(&mut made, new)?;
    }
    Ok(Row::from_proofs(made))
}

/// Returns the learned proofs, put onto the first proofs of the initial facts from these facts.
pub fn learned_row(graft: &Graft, facts: &Model, proofs: &[Proof]) -> Result<Row, NoMemory>
    requires graft { IsReady graft.now }
    requires proofs { All (IsGraftableBy graft.now) (map derivation_of proofs.now) }
    requires findable { IsFindable graft.now.problem.now (record { formula = graft.now.formula.now; variable_count = 0; facts = facts.now.atoms }) }
    ensures { IfOk result (λ row. AllZip (IsGraft graft.now.problem.now graft.now.shift graft.now.steps.now facts.now.atoms)
        (map (derivation_under graft.now.terms.now) (map derivation_of proofs.now)) (map derivation_of row)) }
{
    match prove(graft.alloc, graft.problem, graft.formula, 0, facts) {
        Ok(answer) => grafted_row(graft, answer.proofs.as_slice(), proofs),
        Err(ProveErr::NoMemory) => Err(NoMemory),
        Err(ProveErr::Unprovable) => unreachable!(),
        Err(ProveErr::ShapeLimit(_)) => unreachable!(),
    }
}
