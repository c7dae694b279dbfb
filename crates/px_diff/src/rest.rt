//! The part of a formula that decides whether it is open, and one question of gaps about it alone.
ghost use Rattle.std.specs.Prelude.{◌↔◌, ◌≤◌, ◌<◌, All, IfOk, IfSome, IsTrue};
ghost use Rattle.px_prover.specs.Limits.{most_gap_variables};
ghost use Rattle.px_terms.specs.Validity.{IsValid, IsAtomOf};
ghost use Rattle.px_gaps.specs.Bounds.{AreBounds};
ghost use Rattle.px_entries.specs.Rest.{IsOnlyAdded, IsRest};
ghost use Rattle.px_diff.specs.Reordered.{IsReordered, IsReorderedAnswer};

use crate::request::Request;
use px_base::push;
use px_gaps::{AskErr, Asker, Bounds, GapAnswer, ask_gaps, is_concluded};
use px_ops::is_addable;
use px_terms::{Atom, NoMemory, Problem, Term};
use std::alloc::Global;

/// Returns whether some operator adds the atom's predicate, and no axiom concludes it.
fn is_only_added(problem: &Problem, atom: &Atom) -> bool
    ensures { IsTrue result ↔ IsOnlyAdded problem.now atom.now }
{
    is_addable(problem, atom) && !is_concluded(problem, atom.pred())
}

/// Returns the other atoms of the formula.
fn rest_of(alloc: Global, problem: &Problem, formula: &[Atom]) -> Result<Vec<Atom>, NoMemory>
    ensures { IfOk result (λ rest. IsRest problem.now formula.now rest.items) }
{
    let mut rest = Vec::new(alloc);
    for atom in formula {
        if !is_only_added(problem, atom) {
            push(&mut rest, *atom)?;
        }
    }
    Ok(rest)
}

/// Returns whether one of the atom's arguments is an object. Nothing rests on the answer.
fn has_object(atom: &Atom) -> bool {
    atom.args().iter().any(|term| matches!(term, Term::Obj(_)))
}

/// Returns the atoms with those first that have an object: few facts fit these, so that the others are tried few times.
fn narrow_first(alloc: Global, atoms: &[Atom]) -> Result<Vec<Atom>, NoMemory>
    ensures { IfOk result (λ ordered. IsReordered atoms.now ordered.items) }
{
    let mut narrow = Vec::new(alloc);
    let mut wide = Vec::new(alloc);
    for atom in atoms {
        if has_object(atom) {
            push(&mut narrow, *atom)?;
        } else {
            push(&mut wide, *atom)?;
        }
    }
    narrow.extend_from_slice(&wide)?;
    Ok(narrow)
}

/// Returns what one question of gaps says of the formula's rest, where that decides which of its instances are open: where none of them
/// has too many shapes, and the question stays below the limit.
pub fn rest_answer(
    asker: &mut Asker,
    request: &Request,
    bounds: &Bounds,
    formula: &[Atom],
    variable_count: u32,
) -> Result<Option<GapAnswer>, NoMemory>
    requires problem { IsValid request.now.problem.now }
    requires bounds { AreBounds request.now.problem.now request.now.problem.now.height bounds.now.table }
    requires formula { All (IsAtomOf request.now.problem.now variable_count) formula.now }
    requires few_variables { variable_count ≤ most_gap_variables }
    requires some_object { 0 < variable_count → 0 < request.now.problem.now.objects }
    ensures { IfOk result (λ found. IfSome found (λ answer. IsReorderedAnswer request.now.problem.now request.now.model.now.atoms
        formula.now variable_count answer.patterns.items answer.provable.atoms)) }
{
    if !bounds.has_few(request.problem, formula) {
        return Ok(None);
    }
    let rest = rest_of(asker.alloc, request.problem, formula)?;
    let ordered = narrow_first(asker.alloc, &rest)?;
    match ask_gaps(
        asker,
        request.problem,
        &ordered,
        variable_count,
        request.model,
    ) {
        Ok(answer) => Ok(Some(answer)),
        Err(AskErr::NoMemory) => Err(NoMemory),
        Err(AskErr::ShapeLimit { .. }) => Ok(None),
    }
}
