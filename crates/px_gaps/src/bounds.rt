//! How many shapes of gap proofs a formula has at most, by its predicates alone. So the prover isn't asked whether a formula meets the
//! shape limit, where the numbers exclude it.
ghost use Rattle.std.specs.Prelude.{◌≡◌, ◌<◌, ◌↔◌, ℕ, ⊤, true, false, None, List, map as map_list, length, remove, slice_index_or, All, Contains, IfOk, IfSome, IsTrue};
ghost use Rattle.px_terms.specs.Validity.{IsValid};
ghost use Rattle.px_terms.specs.declared.atom.Atom.{Atom as AtomValue};
ghost use Rattle.px_terms.specs.declared.clause.Lit.{Lit as LitValue};
ghost use Rattle.px_gaps.specs.Bounds.{AreBounds, AreBoundsAbove, HasFewShapes, IsBoundAbove, IsBoundBefore, IsBoundBy, IsBoundOfUse, IsLeafBound, IsUseBoundBy, bound_beside, bound_either};

use px_base::push;
use px_ops::is_added;
use px_terms::{Atom, Lit, NoMemory, Problem, Sequence, Term};
use std::alloc::Global;

/// How many shapes of each kind there are at most.
#[derive(Clone, Copy)]
pub struct Bound {
    /// The shapes of unfinished gap proofs.
    pub unfinished: u32,
    /// The shapes of finished gap proofs.
    pub finished: u32,
}

/// What is known of the gap proofs of each predicate's atoms, whatever the facts are.
#[derive(Drop)]
pub struct Bounds {
    /// The bound of each predicate, where one is known.
    pub table: Sequence<Option<Bound>>,
}

impl Bounds {
    /// Returns the bounds that the axioms and the operators give.
    pub fn of(alloc: Global, problem: &Problem) -> Result<Bounds, NoMemory>
        requires { IsValid problem.now }
        ensures { IfOk result (λ bounds. AreBounds problem.now problem.now.height bounds.table) }
    {
        let mut table = no_proofs(alloc, problem)?;
        for _height in 0..problem.height {
            table = next_table(alloc, problem, &table)?;
        }
        Ok(Bounds {
            table: Sequence::from_vec(table),
        })
    }

    /// Returns whether each formula without variables over the predicates of this one has fewer unfinished gap proofs than the limit of
    /// shapes, whatever the facts are. `false` says nothing.
    pub fn has_few(&self, problem: &Problem, formula: &[Atom]) -> bool
        requires { AreBounds problem.now problem.now.height self.now.table }
        ensures { IsTrue result → HasFewShapes problem.now (map_list (λ (a : AtomValue). a.pred) formula.now) }
    {
        match bound_of_formula(self.table.as_slice(), formula) {
            Some(bound) => bound.unfinished < problem.shapes,
            None => false,
        }
    }
}

/// Returns the bounds at height 0, where there are no proofs.
fn no_proofs(alloc: Global, problem: &Problem) -> Result<Vec<Option<Bound>>, NoMemory>
    ensures { IfOk result (λ table. AreBounds problem.now 0 table.items) }
{
    let mut table = Vec::new(alloc);
    for _pred in 0..problem.arities.len() {
        let bound = Bound {
            unfinished: 0,
            finished: 0,
        };
        push(&mut table, Some(bound))?;
    }
    Ok(table)
}

/// Returns the bounds of proofs that may be one higher than those whose bounds the table has.
fn next_table(
    alloc: Global,
    problem: &Problem,
    table: &[Option<Bound>],
) -> Result<Vec<Option<Bound>>, NoMemory>
    requires { IsValid problem.now }
    ensures { IfOk result (λ next. AreBoundsAbove problem.now table.now next.items) }
{
    let mut next = Vec::new(alloc);
    for pred in 0..problem.arities.len() as u32 {
        push(&mut next, bound_above(problem, table, pred))?;
    }
    Ok(next)
}

/// Returns the bound of those proofs that are one leaf: an open place, a fact, or a gap.
fn bound_of_leaves(problem: &Problem, pred: u32) -> Bound
    ensures { IsLeafBound problem.now pred result }
{
    if is_added(problem, pred) {
        return Bound {
            unfinished: 1,
            finished: 2,
        };
    }
    Bound {
        unfinished: 1,
        finished: 1,
    }
}

/// Returns the bound of two kinds of proofs together. `None` where a number is too great.
fn either(first: Bound, second: Bound) -> Option<Bound>
    ensures { IfSome result (λ both. both ≡ bound_either first second) }
{
    let unfinished = first.unfinished.checked_add(second.unfinished)?;
    let finished = first.finished.checked_add(second.finished)?;
    Some(Bound {
        unfinished,
        finished,
    })
}

/// Returns the bound of the predicate. `None` where none is known.
fn bound_above(problem: &Problem, table: &[Option<Bound>], pred: u32) -> Option<Bound>
    ensures { IfSome result (IsBoundAbove problem.now table.now pred) }
{
    let uses = bound_of_axioms(problem, table, pred)?;
    either(bound_of_leaves(problem, pred), uses)
}

/// Returns the bound of the proofs that begin with an axiom. `None` where none is known.
fn bound_of_axioms(problem: &Problem, table: &[Option<Bound>], pred: u32) -> Option<Bound>
    ensures { IfSome result (IsUseBoundBy problem.now table.now pred (λ number place. ⊤)) }
{
    let mut bound = Bound {
        unfinished: 0,
        finished: 0,
    };
    for number in 0..problem.axioms.count() {
        let uses = bound_of_axiom(problem, table, pred, number)?;
        bound = either(bound, uses)?;
    }
    Some(bound)
}

/// Returns the bound of the proofs that begin with the axiom of this number. `None` where none is known.
fn bound_of_axiom(
    problem: &Problem,
    table: &[Option<Bound>],
    pred: u32,
    number: u32,
) -> Option<Bound>
    requires { number < length problem.now.axioms }
    ensures { IfSome result (IsUseBoundBy problem.now table.now pred (λ n p. n ≡ number)) }
{
    let variable_count = problem.axioms.variable_count(number);
    let lits = problem.axioms.lits(number);
    let mut bound = Bound {
        unfinished: 0,
        finished: 0,
    };
    for place in 0..lits.len() {
        let uses = bound_of_use(table, pred, variable_count, lits, place)?;
        bound = either(bound, uses)?;
    }
    Some(bound)
}

/// Returns whether the literal asserts an atom of the predicate.
fn asserts_predicate(lit: &Lit, pred: u32) -> bool
    ensures { IsTrue result ↔ ((lit.now.positive ≡ true) × (lit.now.atom.pred ≡ pred)) }
{
    lit.positive && lit.atom.pred() == pred
}

/// Returns the bound of the proofs that begin with an axiom of this number of variables and these literals, at the place. `None` where
/// none is known.
fn bound_of_use(
    table: &[Option<Bound>],
    pred: u32,
    variable_count: u32,
    lits: &[Lit],
    place: usize,
) -> Option<Bound>
    requires { place < length lits.now }
    ensures { IfSome result (IsBoundOfUse table.now pred (record { variable_count = variable_count; lits = lits.now }) place) }
{
    let lit = &lits[place];
    if !asserts_predicate(lit, pred) {
        return Some(Bound {
            unfinished: 0,
            finished: 0,
        });
    }
    if !has_each_variable(&lit.atom, variable_count) || !are_denials_beside(lits, place) {
        return None;
    }
    bound_of_parts(table, lits, place)
}

/// Returns whether the term is among these.
fn has_term(terms: &[Term], term: Term) -> bool
    ensures { IsTrue result ↔ Contains terms.now term }
{
    terms.contains(&term)
}

/// Returns whether each variable below the number stands in the atom.
fn has_each_variable(atom: &Atom, variable_count: u32) -> bool
    ensures { IsTrue result → (v : ℕ) → v < variable_count → Contains atom.now.args (Term.Var v) }
{
    for v in 0..variable_count {
        if !has_term(atom.args(), Term::Var(v)) {
            return false;
        }
    }
    true
}

/// Returns whether the literals are denials.
fn are_denials(lits: &[Lit]) -> bool
    ensures { IsTrue result ↔ All (λ (lit : LitValue). lit.positive ≡ false) lits.now }
{
    lits.iter().all(|lit| !lit.positive)
}

/// Returns whether all literals but the one at the place are denials.
fn are_denials_beside(lits: &[Lit], place: usize) -> bool
    requires { place < length lits.now }
    ensures { IsTrue result → All (λ (lit : LitValue). lit.positive ≡ false) (remove lits.now place) }
{
    let first = are_denials(&lits[..place]);
    let last = are_denials(&lits[place + 1..]);
    first && last
}

/// Returns the bound of the literals with the others after them, whose bound is given. `None` where none is known.
fn bound_before(table: &[Option<Bound>], lits: &[Lit], rest: Bound) -> Option<Bound>
    ensures { IfSome result (IsBoundBefore table.now (map_list (λ (lit : LitValue). lit.atom.pred) lits.now) rest) }
{
    let mut bound = rest;
    for passed in 0..lits.len() {
        let lit = &lits[lits.len() - passed - 1];
        let first = bound_in(table, lit.atom.pred())?;
        bound = beside(first, bound)?;
    }
    Some(bound)
}

/// Returns the bound of all literals but the one at the place. `None` where none is known.
fn bound_of_parts(table: &[Option<Bound>], lits: &[Lit], place: usize) -> Option<Bound>
    requires { place < length lits.now }
    ensures { IfSome result (IsBoundBy table.now (map_list (λ (lit : LitValue). lit.atom.pred) (remove lits.now place))) }
{
    let empty = Bound {
        unfinished: 0,
        finished: 1,
    };
    let last = bound_before(table, &lits[place + 1..], empty)?;
    bound_before(table, &lits[..place], last)
}

/// Returns the bound that the table has of the predicate.
fn bound_in(table: &[Option<Bound>], pred: u32) -> Option<Bound>
    ensures { result ≡ slice_index_or table.now pred None }
{
    let place = pred as usize;
    if place < table.len() {
        return table[place];
    }
    None
}

/// Returns the bound of a list that has a first atom of the one bound, and others of the other. `None` where a number is too great.
pub(crate) fn beside(first: Bound, rest: Bound) -> Option<Bound>
    ensures { IfSome result (λ both. both ≡ bound_beside first rest) }
{
    let later = first.finished.checked_mul(rest.unfinished)?;
    let unfinished = first.unfinished.checked_add(later)?;
    let finished = first.finished.checked_mul(rest.finished)?;
    Some(Bound {
        unfinished,
        finished,
    })
}

/// Returns the bound of the formula, by those of its predicates.
fn bound_of_formula(table: &[Option<Bound>], formula: &[Atom]) -> Option<Bound>
    ensures { IfSome result (IsBoundBy table.now (map_list (λ (a : AtomValue). a.pred) formula.now)) }
{
    let mut bound = Bound {
        unfinished: 0,
        finished: 1,
    };
    for passed in 0..formula.len() {
        let atom = &formula[formula.len() - passed - 1];
        let first = bound_in(table, atom.pred())?;
        bound = beside(first, bound)?;
    }
    Some(bound)
}
