//! The gap lists of a formula: those that its patterns stand for.
ghost use Rattle.std.specs.Prelude.{◌≡◌, ◌≤◌, ◌<◌, ◌↔◌, ◌++◌, ℕ, List, IfOk, All, Contains, length, map as map_list};
ghost use Rattle.std.specs.List.Sorted.{IsStrictlySortedBy};
ghost use Rattle.px_prover.specs.Limits.{most_gap_variables};
ghost use Rattle.px_question.specs.Gaps.{AreGapLists, gap_list_cmp};
ghost use Rattle.px_question.specs.declared.gap_list.GapList.{GapList as GapListValue};
ghost use Rattle.px_question.specs.Limits.{AreFewGapShapes, IsGapLimited};
ghost use Rattle.px_question.specs.Settings.{setting_of};
ghost use Rattle.px_terms.specs.AtomSets.{IsAtomSet};
ghost use Rattle.px_terms.specs.Language.{IsVariableBelow};
ghost use Rattle.px_terms.specs.Validity.{IsValid, IsAtomOf};
ghost use Rattle.px_terms.specs.declared.atom.Atom.{Atom as AtomValue};
ghost use Rattle.px_proof_walk.specs.Values.{value_of as value_by};
ghost use Rattle.px_prover.specs.Outcomes.{IfGapLimit};
ghost use Rattle.px_prover.specs.PatternLists.{all_under as all_lists_under, list_under as list_by};
ghost use Rattle.px_prover.specs.Patterns.{IsOverItsVariables};

use crate::building::terms_of;
use crate::gathering::atoms_under;
use crate::outcome::GapErr;
use crate::pattern::GapPattern;
use crate::patterns::gap_patterns;
use crate::tuples::tuples;
use px_base::{NoMemory, Sequence, push};
use px_ops::Model;
use px_question::GapList;
use px_terms::{Atom, Problem, Term};
use std::alloc::Global;

/// Returns the object that the term is, or that its variable has.
fn value_of(values: &[u32], term: Term) -> u32
    requires { IsVariableBelow (length values.now) term }
    ensures { result ≡ value_by values.now term }
{
    match term {
        Term::Obj(number) => number,
        Term::Var(variable) => values[variable as usize],
        Term::Any => 0,
    }
}

/// Returns the objects of the terms under the values.
fn values_of(alloc: Global, terms: &[Term], values: &[u32]) -> Result<Vec<u32>, NoMemory>
    requires { All (IsVariableBelow (length values.now)) terms.now }
    ensures { IfOk result (λ objects. objects.items ≡ map_list (value_by values.now) terms.now) }
{
    let mut objects = Vec::new(alloc);
    for term in terms {
        let value = value_of(values, *term);
        push(&mut objects, value)?;
    }
    Ok(objects)
}

/// Returns the atoms ascending, each once.
fn as_set(mut atoms: Vec<Atom>) -> Vec<Atom>
    ensures order { IsAtomSet result.items }
    ensures members { (atom : AtomValue) → Contains result.items atom ↔ Contains atoms.items atom }
{
    atoms.sort_unstable();
    atoms.dedup();
    atoms
}

/// Returns the gap list of the pattern under the values.
fn list_under(alloc: Global, pattern: &GapPattern, values: &[u32]) -> Result<GapList, NoMemory>
    requires closed { IsOverItsVariables pattern.now }
    requires count { length values.now ≡ pattern.now.variable_count }
    ensures { IfOk result (λ list. list ≡ list_by pattern.now values.now) }
{
    let terms = pattern.terms.as_slice();
    let atoms = pattern.atoms.as_slice();
    let objects = values_of(alloc, terms, values)?;
    let under = terms_of(alloc, values)?;
    let gaps = as_set(atoms_under(alloc, &under, atoms)?);
    Ok(GapList {
        objects: Sequence::from_vec(objects),
        gaps: Sequence::from_vec(gaps),
    })
}

/// Appends the gap list of the pattern under each of the tuples.
fn push_under(
    alloc: Global,
    lists: &mut Vec<GapList>,
    pattern: &GapPattern,
    tuples: &[Sequence<u32>],
) -> Result<(), NoMemory>
    requires closed { IsOverItsVariables pattern.now }
    requires tuples { All (λ (tuple : List ℕ). length tuple ≡ pattern.now.variable_count) tuples.now }
    ensures { IfOk result (λ _. lists.new.items ≡ lists.old.items ++ map_list (list_by pattern.now) tuples.now) }
{
    for tuple in tuples {
        let list = list_under(alloc, pattern, tuple.as_slice())?;
        push(lists, list)?;
    }
    Ok(())
}

/// Returns the gap lists of the patterns under all values.
fn all_under(alloc: Global, objects: u32, patterns: &[GapPattern]) -> Result<Vec<GapList>, NoMemory>
    requires { All IsOverItsVariables patterns.now }
    ensures { IfOk result (λ lists. lists.items ≡ all_lists_under objects patterns.now) }
{
    let mut lists = Vec::new(alloc);
    for pattern in patterns {
        let made = tuples(alloc, objects, pattern.variable_count as usize)?;
        let each = made.as_slice();
        push_under(alloc, &mut lists, pattern, each)?;
    }
    Ok(lists)
}

/// Returns the lists in order, each once.
fn ordered(mut lists: Vec<GapList>) -> Vec<GapList>
    ensures order { IsStrictlySortedBy gap_list_cmp result.items }
    ensures members { (list : GapListValue) → Contains result.items list ↔ Contains lists.items list }
{
    lists.sort_unstable();
    lists.dedup();
    lists
}

// Alike: the contract is that of `gap_patterns` in `patterns`, with lists for patterns, so that callers meet both in the same way.
/// Returns the gap lists of the formula: each list of objects for its variables with the atoms, ascending, that a list of loose
/// gap proofs then closes by gaps, where a gap may close each atom whose predicate some operator adds. The lists ascend.
///
/// # Errors
/// Those of [`gap_patterns`](crate::gap_patterns).
pub fn gap_lists(
    alloc: Global,
    problem: &Problem,
    formula: &[Atom],
    variable_count: u32,
    model: &Model,
) -> Result<Vec<GapList>, GapErr>
    requires problem { IsValid problem.now }
    requires formula { All (IsAtomOf problem.now variable_count) formula.now }
    requires few_variables { variable_count ≤ most_gap_variables }
    requires some_object { 0 < variable_count → 0 < problem.now.objects }
    ensures lists { IfOk result (λ lists. AreGapLists (setting_of problem.now model.now.atoms) formula.now variable_count lists.items) }
    ensures few { IfOk result (λ lists. AreFewGapShapes (setting_of problem.now model.now.atoms) formula.now variable_count) }
    ensures limited { IfGapLimit result (IsGapLimited (setting_of problem.now model.now.atoms) formula.now variable_count) }
{
    match gap_patterns(alloc, problem, formula, variable_count, model) {
        Ok(patterns) => match all_under(alloc, problem.objects, &patterns) {
            Ok(lists) => Ok(ordered(lists)),
            Err(NoMemory) => Err(GapErr::NoMemory),
        },
        Err(GapErr::ShapeLimit(shapes)) => Err(GapErr::ShapeLimit(shapes)),
        Err(GapErr::NoMemory) => Err(GapErr::NoMemory),
    }
}
