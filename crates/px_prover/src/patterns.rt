//! Gap patterns: gap lists with variables, one for each finished list of loose gap proofs.
ghost use Rattle.std.specs.Prelude.{◌≡◌, ◌↔◌, ◌⊎◌, ◌<◌, ◌≤◌, cond, true, [], IfOk, length, All, Contains, IsTrue};
ghost use Rattle.px_proof.specs.declared.shape.Tick.{Tick as TickValue};
ghost use Rattle.px_prover.specs.Limits.{most_gap_variables};
ghost use Rattle.px_question.specs.Limits.{AreFewGapShapes, IsGapLimited};
ghost use Rattle.px_question.specs.Settings.{setting_of};
ghost use Rattle.px_terms.specs.Language.{IsVariableBelow};
ghost use Rattle.px_terms.specs.Validity.{IsValid, IsAtomOf};
ghost use Rattle.px_terms.specs.declared.atom.Atom.{Atom as AtomValue};
ghost use Rattle.px_prover.specs.Asked.{IsAsked};
ghost use Rattle.px_prover.specs.GapAsking.{gap_setting};
ghost use Rattle.px_prover.specs.Passed.{IsSmall};
ghost use Rattle.px_prover.specs.Outcomes.{IfGapLimit};
ghost use Rattle.px_prover.specs.declared.pattern.GapPattern.{GapPattern as PatternValue};
ghost use Rattle.px_prover.specs.Patterns.{AreGapClosings, AreGapPatterns, AreKeptPatterns, GathersOf, IsPatternBy, IsQuestionPattern, PassesOver, ends_of, place_of, renamed, kept_count};
ghost use Rattle.px_terms.specs.Substitution.{variables_from};
ghost use Rattle.px_prover.specs.Standing.{ticks_in, IsStanding};

use crate::gap_question::{GapQuestion, sized};
use crate::gathering::{atoms_under, free_of, missing_atoms, roots_of};
use crate::limiting::shapes_at_limit;
use crate::outcome::GapErr;
use crate::pattern::GapPattern;
use crate::walking::are_two_open;
use px_base::{NoMemory, Sequence, push};
use px_ops::Model;
use px_proof::Tick;
use px_proof_state::ProofState;
use px_proof_walk::{Gather, Walk, walk_to_end};
use px_terms::{Atom, Problem, Term};
use std::alloc::Global;

/// Equal patterns are looked for where at least so many have come.
const MANY_PATTERNS: usize = 1024;

/// Among so many of the last patterns an equal one is looked for.
const RECENT_PATTERNS: usize = 8;

/// Up to how many lists patterns are gathered at once. Where there are more, a walk first tells whether they are too many.
const FEW_LISTS: u32 = 1024;

/// Returns the place of the variable in the list of `count` variables, or `count` if it is not there.
fn place(free: &[u32], count: u32, variable: u32) -> u32
    requires { count ≡ length free.now }
    ensures { result ≡ place_of free.now variable }
{
    for place in 0..count {
        if free[place as usize] == variable {
            return place;
        }
    }
    count
}

/// Returns the term, with the variable's place in the list as its number if it is a variable.
fn renamed_term(free: &[u32], count: u32, root: Term) -> Term
    requires { count ≡ length free.now }
    ensures { result ≡ renamed free.now root }
{
    match root {
        Term::Var(variable) => Term::Var(place(free, count, variable)),
        Term::Obj(number) => Term::Obj(number),
        Term::Any => Term::Any,
    }
}

/// Returns the ends of all bindings, over the variables of the list.
fn renamed_ends(
    alloc: Global,
    roots: &[Term],
    free: &[u32],
    count: u32,
) -> Result<Vec<Term>, NoMemory>
    requires { count ≡ length free.now }
    ensures { IfOk result (λ ends. ends.items ≡ ends_of free.now roots.now) }
{
    let mut ends = Vec::with_capacity(alloc, roots.len())?;
    for root in roots {
        let end = renamed_term(free, count, *root);
        push(&mut ends, end)?;
    }
    Ok(ends)
}

/// Returns how many terms of a pattern are kept.
fn kept_terms(with_terms: bool, variable_count: u32) -> u32
    ensures { result ≡ cond with_terms variable_count 0 }
{
    if with_terms { variable_count } else { 0 }
}

/// Returns the pattern of a finished list whose bindings have these ends, with terms for the first `variable_count` variables.
fn pattern_by(
    alloc: Global,
    variable_count: u32,
    roots: &[Term],
    missing: &[Atom],
    free: &[u32],
) -> Result<GapPattern, NoMemory>
    requires missing { All (λ (atom : AtomValue). All (IsVariableBelow (length roots.now)) atom.args) missing.now }
    ensures { IfOk result (λ pattern. IsPatternBy variable_count missing.now roots.now free.now pattern) }
{
    // no list has more variables than a `u32` can count
    let count = match u32::try_from(free.len()) {
        Ok(count) => count,
        Err(_) => return Err(NoMemory),
    };
    let mut ends = renamed_ends(alloc, roots, free, count)?;
    let atoms = atoms_under(alloc, &ends, missing)?;
    ends.truncate(variable_count as usize);
    Ok(GapPattern {
        variable_count: count,
        terms: Sequence::from_vec(ends),
        atoms: Sequence::from_vec(atoms),
    })
}

/// What is gathered on a walk: the patterns of the finished lists that come directly after those visited.
#[derive(Drop)]
struct Patterns {
    found: Vec<GapPattern>,
    /// How many may be there until equal ones are looked for.
    room: usize,
}

/// Returns whether the pattern is equal to one of the last ones.
fn is_recent(found: &[GapPattern], pattern: &GapPattern) -> bool
    ensures { IsTrue result → Contains found.now pattern.now }
{
    let first = found.len().saturating_sub(RECENT_PATTERNS);
    found[first..].contains(pattern)
}

/// Appends the pattern, unless it is equal to one of the last ones.
fn keep(found: &mut Vec<GapPattern>, pattern: GapPattern) -> Result<(), NoMemory>
    ensures { IfOk result (λ _. (p : PatternValue) → Contains found.new.items p ↔ (Contains found.old.items p ⊎ (pattern ≡ p))) }
{
    if is_recent(found, &pattern) {
        return Ok(());
    }
    push(found, pattern)?;
    Ok(())
}

/// Returns the pattern of a state: what its bindings make of the terms and of the atoms that gaps close.
fn pattern_of(question: &GapQuestion, state: &ProofState) -> Result<GapPattern, NoMemory>
    requires { IsStanding true (gap_setting question.now) question.now.formula.now question.now.variable_count state.now }
    ensures { IfOk result (λ pattern. IsQuestionPattern question.now state.now pattern) }
{
    let alloc = *state.allocator();
    let ends = roots_of(alloc, state.bind())?;
    let roots = ends.as_slice();
    let atoms = missing_atoms(question, state)?;
    let missing = atoms.as_slice();
    let terms = kept_terms(question.with_terms, question.variable_count);
    let variables = free_of(alloc, roots, terms, missing)?;
    let free = variables.as_slice();
    pattern_by(alloc, terms, roots, missing, free)
}

/// Gathers the pattern of a state if no place is open in it.
fn gather_here(
    found: &mut Vec<GapPattern>,
    question: &GapQuestion,
    state: &ProofState,
) -> Result<(), NoMemory>
    requires { IsStanding true (gap_setting question.now) question.now.formula.now question.now.variable_count state.now }
    ensures { IfOk result (λ _. GathersOf question.now (ticks_in state.now.choices) found.old.items found.new.items) }
{
    if state.first() > 0 {
        return Ok(());
    }
    let pattern = pattern_of(question, state)?;
    keep(found, pattern)?;
    Ok(())
}

/// Returns the tick after which the last open place is tried next, where the first fact closed it. Facts and ancestors bind variables
/// and leave no gap, so where the pattern that was gathered is that of the state before the closing, it stands for all that they give.
fn after_fact(
    found: &[GapPattern],
    question: &GapQuestion,
    state: &ProofState,
    number: u32,
) -> Result<Tick, NoMemory>
    requires { IsStanding true (gap_setting question.now) question.now.formula.now question.now.variable_count state.now }
    ensures small { IfOk result IsSmall }
    ensures passed { IfOk result (λ next. PassesOver question.now state.now found.now (Tick.Fact number) next) }
{
    let general = pattern_of(question, state)?;
    if is_recent(found, &general) {
        return Ok(Tick::Anc(u32::MAX));
    }
    Ok(Tick::Fact(number))
}

/// Returns the tick after which the last open place is tried next, where this one closed it after the last one.
fn next_after(
    found: &[GapPattern],
    question: &GapQuestion,
    state: &ProofState,
    last: Option<Tick>,
    tick: Tick,
) -> Result<Tick, NoMemory>
    requires { IsStanding true (gap_setting question.now) question.now.formula.now question.now.variable_count state.now }
    ensures small { IfOk result IsSmall }
    ensures passed { IfOk result (λ next. PassesOver question.now state.now found.now tick next) }
{
    if question.with_terms || last.is_some() {
        return Ok(sized(tick));
    }
    match tick {
        Tick::Fact(number) => after_fact(found, question, state, number),
        _ => Ok(sized(tick)),
    }
}

/// Leaves each pattern once, in order.
fn unite(patterns: &mut Vec<GapPattern>)
    ensures { (pattern : PatternValue) → Contains patterns.new.items pattern ↔ Contains patterns.old.items pattern }
{
    patterns.sort_unstable();
    patterns.dedup();
}

/// Leaves each pattern once where there is no more room, and returns how many may be there until the next time.
fn prune(patterns: &mut Vec<GapPattern>, room: usize) -> usize
    ensures { (pattern : PatternValue) → Contains patterns.new.items pattern ↔ Contains patterns.old.items pattern }
{
    if patterns.len() < room {
        return room;
    }
    unite(patterns);
    patterns.len().saturating_mul(2).max(MANY_PATTERNS)
}

impl<'a> Gather<GapQuestion<'a>, ProofState> for Patterns {
    ghost use Rattle.px_prover.specs.GapAsking.{gap_setting};
    ghost use Rattle.px_prover.specs.Patterns.{ArePatternsOf, kept_count};

    ghost gathered = { λ q g seen. ArePatternsOf (kept_count q) (gap_setting q) q.formula.now q.variable_count seen g.found.items };

    fn gather(
        &mut self,
        question: &GapQuestion<'a>,
        walk: &mut ProofState,
    ) -> Result<(), NoMemory> {
        // a closing leaves the other place open
        if are_two_open(walk) {
            return Ok(());
        }
        let loose = question.loose();
        let mut last = None;
        while walk.try_after(&loose, last)? {
            gather_here(&mut self.found, question, walk)?;
            match walk.retract(&loose) {
                None => return Ok(()),
                Some(tick) => last = Some(next_after(&self.found, question, walk, last, tick)?),
            }
        }
        self.room = prune(&mut self.found, self.room);
        Ok(())
    }
}

/// Returns the pattern of the formula without atoms: the first `count` of its variables, and no gap.
fn without_atoms(alloc: Global, variable_count: u32, count: u32) -> Result<GapPattern, NoMemory>
    ensures variable_count_is { IfOk result (λ pattern. pattern.variable_count ≡ variable_count) }
    ensures terms_are { IfOk result (λ pattern. pattern.terms ≡ variables_from 0 count) }
    ensures atoms_are { IfOk result (λ pattern. pattern.atoms ≡ []) }
{
    let mut terms = Vec::new(alloc);
    for variable in 0..count {
        push(&mut terms, Term::Var(variable))?;
    }
    Ok(GapPattern {
        variable_count,
        terms: Sequence::from_vec(terms),
        atoms: Sequence::from_vec(Vec::new(alloc)),
    })
}

/// Returns the patterns of the question, unless as many unfinished lists as `limit` exist.
fn gathered(alloc: Global, question: &GapQuestion, limit: u32) -> Result<Vec<GapPattern>, GapErr>
    requires asked { IsAsked question.now }
    requires some { 0 < limit }
    requires within { limit ≤ question.now.problem.now.shapes }
    ensures patterns { IfOk result (λ patterns. AreKeptPatterns (kept_count question.now) (gap_setting question.now)
        question.now.formula.now question.now.variable_count patterns.items) }
    ensures few { IfOk result (λ patterns. AreFewGapShapes (gap_setting question.now) question.now.formula.now question.now.variable_count) }
    ensures limited { limit ≡ question.now.problem.now.shapes
        → IfGapLimit result (IsGapLimited (gap_setting question.now) question.now.formula.now question.now.variable_count) }
{
    let mut patterns = Patterns {
        found: Vec::new(alloc),
        room: MANY_PATTERNS,
    };
    let height = question.problem.height;
    let mut state = match ProofState::new(
        alloc,
        question.formula,
        question.variable_count,
        height,
    ) {
        Ok(state) => state,
        Err(NoMemory) => return Err(GapErr::NoMemory),
    };
    match walk_to_end(alloc, question, &mut state, &mut patterns, limit) {
        Ok(None) => {
            let mut found = patterns.found;
            unite(&mut found);
            Ok(found)
        }
        Ok(Some(shapes)) => Err(GapErr::ShapeLimit(shapes)),
        Err(NoMemory) => Err(GapErr::NoMemory),
    }
}

/// Returns the patterns of the formula, with their terms or without them.
fn kept_patterns(
    alloc: Global,
    problem: &Problem,
    formula: &[Atom],
    variable_count: u32,
    model: &Model,
    with_terms: bool,
) -> Result<Vec<GapPattern>, GapErr>
    requires problem { IsValid problem.now }
    requires formula { All (IsAtomOf problem.now variable_count) formula.now }
    requires few_variables { variable_count ≤ most_gap_variables }
    requires some_object { 0 < variable_count → 0 < problem.now.objects }
    ensures patterns { IfOk result (λ patterns. AreKeptPatterns (cond with_terms variable_count 0) (setting_of problem.now model.now.atoms) formula.now
        variable_count patterns.items) }
    ensures few { IfOk result (λ patterns. AreFewGapShapes (setting_of problem.now model.now.atoms) formula.now variable_count) }
    ensures limited { IfGapLimit result (IsGapLimited (setting_of problem.now model.now.atoms) formula.now variable_count) }
{
    let facts = model.atoms();
    if formula.is_empty() {
        let pattern = match without_atoms(
            alloc,
            variable_count,
            kept_terms(with_terms, variable_count),
        ) {
            Ok(pattern) => pattern,
            Err(NoMemory) => return Err(GapErr::NoMemory),
        };
        let mut found = Vec::new(alloc);
        return match push(&mut found, pattern) {
            Ok(()) => Ok(found),
            Err(NoMemory) => Err(GapErr::NoMemory),
        };
    }
    let question = GapQuestion {
        problem,
        formula,
        variable_count,
        facts,
        with_terms,
    };
    if problem.shapes <= FEW_LISTS {
        return gathered(alloc, &question, problem.shapes);
    }
    match gathered(alloc, &question, FEW_LISTS) {
        Ok(patterns) => return Ok(patterns),
        Err(GapErr::ShapeLimit(_)) => {}
        Err(GapErr::NoMemory) => return Err(GapErr::NoMemory),
    }
    match shapes_at_limit(alloc, &question) {
        Ok(Some(shapes)) => return Err(GapErr::ShapeLimit(shapes)),
        Ok(None) => {}
        Err(NoMemory) => return Err(GapErr::NoMemory),
    }
    gathered(alloc, &question, problem.shapes)
}

/// Returns the gap lists of the formula as patterns: whatever objects of the problem are chosen for a pattern's variables, its
/// terms and its atoms are a gap list of [`gap_lists`](crate::gap_lists), with the atoms in any order, and each gap list
/// is that of a pattern with some objects.
///
/// # Errors
/// `ShapeLimit` if at least as many shapes of unfinished lists exist as the problem allows, and `NoMemory`.
pub fn gap_patterns(
    alloc: Global,
    problem: &Problem,
    formula: &[Atom],
    variable_count: u32,
    model: &Model,
) -> Result<Vec<GapPattern>, GapErr>
    requires problem { IsValid problem.now }
    requires formula { All (IsAtomOf problem.now variable_count) formula.now }
    requires few_variables { variable_count ≤ most_gap_variables }
    requires some_object { 0 < variable_count → 0 < problem.now.objects }
    ensures patterns { IfOk result (λ patterns. AreGapPatterns (setting_of problem.now model.now.atoms) formula.now variable_count patterns.items) }
    ensures few { IfOk result (λ patterns. AreFewGapShapes (setting_of problem.now model.now.atoms) formula.now variable_count) }
    ensures limited { IfGapLimit result (IsGapLimited (setting_of problem.now model.now.atoms) formula.now variable_count) }
{
    kept_patterns(alloc, problem, formula, variable_count, model, true)
}

// Alike: `gap_patterns`, of which this leaves out the terms; so its clauses but one are the same.
/// Returns patterns without terms of the atoms that gaps close together, whatever the objects for the formula's variables: those of
/// [`gap_patterns`], where lists that close the same atoms are mostly one.
///
/// # Errors
/// `ShapeLimit` if at least as many shapes of unfinished lists exist as the problem allows, and `NoMemory`.
pub fn gap_closings(
    alloc: Global,
    problem: &Problem,
    formula: &[Atom],
    variable_count: u32,
    model: &Model,
) -> Result<Vec<GapPattern>, GapErr>
    requires problem { IsValid problem.now }
    requires formula { All (IsAtomOf problem.now variable_count) formula.now }
    requires few_variables { variable_count ≤ most_gap_variables }
    requires some_object { 0 < variable_count → 0 < problem.now.objects }
    ensures closings { IfOk result (λ closings. AreGapClosings (setting_of problem.now model.now.atoms) formula.now variable_count closings.items) }
    ensures few { IfOk result (λ patterns. AreFewGapShapes (setting_of problem.now model.now.atoms) formula.now variable_count) }
    ensures limited { IfGapLimit result (IsGapLimited (setting_of problem.now model.now.atoms) formula.now variable_count) }
{
    kept_patterns(alloc, problem, formula, variable_count, model, false)
}
