//! The proofs of an answer, built from the choices of a state in which no place is open.
ghost use Rattle.std.specs.Prelude.{◌≡◌, ◌+◌, ◌-◌, ◌≤◌, ◌<◌, ◌∷◌, IfOk, take, drop, reverse, length, map as map_list, slice_get};
ghost use Rattle.std.specs.List.{AllByRecursion};
ghost use Rattle.px_proof.specs.Derivation.{derivations, step as step_of};
ghost use Rattle.px_proof.specs.ProofTerm.{derivation_of};
ghost use Rattle.px_proof.specs.declared.shape.Tick.{Tick as TickValue};
ghost use Rattle.px_question.specs.Answers.{object_terms};
ghost use Rattle.px_question.specs.Settings.{setting_of};
ghost use Rattle.px_proof_state.specs.declared.open.Choice.{Choice as ChoiceValue};
ghost use Rattle.px_proof_walk.specs.Pending.{fresh_of};
ghost use Rattle.px_prover.specs.Building.{AreLeast, IsThere, built, extended, fresh_sum, parts_count};

use px_base::{NoMemory, Sequence, push};
use px_proof::{Leaf, Proof, Tick};
use px_proof_state::Choice;
use px_terms::{Atom, Problem, Term, object_of};
use px_unify::Bind;
use std::alloc::Global;

/// Returns the least objects for all variables: 0 for one that may be any.
pub(crate) fn least_objects(alloc: Global, bind: &Bind) -> Result<Vec<u32>, NoMemory>
    ensures { IfOk result (λ objects. AreLeast bind.now objects.items) }
{
    let mut objects = Vec::new(alloc);
    for variable in 0..bind.variables() {
        let root = bind.resolve(Term::Var(variable));
        push(&mut objects, object_of(root))?;
    }
    Ok(objects)
}

/// Returns the objects as terms.
pub(crate) fn terms_of(alloc: Global, objects: &[u32]) -> Result<Vec<Term>, NoMemory>
    ensures { IfOk result (λ terms. terms.items ≡ object_terms objects.now) }
{
    let mut terms = Vec::new(alloc);
    for object in objects {
        push(&mut terms, Term::Obj(*object))?;
    }
    Ok(terms)
}

/// Takes `count` proofs off the end and returns them, the last one first.
fn take_last(alloc: Global, made: &mut Vec<Proof>, count: usize) -> Result<Vec<Proof>, NoMemory>
    ensures parts { IfOk result (λ parts. parts.items ≡ take count (reverse made.old.items)) }
    ensures rest { IfOk result (λ parts. reverse made.new.items ≡ drop count (reverse made.old.items)) }
{
    let mut parts = Vec::new(alloc);
    for taken in 0..count {
        match made.pop() {
            Some(part) => push(&mut parts, part)?,
            None => {}
        }
    }
    Ok(parts)
}

/// Puts a step in the place of its parts, which are the last proofs.
fn push_step(
    alloc: Global,
    problem: &Problem,
    theta: &[u32],
    made: &mut Vec<Proof>,
    clause: u32,
    place: u32,
) -> Result<(), NoMemory>
    requires { clause < length problem.now.axioms }
    ensures { let count = parts_count (slice_get problem.now.axioms clause) in let later =
        map_list derivation_of (reverse made.old.items) in
        IfOk result (λ _. map_list derivation_of (reverse made.new.items) ≡ step_of clause (object_terms theta.now) place
        (derivations (take count later)) ∷ drop count later) }
{
    let count = problem.axioms.lits(clause).len() - 1;
    let theta = terms_of(alloc, theta)?;
    let subs = take_last(alloc, made, count)?;
    let step = Proof::Step {
        clause,
        theta: Sequence::from_vec(theta),
        place,
        subs: Sequence::from_vec(subs),
    };
    push(made, step)?;
    Ok(())
}

/// Puts the proof of the place that the tick closes before those after it, and returns where the objects of its step begin.
fn push_proof(
    alloc: Global,
    problem: &Problem,
    facts: &[Atom],
    objects: &[u32],
    made: &mut Vec<Proof>,
    end: usize,
    tick: Tick,
) -> Result<usize, NoMemory>
    requires there { IsThere (setting_of problem.now facts.now) tick }
    requires room { fresh_of (setting_of problem.now facts.now) tick ≤ end }
    requires within { end ≤ length objects.now }
    ensures start { IfOk result (λ start. start + fresh_of (setting_of problem.now facts.now) tick ≡ end) }
    ensures made { IfOk result (λ start. map_list derivation_of (reverse made.new.items) ≡ extended (setting_of problem.now facts.now) tick
        (drop start objects.now) (map_list derivation_of (reverse made.old.items))) }
{
    match tick {
        Tick::Fact(index) => {
            let leaf = Leaf {
                column: 0,
                index,
                atom: facts[index as usize],
            };
            match push(made, Proof::Fact(leaf)) {
                Ok(()) => Ok(end),
                Err(NoMemory) => Err(NoMemory),
            }
        }
        Tick::Anc(number) => match push(made, Proof::Anc(number)) {
            Ok(()) => Ok(end),
            Err(NoMemory) => Err(NoMemory),
        },
        Tick::Step(clause, place) => {
            let start = end - problem.axioms.variable_count(clause) as usize;
            match push_step(alloc, problem, &objects[start..end], made, clause, place) {
                Ok(()) => Ok(start),
                Err(NoMemory) => Err(NoMemory),
            }
        }
        Tick::Gap => unreachable!(),
        Tick::Open => unreachable!(),
    }
}

/// Returns the proofs of the choices, the first one last.
pub(crate) fn build(
    alloc: Global,
    problem: &Problem,
    facts: &[Atom],
    choices: &[Choice],
    objects: &[u32],
) -> Result<Vec<Proof>, NoMemory>
    requires there { AllByRecursion (IsThere (setting_of problem.now facts.now)) (map_list (λ (c : ChoiceValue). c.tick) choices.now) }
    requires room { fresh_sum (setting_of problem.now facts.now) (map_list (λ (c : ChoiceValue). c.tick) choices.now) ≤ length objects.now }
    ensures { let s = setting_of problem.now facts.now in let ticks = map_list (λ (c : ChoiceValue). c.tick) choices.now in
        IfOk result (λ made. map_list derivation_of (reverse made.items) ≡ built s ticks
        (drop (length objects.now - fresh_sum s ticks) objects.now)) }
{
    let mut made = Vec::new(alloc);
    let mut end = objects.len();
    for done in 0..choices.len() {
        let tick = choices[choices.len() - 1 - done].tick;
        match push_proof(alloc, problem, facts, objects, &mut made, end, tick) {
            Ok(start) => end = start,
            Err(NoMemory) => return Err(NoMemory),
        }
    }
    Ok(made)
}
