//! A fact, an ancestor, an axiom and a gap each close a place; some are taken back.
ghost use Rattle.std.specs.Prelude.{◌≡◌, [], ◌∷◌};

use crate::{OpenGoal, ProofState, close_by_gap, try_ancestors, try_axioms, try_facts};
use px_proof::Tick;
use px_terms::{Atom, ClauseArena, Lit, NoMemory, Term};
use std::process::Abort;
use std::rt::HostRuntime;

/// Returns the atom of predicate 0 with one argument.
fn of(rt: &impl Abort, term: Term) -> Atom
    ensures { result ≡ record { pred = 0; args = term ∷ [] } }
{
    Atom::new(0, &[term]).expect(rt, "one argument")
}

/// Returns a literal to be proved, with a height of 1 and nothing open after it.
fn goal_of(positive: bool, atom: Atom, above: usize) -> OpenGoal
    ensures lit { result.lit ≡ record { positive = positive; atom = atom } }
    ensures above { result.above ≡ above }
    ensures next { result.next ≡ 0 }
    ensures budget { result.budget ≡ 1 }
{
    OpenGoal {
        lit: Lit { positive, atom },
        above,
        next: 0,
        budget: 1,
    }
}

/// Returns whether one place is closed, by the tick, and none is open.
fn is_closed_by(state: &ProofState, tick: Tick) -> bool {
    match state.choices() {
        [choice] => choice.tick == tick && state.first() == 0,
        _ => false,
    }
}

/// A fact closes a place and binds its variable, and retracting takes both back.
#[test]
fn a_fact_closes_and_is_taken_back(rt: HostRuntime) -> Result<(), NoMemory> {
    let atom = of(&rt, Term::Var(0));
    let fact = of(&rt, Term::Obj(0));
    let mut state = ProofState::new(rt.alloc(), &[atom], 1, 1)?;
    let first = state.first();
    let mark = state.bind().mark();
    assert!(&rt; try_facts(&mut state, 1, &[fact], &goal_of(true, atom, 0), 0)?);
    assert!(&rt; is_closed_by(&state, Tick::Fact(0)) && state.bind().mark() != mark);
    assert!(&rt; matches!(state.retract_last(), Some(Tick::Fact(0))));
    assert!(&rt; state.first() == first && state.bind().mark() == mark);
    assert!(&rt; state.choices().is_empty());
    Ok(())
}

/// The complement of the literal above closes a place.
#[test]
fn an_ancestor_closes(rt: HostRuntime) -> Result<(), NoMemory> {
    let atom = of(&rt, Term::Obj(0));
    let mut state = ProofState::new(rt.alloc(), &[atom], 0, 1)?;
    let first = state.first();
    assert!(&rt; try_ancestors(&mut state, &goal_of(false, atom, first), 0)?);
    assert!(&rt; is_closed_by(&state, Tick::Anc(0)));
    Ok(())
}

/// An axiom of one literal closes a place.
#[test]
fn an_axiom_closes(rt: HostRuntime) -> Result<(), NoMemory> {
    let atom = of(&rt, Term::Obj(0));
    let goal = goal_of(true, atom, 0);
    let mut axioms = ClauseArena::new(rt.alloc());
    if axioms.push(0, &[goal.lit]).is_err() {
        return Err(NoMemory);
    }
    let mut state = ProofState::new(rt.alloc(), &[atom], 0, 1)?;
    assert!(&rt; try_axioms(&mut state, &axioms, &goal, 0, 0)?);
    assert!(&rt; is_closed_by(&state, Tick::Step(0, 0)));
    Ok(())
}

/// A gap closes a place, and retracting opens it again.
#[test]
fn a_gap_closes_and_is_taken_back(rt: HostRuntime) -> Result<(), NoMemory> {
    let atom = of(&rt, Term::Obj(0));
    let mut state = ProofState::new(rt.alloc(), &[atom], 0, 1)?;
    assert!(&rt; state.retract_last().is_none());
    assert!(&rt; close_by_gap(&mut state, &goal_of(true, atom, 0))?);
    assert!(&rt; is_closed_by(&state, Tick::Gap));
    assert!(&rt; matches!(state.retract_last(), Some(Tick::Gap)));
    assert!(&rt; state.choices().is_empty() && state.first() != 0);
    Ok(())
}
