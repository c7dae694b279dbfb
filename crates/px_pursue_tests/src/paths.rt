//! A thing that is moved along paths, and taken elsewhere from outside.
ghost use Rattle.std.specs.Prelude.{◌<◌, All, length};
ghost use Rattle.px_base.specs.Bounds.{u32_max};
ghost use Rattle.px_terms.specs.Validity.{IsValid};
ghost use Rattle.px_world.specs.Worlds.{IsGroundEdit};
ghost use Rattle.px_turns.specs.Told.{AdmitsAll};

use crate::told::{are_told, reaches};
use px_base::Sequence;
use px_entries::are_learned;
use px_printer::TurnEnd;
use px_pursue::{PursueEnd, Pursued, Recorded, pursue};
use px_samples::{atom, model_of, o, problem_of, schema, v};
use px_terms::{Atom, ClauseArena, Problem, Term, are_atoms_of, is_ground, is_valid};
use px_world::{AtomEdit, AtomWorld, World};
use std::alloc::Global;
use std::process::Abort;
use std::rt::HostRuntime;

/// The thing, where it is at first, where it is to be, and another place, from which a path leads there, too.
const THING: Term = Term::Obj(0);

const HERE: Term = Term::Obj(1);

const GOAL: Term = Term::Obj(2);

const OTHER: Term = Term::Obj(3);

/// Returns AT(THING,place).
fn at(place: Term) -> Atom {
    atom(0, &[THING, place])
}

/// Returns the problem of four objects, AT(thing,place), PATH(from,to), and MOVE(thing,from,to).
fn paths(alloc: Global, rt: &impl Abort) -> Problem
    ensures { IsValid result }
{
    let [here, there] = [atom(0, &[v(0), v(1)]), atom(0, &[v(0), v(2)])];
    let leads = atom(1, &[v(1), v(2)]);
    let moving = schema(alloc, (0, 3), &[here, leads], &[here], &[there]).expect(rt, "memory");
    let mut problem = problem_of(alloc, 4, &[2, 2], ClauseArena::new(alloc), [moving]).expect(
        rt, "memory",
    );
    problem.nodes = 10000;
    assert!(rt; is_valid(&problem));
    problem
}

/// Returns what is recorded for a turn: the thing is no longer at the one place, but at the other.
fn taken(alloc: Global, rt: &impl Abort, turn: u32, from: Term, to: Term) -> Recorded<AtomEdit>
    ensures { All IsGroundEdit result.edits }
{
    let [gone, there] = [at(from), at(to)];
    assert!(rt; is_ground(&gone));
    assert!(rt; is_ground(&there));
    let edits = [AtomEdit::Remove(gone), AtomEdit::Add(there)];
    Recorded {
        turn,
        between: false,
        edits: Sequence::from_slice(alloc, &edits).expect(rt, "memory"),
    }
}

/// Returns what comes of the pursuit of AT(THING,GOAL), and whether the thing is there then.
fn pursued(alloc: Global, rt: &impl Abort, recorded: &[Recorded<AtomEdit>]) -> (Pursued, bool)
    requires admitted { AdmitsAll IsGroundEdit recorded.now }
    requires short { length recorded.now < u32_max }
{
    let problem = paths(alloc, rt);
    let [first, other] = [atom(1, &[HERE, GOAL]), atom(1, &[OTHER, GOAL])];
    let facts = model_of(alloc, &[at(HERE), first, other]).expect(rt, "memory");
    let mut world = AtomWorld::new(alloc, &problem, &facts, 0).expect(rt, "memory");
    let goal = [at(GOAL)];
    assert!(rt; are_atoms_of(&problem, 0, &goal));
    assert!(rt; are_learned(&problem, &[]));
    let made = pursue(alloc, &problem, &mut world, &goal, 0, &[], recorded).expect(rt, "memory");
    (made, world.holds(&at(GOAL)))
}

/// Two disturbances need three searches: one more than there are disturbances.
#[test]
fn each_disturbance_needs_a_search(rt: HostRuntime) {
    let alloc = rt.alloc();
    let recorded = [
        taken(alloc, &rt, 1, HERE, OTHER),
        taken(alloc, &rt, 2, OTHER, HERE),
    ];
    let (made, is_there) = pursued(alloc, &rt, &recorded);
    let told = [
        (0, TurnEnd::NoKernel),
        (0, TurnEnd::NoKernel),
        (1, TurnEnd::Acted),
        (2, TurnEnd::Goal),
    ];
    assert!(&rt; is_there && reaches(&made, 3, &told));
}

/// No path leads back from the goal, so nothing is found once the thing was taken beyond.
#[test]
fn a_search_may_find_nothing(rt: HostRuntime) {
    let alloc = rt.alloc();
    let recorded = [taken(alloc, &rt, 2, GOAL, THING)];
    let (made, is_there) = pursued(alloc, &rt, &recorded);
    let told = [(1, TurnEnd::Acted), (0, TurnEnd::NoKernel)];
    assert!(&rt; !is_there && made.searches == 2 && are_told(made.turns.as_slice(), &told));
    assert!(&rt; matches!(made.end, PursueEnd::Exhausted));
    assert!(&rt; made.facts.holds(&at(THING)));
}
