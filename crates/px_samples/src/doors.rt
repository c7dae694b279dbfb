//! The example of Fikes, Hart and Nilsson (1972): the robot is object 0, the rooms are 1 to 3, the doors 4 and 5, and the box is 6.
use crate::parts::{add_axiom, atom, model_of, no, o, problem_of, schema, v, yes};
use px_base::Sequence;
use px_ops::Model;
use px_terms::{Atom, ClauseArena, Problem, Schema, Term};
use std::alloc::Global;

/// The robot.
pub const ROBOT: Term = Term::Obj(0);

/// Returns INROOM(thing,room).
pub fn is_in(thing: Term, room: Term) -> Atom {
    atom(0, &[thing, room])
}

/// Returns CONNECTS(door,here,there).
pub fn connects(door: Term, here: Term, there: Term) -> Atom {
    atom(1, &[door, here, there])
}

/// Returns BOX(thing).
pub fn is_box(thing: Term) -> Atom {
    atom(2, &[thing])
}

/// Returns GOTHRU(d,r1,r2): the robot goes through a door.
fn going(alloc: Global) -> Option<Schema> {
    let pre = [is_in(ROBOT, v(1)), connects(v(0), v(1), v(2))];
    let del = [is_in(ROBOT, Term::Any)];
    schema(alloc, (0, 3), &pre, &del, &[is_in(ROBOT, v(2))])
}

/// Returns PUSHTHRU(b,d,r1,r2): the robot pushes a box through a door.
fn pushing(alloc: Global) -> Option<Schema> {
    let door = connects(v(1), v(2), v(3));
    let pre = [is_in(v(0), v(2)), is_in(ROBOT, v(2)), door];
    let del = [is_in(ROBOT, Term::Any), is_in(v(0), Term::Any)];
    let add = [is_in(ROBOT, v(3)), is_in(v(0), v(3))];
    schema(alloc, (1, 4), &pre, &del, &add)
}

/// Returns the problem of so many objects with these predicates, going and this pushing, and with the axiom that a door leads both ways.
fn rooms_by(alloc: Global, objects: u32, pushing: Schema) -> Option<Problem> {
    let there = connects(v(0), v(1), v(2));
    let back = connects(v(0), v(2), v(1));
    let mut axioms = ClauseArena::new(alloc);
    add_axiom(&mut axioms, 3, &[no(there), yes(back)])?;
    problem_of(alloc, objects, &[2, 3, 1], axioms, [going(alloc)?, pushing])
}

/// Returns the problem of the example.
pub fn rooms(alloc: Global) -> Option<Problem> {
    rooms_by(alloc, 7, pushing(alloc)?)
}

/// Returns the same with one sort, which the box has and what is pushed has to have, and with `more` objects that have none.
pub fn sorted_rooms(alloc: Global, more: u8) -> Option<Problem> {
    let mut pushing = pushing(alloc)?;
    pushing.param_sorts = Sequence::from_slice(alloc, &[1, 0, 0, 0]).ok()?;
    let mut sorts = Vec::new(alloc);
    sorts.extend_from_slice(&[0, 0, 0, 0, 0, 0, 1]).ok()?;
    for _object in 0..more {
        sorts.push(0).ok()?;
    }
    let mut problem = rooms_by(alloc, 7 + u32::from(more), pushing)?;
    problem.sorts = 1;
    problem.object_sorts = Sequence::from_vec(sorts);
    Some(problem)
}

/// Returns the model with the robot in room 1, the box in room 2, door 4 between rooms 1 and 2, and door 5 between rooms 2 and 3.
pub fn opening(alloc: Global) -> Option<Model> {
    let facts = [
        is_in(ROBOT, o(1)),
        is_in(o(6), o(2)),
        connects(o(4), o(1), o(2)),
        connects(o(5), o(2), o(3)),
        is_box(o(6)),
    ];
    model_of(alloc, &facts)
}

/// Returns the goal that a box is in room 1.
pub fn box_in_first_room() -> [Atom; 2] {
    [is_box(v(0)), is_in(v(0), o(1))]
}
