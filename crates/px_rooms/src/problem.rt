//! The problem of a building.
ghost use Rattle.std.specs.Prelude.{◌≡◌, ◌≤◌, ◌<◌, ◌+◌, ◌++◌, ◌∷◌, [], length, take, IfOk, OnOk, slice_index_or};
ghost use Rattle.px_base.specs.Bounds.{u32_max};
ghost use Rattle.px_terms.specs.Operators.{no_schema};
ghost use Rattle.px_terms.specs.Limits.{most_height, most_nodes, most_shapes};
ghost use Rattle.px_terms.specs.Validity.{IsValid};
ghost use Rattle.px_rooms.specs.Domain.{building_problem, room_axioms, room_schemas};
ghost use Rattle.px_rooms.specs.States.{IsBuilding, standings};

use crate::building::Building;
use crate::facts::{ROBOT, closed, connects, in_room, is_box, is_door, next_to, opened};
use px_base::push;
use px_terms::{
    ArenaErr, Atom, ClauseArena, Limits, Lit, NoMemory, Problem, Schema, Sequence, Term,
};
use std::alloc::Global;

/// The number of predicates.
pub(crate) const PREDICATES: usize = 8;

/// The number of arguments of each predicate.
const ARITIES: [u8; PREDICATES] = [2, 2, 3, 1, 1, 1, 1, 1];

/// Returns the problem of a building: its objects are the robot, with number 0, and the things; its operators are those of the
/// domain of buildings (`specs/Domain`, after Fikes, Hart and Nilsson 1972), and the limits are the given ones.
///
/// # Errors
/// `NoMemory` where there is no memory for the problem.
pub fn rooms_problem(
    alloc: Global,
    building: &Building,
    height: u32,
    nodes: u32,
    shapes: u32,
) -> Result<Problem, NoMemory>
    requires short { length building.now.things < u32_max }
    requires building { IsBuilding building.now.things }
    requires height { (1 ≤ height) × (height ≤ most_height) }
    requires nodes { (1 ≤ nodes) × (nodes ≤ most_nodes) }
    requires shapes { (2 ≤ shapes) × (shapes ≤ most_shapes) }
    ensures problem { IfOk result (λ p. p ≡ building_problem (length (standings building.now.things) + 1) height nodes shapes) }
    ensures valid { IfOk result IsValid }
{
    let objects = building.things.len() as u32;
    problem_of(alloc, objects, height, nodes, shapes)
}

/// Returns the problem of a building with this number of objects, the robot among them.
pub(crate) fn problem_of(
    alloc: Global,
    objects: u32,
    height: u32,
    nodes: u32,
    shapes: u32,
) -> Result<Problem, NoMemory>
    ensures { IfOk result (λ p. p ≡ building_problem objects height nodes shapes) }
{
    let limits = Limits {
        height,
        nodes,
        shapes,
    };
    let axioms = axioms(alloc)?;
    Problem::without_sorts(alloc, objects, &ARITIES, axioms, schemas(alloc)?, limits)
}

/// Returns the axiom that a door which connects two rooms in one order connects them in the other, too.
fn axioms(alloc: Global) -> Result<ClauseArena, NoMemory>
    ensures { IfOk result (λ axioms. axioms ≡ room_axioms) }
{
    let [door, room, other] = [Term::Var(0), Term::Var(1), Term::Var(2)];
    let one_way = Lit {
        positive: false,
        atom: connects(door, room, other),
    };
    let other_way = Lit {
        positive: true,
        atom: connects(door, other, room),
    };
    let mut axioms = ClauseArena::new(alloc);
    match axioms.push(3, &[one_way, other_way]) {
        Ok(_) => Ok(axioms),
        Err(ArenaErr::NoMemory) => Err(NoMemory),
        Err(_) => unreachable!(),
    }
}

/// Returns the operators by number.
fn schemas(alloc: Global) -> Result<Sequence<Schema>, NoMemory>
    ensures { IfOk result (λ schemas. schemas ≡ room_schemas) }
{
    let mut schemas = Vec::new(alloc);
    push(&mut schemas, go_to_box(alloc)?)?;
    push(&mut schemas, go_to_door(alloc)?)?;
    push(&mut schemas, open_door(alloc)?)?;
    push(&mut schemas, close_door(alloc)?)?;
    push(&mut schemas, go_through(alloc)?)?;
    push(&mut schemas, push_to_door(alloc)?)?;
    push(&mut schemas, push_through(alloc)?)?;
    Ok(Sequence::from_vec(schemas))
}

// Alike: the operators from `go_to_box` to `push_through` are written out one by one, as in `specs/Domain`, to be read beside them.

/// Returns the operator with which the robot goes to a box in a room.
fn go_to_box(alloc: Global) -> Result<Schema, NoMemory>
    ensures { IfOk result (λ s. s ≡ slice_index_or room_schemas 0 no_schema) }
{
    let (target, room) = (Term::Var(0), Term::Var(1));
    let pre = [is_box(target), in_room(target, room), in_room(ROBOT, room)];
    let del = [next_to(ROBOT, Term::Any)];
    Schema::without_sorts(alloc, 0, 2, &pre, &del, &[next_to(ROBOT, target)])
}

/// Returns the operator with which the robot goes to a door of the room in which it is.
fn go_to_door(alloc: Global) -> Result<Schema, NoMemory>
    ensures { IfOk result (λ s. s ≡ slice_index_or room_schemas 1 no_schema) }
{
    let (door, room, other) = (Term::Var(0), Term::Var(1), Term::Var(2));
    let pre = [in_room(ROBOT, room), connects(door, room, other)];
    let del = [next_to(ROBOT, Term::Any)];
    Schema::without_sorts(alloc, 1, 3, &pre, &del, &[next_to(ROBOT, door)])
}

/// Returns the operator with which the robot opens a door that it is beside.
fn open_door(alloc: Global) -> Result<Schema, NoMemory>
    ensures { IfOk result (λ s. s ≡ slice_index_or room_schemas 2 no_schema) }
{
    let door = Term::Var(0);
    let pre = [is_door(door), next_to(ROBOT, door), closed(door)];
    Schema::without_sorts(alloc, 2, 1, &pre, &[closed(door)], &[opened(door)])
}

/// Returns the operator with which the robot closes a door that it is beside.
fn close_door(alloc: Global) -> Result<Schema, NoMemory>
    ensures { IfOk result (λ s. s ≡ slice_index_or room_schemas 3 no_schema) }
{
    let door = Term::Var(0);
    let pre = [is_door(door), next_to(ROBOT, door), opened(door)];
    Schema::without_sorts(alloc, 3, 1, &pre, &[opened(door)], &[closed(door)])
}

/// Returns the operator with which the robot goes through an open door.
fn go_through(alloc: Global) -> Result<Schema, NoMemory>
    ensures { IfOk result (λ s. s ≡ slice_index_or room_schemas 4 no_schema) }
{
    let (door, room, other) = (Term::Var(0), Term::Var(1), Term::Var(2));
    let pre = [
        connects(door, room, other),
        in_room(ROBOT, room),
        opened(door),
    ];
    let del = [in_room(ROBOT, Term::Any), next_to(ROBOT, Term::Any)];
    Schema::without_sorts(alloc, 4, 3, &pre, &del, &[in_room(ROBOT, other)])
}

/// Returns the operator with which the robot pushes a box that it is beside to a door of the room.
fn push_to_door(alloc: Global) -> Result<Schema, NoMemory>
    ensures { IfOk result (λ s. s ≡ slice_index_or room_schemas 5 no_schema) }
{
    let (target, door) = (Term::Var(0), Term::Var(1));
    let (room, other) = (Term::Var(2), Term::Var(3));
    let pre = [
        is_box(target),
        in_room(target, room),
        in_room(ROBOT, room),
        next_to(ROBOT, target),
        connects(door, room, other),
    ];
    let del = [next_to(ROBOT, Term::Any), next_to(target, Term::Any)];
    let add = [next_to(ROBOT, target), next_to(target, door)];
    Schema::without_sorts(alloc, 5, 4, &pre, &del, &add)
}

/// Returns the operator with which the robot pushes a box that it is beside, and which is beside an open door, through it.
fn push_through(alloc: Global) -> Result<Schema, NoMemory>
    ensures { IfOk result (λ s. s ≡ slice_index_or room_schemas 6 no_schema) }
{
    let (target, door) = (Term::Var(0), Term::Var(1));
    let (room, other) = (Term::Var(2), Term::Var(3));
    let pre = [
        is_box(target),
        in_room(target, room),
        in_room(ROBOT, room),
        connects(door, room, other),
        opened(door),
        next_to(ROBOT, target),
        next_to(target, door),
    ];
    let del = [
        in_room(ROBOT, Term::Any),
        in_room(target, Term::Any),
        next_to(ROBOT, Term::Any),
        next_to(target, Term::Any),
    ];
    let add = [
        in_room(ROBOT, other),
        in_room(target, other),
        next_to(ROBOT, target),
    ];
    Schema::without_sorts(alloc, 6, 4, &pre, &del, &add)
}
