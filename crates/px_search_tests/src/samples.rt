//! What the tests ask about: the rooms of 1972 within limits, and the table that is learned there.
ghost use Rattle.px_terms.specs.Validity.{IsValid};

use px_base::Sequence;
use px_ops::Model;
use px_samples::{
    add_axiom, atom, model_of, moving, no, o, objects, parameters, problem_of, rooms, schema,
    sorted_rooms, v, yes,
};
use px_table::Table;
use px_terms::{ClauseArena, Problem, is_valid};
use std::alloc::Global;
use std::process::Abort;

/// Returns the problem of the rooms, searched within these limits of nodes and of shapes.
pub fn rooms_within(alloc: Global, rt: &impl Abort, limits: (u32, u32)) -> Problem
    ensures { IsValid result }
{
    let mut problem = rooms(alloc).expect(rt, "memory");
    (problem.nodes, problem.shapes) = limits;
    assert!(rt; is_valid(&problem));
    problem
}

/// Returns the problem of the rooms, searched with this weight within this limit of nodes.
pub fn weighted_rooms(alloc: Global, rt: &impl Abort, weight: u32, nodes: u32) -> Problem
    ensures { IsValid result }
{
    let mut problem = rooms(alloc).expect(rt, "memory");
    problem.weight = weight;
    problem.nodes = nodes;
    assert!(rt; is_valid(&problem));
    problem
}

/// Returns the rooms where only the box can be pushed, searched within this limit of nodes.
pub fn sorted_within(alloc: Global, rt: &impl Abort, nodes: u32) -> Problem
    ensures { IsValid result }
{
    let mut problem = sorted_rooms(alloc, 0).expect(rt, "memory");
    problem.nodes = nodes;
    assert!(rt; is_valid(&problem));
    problem
}

/// Returns a problem in which an operator on one of three objects needs atom 0 of it and adds atom 1 of it, within four shapes. Atom 0 goes
/// on from object to object, along atom 2. Only object 0 has the sort of the operator's parameter, where it has one.
pub fn spreading(alloc: Global, rt: &impl Abort, wanted: u32) -> Problem
    ensures { IsValid result }
{
    let mut axioms = ClauseArena::new(alloc);
    let spread = [
        no(atom(0, &[v(0)])),
        no(atom(2, &[v(0), v(1)])),
        yes(atom(0, &[v(1)])),
    ];
    add_axiom(&mut axioms, 2, &spread).expect(rt, "an axiom");
    let mut mark = schema(alloc, (0, 1), &[atom(0, &[v(0)])], &[], &[atom(1, &[v(0)])]).expect(
        rt, "memory",
    );
    mark.param_sorts = Sequence::from_slice(alloc, &[wanted]).expect(rt, "memory");
    let mut problem = problem_of(alloc, 3, &[1, 1, 2], axioms, [mark]).expect(rt, "memory");
    problem.sorts = 1;
    problem.object_sorts = Sequence::from_slice(alloc, &[1, 0, 0]).expect(rt, "memory");
    problem.nodes = 10;
    problem.shapes = 4;
    assert!(rt; is_valid(&problem));
    problem
}

/// Returns the model in which atom 0 is so of object 0, and goes on between the others.
pub fn spread_apart(alloc: Global, rt: &impl Abort) -> Model {
    model_of(
        alloc,
        &[
            atom(0, &[o(0)]),
            atom(2, &[o(1), o(2)]),
            atom(2, &[o(2), o(1)]),
        ],
    )
    .expect(rt, "memory")
}

/// Returns the table of going through door 4 into room 2, and pushing the box back.
pub fn there_and_back(alloc: Global, rt: &impl Abort) -> Table {
    moving(alloc, 0, objects()).expect(rt, "memory")
}

/// Returns the table that is learned from it: going through a door into a room, and pushing a box from there through a door into another
/// room. Its six parameters are these two doors, three rooms and the box.
pub fn learned(alloc: Global, rt: &impl Abort) -> Table {
    moving(alloc, 6, parameters()).expect(rt, "memory")
}
