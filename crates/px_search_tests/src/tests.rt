//! What is answered where a box is to be in room 1.
ghost use Rattle.px_terms.specs.Validity.{IsValid};

use crate::samples::{
    learned, rooms_within, sorted_within, spread_apart, spreading, there_and_back, weighted_rooms,
};
use px_entries::are_learned;
use px_numbers::FirstNodes;
use px_samples::{ROBOT, atom, box_in_first_room, is_box, opening, v};
use px_search::{Found, SearchErr, search};
use px_table::{Table, marks};
use px_terms::{Atom, Problem, are_atoms_of};
use std::alloc::Global;
use std::process::Abort;
use std::rt::HostRuntime;

/// What is answered, in short.
#[derive(Clone, Copy)]
enum Answered {
    /// Going there and pushing the box back, by so many moves, with rows that rest on what those of the table rest on.
    ThereAndBack(usize),
    /// Another plan, of so many moves and with so many rows.
    Plan(usize, usize),
    /// So many nodes, of which the last has so many facts. So many moves reach a further one.
    Nodes(usize, usize, u32),
    /// So many shapes.
    Shapes(usize),
    Exhausted,
    NoMemory,
}

/// Returns whether going there and pushing the box back is planned, with rows that rest on what those of the table rest on.
fn is_there_and_back(alloc: Global, rt: &impl Abort, plan: &Found) -> bool {
    let wanted = there_and_back(alloc, rt);
    assert!(rt; plan.support.len() <= 66);
    let found = marks(alloc, &plan.support).expect(rt, "memory");
    plan.steps.as_slice() == wanted.steps.as_slice() && found == wanted.marks
}

/// Returns how many facts the last node has.
fn facts_of_last(alloc: Global, rt: &impl Abort, nodes: &FirstNodes) -> usize {
    assert!(rt; nodes.count() > 0);
    let last = nodes.node(alloc, nodes.count() - 1).expect(rt, "memory");
    last.model().atoms().len()
}

/// Returns what is answered, in short.
fn in_short(alloc: Global, rt: &impl Abort, found: &Result<Found, SearchErr>) -> Answered {
    match found {
        Ok(plan) => if is_there_and_back(alloc, rt, plan) {
            Answered::ThereAndBack(plan.moves.len())
        } else {
            Answered::Plan(plan.moves.len(), plan.support.len())
        },
        Err(SearchErr::NodeLimit { nodes, moves }) => {
            Answered::Nodes(nodes.count(), facts_of_last(alloc, rt, nodes), *moves)
        }
        Err(SearchErr::ShapeLimit { limit, .. }) => Answered::Shapes(limit.shapes.len()),
        Err(SearchErr::Exhausted) => Answered::Exhausted,
        Err(SearchErr::NoMemory) => Answered::NoMemory,
    }
}

/// Returns what is answered from the opening model.
fn answer(
    alloc: Global,
    rt: &impl Abort,
    problem: &Problem,
    goal: &[Atom],
    tables: &[Table],
) -> Answered
    requires { IsValid problem.now }
{
    let initial = opening(alloc).expect(rt, "memory");
    assert!(rt; are_atoms_of(problem, 1, goal));
    assert!(rt; are_learned(problem, tables));
    assert!(rt; problem.objects > 0);
    in_short(
        alloc,
        rt,
        &search(alloc, problem, &initial, goal, 1, tables),
    )
}

/// Returns what is answered in the rooms within these limits, without tables.
fn answer_within(alloc: Global, rt: &impl Abort, limits: (u32, u32), goal: &[Atom]) -> Answered {
    let problem = rooms_within(alloc, rt, limits);
    answer(alloc, rt, &problem, goal, &[])
}

#[test]
fn a_box_is_pushed_back(rt: HostRuntime) {
    let found = answer_within(rt.alloc(), &rt, (89, 10000), &box_in_first_room());
    assert!(&rt; matches!(found, Answered::ThereAndBack(4)));
}

/// Returns what is answered in the rooms with this weight, within this limit of nodes.
fn answer_by(alloc: Global, rt: &impl Abort, weight: u32, nodes: u32) -> Answered {
    let problem = weighted_rooms(alloc, rt, weight, nodes);
    answer(alloc, rt, &problem, &box_in_first_room(), &[])
}

/// With a greater weight fewer nodes are found on the way. The numbers are those of another program.
#[test]
fn a_weight_spares_nodes(rt: HostRuntime) {
    let alloc = rt.alloc();
    for (weight, nodes) in [(0, 89), (1, 25), (3, 20), (16, 20), (1000, 20)] {
        let found = answer_by(alloc, &rt, weight, nodes);
        assert!(&rt; matches!(found, Answered::ThereAndBack(4)));
        let limited = answer_by(alloc, &rt, weight, nodes - 1);
        assert!(&rt; matches!(limited, Answered::Nodes(..)));
    }
}

#[test]
fn eighty_eight_nodes_are_too_few(rt: HostRuntime) {
    let found = answer_within(rt.alloc(), &rt, (88, 10000), &box_in_first_room());
    assert!(&rt; matches!(found, Answered::Nodes(88, 5, 4)));
}

/// Returns how many moves lead to the first node that isn't kept within this limit, where only the box can be pushed; 0 where the goal is
/// reached by going there and pushing the box back.
fn moves_beyond(alloc: Global, rt: &impl Abort, nodes: u32) -> Option<u32> {
    let problem = sorted_within(alloc, rt, nodes);
    match answer(alloc, rt, &problem, &box_in_first_room(), &[]) {
        Answered::ThereAndBack(_) => Some(0),
        Answered::Nodes(_, _, moves) => Some(moves),
        _ => None,
    }
}

#[test]
fn only_the_box_is_pushed(rt: HostRuntime) {
    let alloc = rt.alloc();
    for (nodes, moves) in [(1, 1), (2, 2), (5, 2), (6, 3), (11, 4), (12, 0)] {
        assert!(&rt; moves_beyond(alloc, &rt, nodes) == Some(moves));
    }
}

/// Returns what is answered where some object is to have atom 1, and the operator's parameter has this sort.
fn answer_spreading(alloc: Global, rt: &impl Abort, wanted: u32) -> Answered {
    let problem = spreading(alloc, rt, wanted);
    let initial = spread_apart(alloc, rt);
    let goal = [atom(1, &[v(0)])];
    assert!(rt; are_atoms_of(&problem, 1, &goal));
    assert!(rt; are_learned(&problem, &[]));
    assert!(rt; problem.objects > 0);
    in_short(alloc, rt, &search(alloc, &problem, &initial, &goal, 1, &[]))
}

#[test]
fn nothing_is_asked_about_what_does_not_fit(rt: HostRuntime) {
    let found = answer_spreading(rt.alloc(), &rt, 1);
    assert!(&rt; matches!(found, Answered::Plan(2, 2)));
    let limited = answer_spreading(rt.alloc(), &rt, 0);
    assert!(&rt; matches!(limited, Answered::Shapes(_)));
}

#[test]
fn two_shapes_are_too_few(rt: HostRuntime) {
    let found = answer_within(rt.alloc(), &rt, (89, 2), &box_in_first_room());
    assert!(&rt; matches!(found, Answered::Shapes(2)));
}

#[test]
fn the_robot_is_no_box(rt: HostRuntime) {
    let found = answer_within(rt.alloc(), &rt, (1, 10000), &[is_box(ROBOT)]);
    assert!(&rt; matches!(found, Answered::Exhausted));
}

#[test]
fn no_moves_have_the_row_of_the_goal(rt: HostRuntime) {
    let found = answer_within(rt.alloc(), &rt, (1, 10000), &[]);
    assert!(&rt; matches!(found, Answered::Plan(0, 1)));
}

/// The only plan of two moves that applies both steps pushes both as one entry.
#[test]
fn a_learned_table_is_taken_as_one_operator(rt: HostRuntime) {
    let alloc = rt.alloc();
    let problem = rooms_within(alloc, &rt, (100, 10000));
    let tables = [learned(alloc, &rt)];
    let found = answer(alloc, &rt, &problem, &box_in_first_room(), &tables);
    assert!(&rt; matches!(found, Answered::ThereAndBack(2)));
}
