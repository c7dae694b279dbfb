//! The general table of the example of 1972, edited: going alone; and what isn't edited.
ghost use Rattle.px_terms.specs.Validity.{IsValid};

use px_edit::{EditErr, edit};
use px_samples::{ROBOT, connects, instance, is_in, mark, moving, parameters, rooms, v};
use px_table::check_table;
use px_terms::{Problem, is_valid};
use std::alloc::Global;
use std::process::Abort;
use std::rt::HostRuntime;

/// Returns the rooms of 1972, whose problem has to be valid.
fn valid_rooms(alloc: Global, rt: &impl Abort) -> Problem
    ensures { IsValid result }
{
    let problem = rooms(alloc).expect(rt, "memory");
    assert!(rt; is_valid(&problem));
    problem
}

/// The robot goes through the door: the box, the other door and the last room are gone.
#[test]
fn going_alone(rt: HostRuntime) {
    let alloc = rt.alloc();
    let problem = valid_rooms(alloc, &rt);
    let table = moving(alloc, 6, parameters()).expect(&rt, "memory");
    assert!(&rt; check_table(&problem, &table));
    let edited = edit(alloc, &problem, &table, 2, &[(1, 0)]).expect(&rt, "memory");
    let there = is_in(ROBOT, v(2));
    assert!(&rt; edited.params == 3 && edited.goal_variable_count == 0);
    assert!(&rt; edited.steps.as_slice() == [instance(0, &[v(1), v(0), v(2)])].as_slice());
    assert!(&rt; edited.goal.as_slice() == [there].as_slice());
    let marks = [
        mark(1, 0, 0, is_in(ROBOT, v(0))),
        mark(1, 0, 0, connects(v(1), v(0), v(2))),
        mark(2, 1, 0, there),
    ];
    assert!(&rt; edited.marks.as_slice() == marks.as_slice());
}

/// The second pair names a step after the prefix.
#[test]
fn a_step_after_the_prefix(rt: HostRuntime) {
    let alloc = rt.alloc();
    let problem = valid_rooms(alloc, &rt);
    let table = moving(alloc, 6, parameters()).expect(&rt, "memory");
    assert!(&rt; check_table(&problem, &table));
    let refused = edit(alloc, &problem, &table, 1, &[(1, 0), (2, 0)]);
    assert!(&rt; matches!(&refused, Err(EditErr::BadWant(1))));
}
