//! One executor and two, of the table of 1972, in a world of atoms.
ghost use Rattle.px_terms.specs.Validity.{IsValid};
ghost use Rattle.px_table.specs.Tables.{IsTable};

use px_duo::{Duo, DuoEvent, Who};
use px_match::Matcher;
use px_planex::{Event, Outcome, Planex};
use px_samples::{is_box, moving, o, opening, parameters, rooms};
use px_table::{Table, check_table};
use px_terms::{Problem, is_ground, is_valid};
use px_world::{AtomEdit, AtomWorld};
use std::alloc::Global;
use std::process::Abort;
use std::rt::HostRuntime;

/// Returns the problem of the example.
fn valid_rooms(alloc: Global, rt: &impl Abort) -> Problem
    ensures { IsValid result }
{
    let problem = rooms(alloc).expect(rt, "memory");
    assert!(rt; is_valid(&problem));
    problem
}

/// Returns the table by which some box comes into a room.
fn moving_in(alloc: Global, rt: &impl Abort, problem: &Problem) -> Table
    requires { IsValid problem.now }
    ensures { IsTable problem.now result }
{
    let table = moving(alloc, 6, parameters()).expect(rt, "memory");
    assert!(rt; check_table(problem, &table));
    table
}

/// A box is in some room.
fn some_box_is_somewhere(alloc: Global, rt: &impl Abort, problem: &Problem, table: &Table)
    requires problem { IsValid problem.now }
    requires table { IsTable problem.now table.now }
{
    let facts = opening(alloc).expect(rt, "memory");
    let mut matcher = Matcher::reserve(alloc, problem, table, &[], 5).expect(rt, "memory");
    assert!(rt; facts.atoms().len() == 5 && matcher.best(&facts) == Some(3));
    assert!(rt; matcher.instance() == [0u32, 0, 0, 6, 0, 2].as_slice());
}

/// It is to be in room 1; then it is gone.
fn it_shall_be_in_room_1(alloc: Global, rt: &impl Abort, problem: &Problem, table: &Table)
    requires problem { IsValid problem.now }
    requires table { IsTable problem.now table.now }
{
    let facts = opening(alloc).expect(rt, "memory");
    assert!(rt; facts.atoms().len() == 5 && problem.objects > 1);
    let mut world = AtomWorld::new(alloc, problem, &facts, 4).expect(rt, "memory");
    let mut planex = Planex::begin(alloc, problem, table, &[(6, 1)], 5).expect(rt, "memory");
    assert!(rt; planex.step(&mut world, Event::Sense) == Outcome::Sensed(1));
    assert!(rt; planex.instance() == [1u32, 4, 2, 6, 4, 1].as_slice());
    let cargo = is_box(o(6));
    assert!(rt; is_ground(&cargo));
    let gone = Event::Disturb(AtomEdit::Remove(cargo));
    assert!(rt; planex.step(&mut world, gone) == Outcome::Disturbed);
}

/// To the second of two executors any room will do.
fn any_room_will_do(alloc: Global, rt: &impl Abort, problem: &Problem, table: &Table)
    requires problem { IsValid problem.now }
    requires table { IsTable problem.now table.now }
{
    let facts = opening(alloc).expect(rt, "memory");
    assert!(rt; facts.atoms().len() == 5);
    let mut world = AtomWorld::new(alloc, problem, &facts, 4).expect(rt, "memory");
    let mut duo = Duo::begin(alloc, problem, table, table, 5).expect(rt, "memory");
    assert!(rt; duo.step(&mut world, DuoEvent::Sense(Who::Second)) == Outcome::Goal);
}

#[test]
fn a_box_is_where_it_shall_be(rt: HostRuntime) {
    let alloc = rt.alloc();
    let problem = valid_rooms(alloc, &rt);
    let table = moving_in(alloc, &rt, &problem);
    some_box_is_somewhere(alloc, &rt, &problem, &table);
    it_shall_be_in_room_1(alloc, &rt, &problem, &table);
    any_room_will_do(alloc, &rt, &problem, &table);
}
