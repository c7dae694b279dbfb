//! A building of two rooms, its problem and its world are made where there is memory.
ghost use Rattle.std.specs.Prelude.{◌≡◌, IfOk};
ghost use Rattle.px_rooms.specs.WorkedBuilding.{two_rooms as worked_rooms};

use crate::{
    Building, RoomWorld, actions_are_results, actions_are_runs, buildings_are_valid,
    edits_are_edits, facts_are_atoms, facts_are_few, instances_are_actions, refusals_are_allowed,
    room_edits_add_one, rooms_problem, worked_building, worked_domain,
};
use px_terms::{NoMemory, Sequence};
use px_world::{Regrow, Thing};
use std::alloc::Global;
use std::rt::HostRuntime;

/// Returns two rooms with a closed door between them, and a box and the robot in the first room.
fn two_rooms(alloc: Global) -> Result<Building, NoMemory>
    ensures { IfOk result (λ building. building.things ≡ worked_rooms) }
{
    let door = Thing::Door {
        a: 1,
        b: 2,
        is_open: false,
    };
    let things = [
        Thing::Room,
        Thing::Room,
        door,
        Thing::Box { room: 1 },
        Thing::Robot { room: 1 },
    ];
    Ok(Building {
        things: Sequence::from_slice(alloc, &things)?,
    })
}

#[test]
#[tactic(auto, using(crate::proofs::Wanted::two_rooms_by, crate::proofs::Wanted::two_rooms_short))]
fn a_problem(rt: HostRuntime) -> Result<(), NoMemory> {
    let building = two_rooms(rt.alloc())?;
    let problem = rooms_problem(rt.alloc(), &building, 4, 10000, 10000)?;
    assert!(&rt; problem.objects == 5 && problem.schemas.len() == 7);
    Ok(())
}

#[test]
#[tactic(auto, using(crate::proofs::Wanted::two_rooms_short))]
fn a_world_and_its_copy(rt: HostRuntime) -> Result<(), NoMemory> {
    let building = two_rooms(rt.alloc())?;
    let world = RoomWorld::new(rt.alloc(), &building).expect(&rt, "memory");
    let mut copy = world.try_copy()?;
    copy.regrow(8)?;
    let facts = copy.render(rt.alloc())?;
    assert!(&rt; copy.atom_count() == 9 && facts.atoms().len() == 9);
    Ok(())
}

#[test]
fn laws_are_calls(_rt: HostRuntime) {
    buildings_are_valid();
    worked_domain();
    worked_building();
    actions_are_results();
    actions_are_runs();
    instances_are_actions();
    edits_are_edits();
    refusals_are_allowed();
    facts_are_atoms();
    facts_are_few();
    room_edits_add_one();
}
