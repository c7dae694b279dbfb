//! A pursuit in a building.
use crate::told::reaches;
use px_base::Sequence;
use px_entries::are_learned;
use px_printer::TurnEnd;
use px_pursue::pursue;
use px_rooms::{Building, RoomWorld, rooms_problem};
use px_samples::{atom, o};
use px_terms::are_atoms_of;
use px_world::{Thing, World};
use std::rt::HostRuntime;

/// The robot goes to a closed door, opens it, and goes through it.
#[test]
#[tactic(auto, using(crate::proofs::Alike::same_rules))]
fn the_robot_goes_into_another_room(rt: HostRuntime) {
    let alloc = rt.alloc();
    let door = Thing::Door {
        a: 1,
        b: 2,
        is_open: false,
    };
    let things = [Thing::Room, Thing::Room, door, Thing::Robot { room: 1 }];
    let building = Building {
        things: Sequence::from_slice(alloc, &things).expect(&rt, "memory"),
    };
    assert!(&rt; building.things.len() == 4);
    let mut world = RoomWorld::new(alloc, &building).expect(&rt, "a building");
    let problem = rooms_problem(alloc, &building, 4, 10000, 10000).expect(&rt, "memory");
    let there = atom(0, &[o(0), o(2)]);
    let goal = [there];
    assert!(&rt; are_atoms_of(&problem, 0, &goal));
    assert!(&rt; are_learned(&problem, &[]));
    let made = pursue(alloc, &problem, &mut world, &goal, 0, &[], &[]).expect(&rt, "memory");
    let told = [
        (1, TurnEnd::Acted),
        (2, TurnEnd::Acted),
        (3, TurnEnd::Acted),
        (4, TurnEnd::Goal),
    ];
    assert!(&rt; reaches(&made, 1, &told) && world.holds(&there));
}
