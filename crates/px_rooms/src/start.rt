//! Buildings as they stand at first.
ghost use Rattle.std.specs.Prelude.{◌≡◌, ℕ, List, ◌∷◌, [], ◌++◌, length, IfOk, MatchOption, OnOk};
ghost use Rattle.px_rooms.specs.RobotCounts.{AreRobots};
ghost use Rattle.px_rooms.specs.States.{robot_rooms, standings};

use crate::robots::Robots;
use crate::standing::Standing;
use px_base::push;
use px_terms::NoMemory;
use px_world::Thing;
use std::alloc::Global;

/// Returns the robots among the things.
pub(crate) fn robots_of(things: &[Thing]) -> Robots
    ensures { AreRobots result (robot_rooms things.now) }
{
    let mut robots = Robots::None;
    for thing in things {
        robots = with_thing(robots, thing);
    }
    robots
}

/// Returns the robots after one more thing is counted.
fn with_thing(robots: Robots, thing: &Thing) -> Robots
    ensures { (before : List ℕ) → AreRobots robots before → AreRobots result (before ++ robot_rooms (thing.now ∷ [])) }
{
    match room_of_robot(thing) {
        Some(room) => one_more(robots, room),
        None => robots,
    }
}

/// Returns the robot's room, if the thing is the robot.
fn room_of_robot(thing: &Thing) -> Option<u32>
    ensures { MatchOption result (robot_rooms (thing.now ∷ []) ≡ []) (λ room. robot_rooms (thing.now ∷ []) ≡ room ∷ []) }
{
    match *thing {
        Thing::Robot { room } => Some(room),
        _ => None,
    }
}

/// Returns the robots after one more robot is counted.
fn one_more(robots: Robots, room: u32) -> Robots
    ensures { (before : List ℕ) → AreRobots robots before → AreRobots result (before ++ room ∷ []) }
{
    match robots {
        Robots::None => Robots::One(room),
        Robots::One(_) => Robots::Several,
        Robots::Several => Robots::Several,
    }
}

/// Returns the things other than the robot, as they stand at first.
pub(crate) fn first_things(alloc: Global, things: &[Thing]) -> Result<Vec<Standing>, NoMemory>
    ensures { IfOk result (λ first. first.items ≡ standings things.now) }
{
    let mut first = Vec::new(alloc);
    for thing in things {
        add_thing(&mut first, thing)?;
    }
    Ok(first)
}

/// Appends a thing in its first state; adds nothing for a robot.
fn add_thing(first: &mut Vec<Standing>, thing: &Thing) -> Result<(), NoMemory>
    ensures { OnOk result (first.new.items ≡ first.old.items ++ standings (thing.now ∷ [])) }
{
    let standing = match *thing {
        Thing::Room => Standing::Room,
        Thing::Door { a, b, is_open } => Standing::Door { a, b, is_open },
        Thing::Box { room } => Standing::Box { room, beside: None },
        Thing::Robot { .. } => return Ok(()),
    };
    push(first, standing)
}
