//! The things of a building by their numbers, which begin with 1.
ghost use Rattle.std.specs.Prelude.{◌≡◌, ◌↔◌, ◌<◌, length, IsTrue, All};
ghost use Rattle.px_rooms.specs.Changes.{changed_by, things_with};
ghost use Rattle.px_rooms.specs.States.{IsBoxAt, IsBoxOrDoorOrNone, IsDoorAt, IsDoorOrNone, IsRoomAt, StandsRight, thing_at as at_number};

use crate::change::ThingChange;
use crate::standing::Standing;

/// Returns the thing of that number, or `None` where there is none.
pub(crate) fn thing_at(things: &[Standing], number: u32) -> Option<Standing>
    ensures { result ≡ at_number things.now number }
{
    if number == 0 {
        return None;
    }
    things.get(number as usize - 1).copied()
}

/// Returns whether the thing of that number is a room.
pub(crate) fn is_room(things: &[Standing], number: u32) -> bool
    ensures { IsTrue result ↔ IsRoomAt things.now number }
{
    matches!(thing_at(things, number), Some(Standing::Room))
}

/// Returns whether the thing of that number is a door.
pub(crate) fn is_door(things: &[Standing], number: u32) -> bool
    ensures { IsTrue result ↔ IsDoorAt things.now number }
{
    matches!(thing_at(things, number), Some(Standing::Door { .. }))
}

/// Returns whether the thing of that number is a box.
pub(crate) fn is_box(things: &[Standing], number: u32) -> bool
    ensures { IsTrue result ↔ IsBoxAt things.now number }
{
    matches!(thing_at(things, number), Some(Standing::Box { .. }))
}

/// Returns whether the numbers of a thing name things of the kinds that are wanted, and those of a door two rooms.
pub(crate) fn stands_right(things: &[Standing], standing: &Standing) -> bool
    ensures { IsTrue result ↔ StandsRight things.now standing.now }
{
    match *standing {
        Standing::Room => true,
        Standing::Door { a, b, .. } => is_room(things, a) && is_room(things, b) && a != b,
        Standing::Box { room, beside } => is_room(things, room) && is_door_or_none(things, beside),
    }
}

/// Returns whether it is a door's number, if it is a number.
fn is_door_or_none(things: &[Standing], beside: Option<u32>) -> bool
    ensures { IsTrue result ↔ IsDoorOrNone things.now beside }
{
    match beside {
        None => true,
        Some(number) => is_door(things, number),
    }
}

/// Returns whether all things stand right.
pub(crate) fn all_stand_right(things: &[Standing]) -> bool
    ensures { IsTrue result ↔ All (StandsRight things.now) things.now }
{
    things.iter().all(|standing| stands_right(things, standing))
}

/// Changes the thing of that number, where there is one.
pub(crate) fn change_thing(things: &mut [Standing], number: u32, change: ThingChange)
    ensures { things.new ≡ things_with number (changed_by change) things.old }
{
    let place = number as usize;
    if 1 <= place && place <= things.len() {
        things[place - 1] = changed(things[place - 1], change);
    }
}

/// Returns the thing after the change.
fn changed(standing: Standing, change: ThingChange) -> Standing
    ensures { result ≡ changed_by change standing }
{
    match change {
        ThingChange::Turned(is_open) => match standing {
            Standing::Door { a, b, .. } => Standing::Door { a, b, is_open },
            other => other,
        },
        ThingChange::Beside(door) => match standing {
            Standing::Box { room, .. } => Standing::Box {
                room,
                beside: Some(door),
            },
            other => other,
        },
        ThingChange::Into(room) => match standing {
            Standing::Box { .. } => Standing::Box { room, beside: None },
            other => other,
        },
    }
}
