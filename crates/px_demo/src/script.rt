//! The text of the script, line by line.
ghost use Rattle.std.specs.Prelude.{◌≡◌, ◌≤◌, ◌-◌, ◌++◌, ◌∷◌, [], IfOk, OnOk, codes, length, map, string_bytes};
ghost use Rattle.std.specs.List.{flat_map, range_with_len};
ghost use Rattle.px_demo.specs.Limits.{least_rooms, most_rooms, most_seed};
ghost use Rattle.px_demo.specs.Script.{building_lines, demo_script, door_line, errand_lines, errands, learn_line, plan_line, room_line, run_line, text_of_lines, things_lines};

use crate::errands::{distance, next_number, target};
use px_base::NoMemory;
use std::alloc::{AllocError, Global};
use std::fmt::Write;

/// Returns the script of the demo with this number of rooms, for a seed.
///
/// # Errors
/// `NoMemory` where there is no memory for the text.
#[tactic(auto, using(crate::proofs::Texts::script_text))]
pub fn demo_script(alloc: Global, rooms: u32, seed: u32) -> Result<Vec<u8>, NoMemory>
    requires rooms { (least_rooms ≤ rooms) × (rooms ≤ most_rooms) }
    requires seed { seed ≤ most_seed }
    ensures script { IfOk result (λ text. text.items ≡ demo_script rooms seed) }
    ensures short { IfOk result (λ text. length text.items ≤ 3200) }
{
    let mut text = String::new(alloc);
    push_building(&mut text, rooms)?;
    push_errands(&mut text, rooms, seed)?;
    Ok(text.into_bytes())
}

/// Appends the building: the rooms in a row, an open door between each two, a box and the robot.
fn push_building(text: &mut String, rooms: u32) -> Result<(), AllocError>
    requires rooms { (least_rooms ≤ rooms) × (rooms ≤ most_rooms) }
    ensures { OnOk result (string_bytes text.new ≡ string_bytes text.old ++ text_of_lines (building_lines rooms)) }
{
    push_start(text)?;
    push_rooms(text, rooms)?;
    push_doors(text, rooms - 1)?;
    push_things(text)
}

/// Appends the line that opens the building.
fn push_start(text: &mut String) -> Result<(), AllocError>
    ensures { OnOk result (string_bytes text.new ≡ string_bytes text.old ++ text_of_lines ((codes "building" ∷ []) ∷ [])) }
{
    text.push_str("building\n")
}

/// Appends the lines of the box and the robot, and the one that closes the building.
fn push_things(text: &mut String) -> Result<(), AllocError>
    ensures { OnOk result (string_bytes text.new ≡ string_bytes text.old ++ text_of_lines things_lines) }
{
    text.push_str("box B1 R2\nrobot R1\nend\n")
}

/// Appends the lines of the first `count` rooms.
fn push_rooms(text: &mut String, count: u32) -> Result<(), AllocError>
    requires { count ≤ most_rooms }
    ensures { OnOk result (string_bytes text.new ≡ string_bytes text.old ++ text_of_lines (map room_line (range_with_len 1 count))) }
{
    for room in 1..=count {
        push_room(text, room)?;
    }
    Ok(())
}

/// Appends the line of a room.
fn push_room(text: &mut String, room: u32) -> Result<(), AllocError>
    ensures { OnOk result (string_bytes text.new ≡ string_bytes text.old ++ text_of_lines (room_line room ∷ [])) }
{
    write!(text, "room R{room}\n")
}

/// Appends the lines of the first `count` doors.
fn push_doors(text: &mut String, count: u32) -> Result<(), AllocError>
    requires { count ≤ most_rooms }
    ensures { OnOk result (string_bytes text.new ≡ string_bytes text.old ++ text_of_lines (map door_line (range_with_len 1 count))) }
{
    for door in 1..=count {
        push_door(text, door)?;
    }
    Ok(())
}

/// Appends the line of a door, which leads from the room of its number to the next.
fn push_door(text: &mut String, door: u32) -> Result<(), AllocError>
    requires { door ≤ most_rooms }
    ensures { OnOk result (string_bytes text.new ≡ string_bytes text.old ++ text_of_lines (door_line door ∷ [])) }
{
    let next = door + 1;
    write!(text, "door D{door} R{door} R{next} open\n")
}

/// Appends the errands, as many as rooms.
fn push_errands(text: &mut String, rooms: u32, seed: u32) -> Result<(), AllocError>
    requires rooms { (least_rooms ≤ rooms) × (rooms ≤ most_rooms) }
    requires seed { seed ≤ most_seed }
    ensures { OnOk result (string_bytes text.new ≡ string_bytes text.old ++ text_of_lines (errands rooms seed)) }
{
    let mut number = u64::from(seed);
    let mut room = 1;
    for done in 0..rooms {
        number = next_number(number);
        let far = distance(number);
        room = target(rooms, room, far);
        push_errand(text, done + 1, room)?;
    }
    Ok(())
}

/// Appends an errand: a plan to the room, which is learned and run.
fn push_errand(text: &mut String, errand: u32, room: u32) -> Result<(), AllocError>
    ensures { OnOk result (string_bytes text.new ≡ string_bytes text.old ++ text_of_lines (errand_lines errand room)) }
{
    push_plan(text, errand, room)?;
    push_learn(text, errand)?;
    push_run(text, errand)
}

/// Appends the line that asks for an errand's plan.
fn push_plan(text: &mut String, errand: u32, room: u32) -> Result<(), AllocError>
    ensures { OnOk result (string_bytes text.new ≡ string_bytes text.old ++ text_of_lines (plan_line errand room ∷ [])) }
{
    write!(text, "plan G{errand} INROOM(ROBOT,R{room})\n")
}

/// Appends the line that learns an errand's plan.
fn push_learn(text: &mut String, errand: u32) -> Result<(), AllocError>
    ensures { OnOk result (string_bytes text.new ≡ string_bytes text.old ++ text_of_lines (learn_line errand ∷ [])) }
{
    write!(text, "learn M{errand} from G{errand}\n")
}

/// Appends the line that runs an errand's plan.
fn push_run(text: &mut String, errand: u32) -> Result<(), AllocError>
    ensures { OnOk result (string_bytes text.new ≡ string_bytes text.old ++ text_of_lines (run_line errand ∷ [])) }
{
    write!(text, "run G{errand}\n")
}
