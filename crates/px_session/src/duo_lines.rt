//! What two executors do in a session's world.
ghost use Rattle.std.specs.Prelude.{◌≡◌, ◌≢◌, ◌≤◌, ◌*◌, [], None, length, vec_capacity};
ghost use Rattle.px_world.specs.Worlds.{HaveSameRules};
ghost use Rattle.px_duo.specs.Duos.{duo_running, own};
ghost use Rattle.px_turns.specs.Turning.{adds_most};
ghost use Rattle.px_session.specs.DuoRuns.{AreDuoLines, IsDuoLine, who_of};
ghost use Rattle.px_session.specs.RunWorlds.{TakeSame, building_of, run_world_atoms, run_world_rules};
ghost use Rattle.px_session.specs.Running.{HasDuoPlaces, TookPlaces};
ghost use Rattle.px_session.specs.Sessions.{leaves_edit};

use crate::run_world::RunWorld;
use px_base::push_within;
use px_duo::{Duo, DuoEvent, Who};
use px_planex::Outcome;
use px_printer::{DuoEnd, DuoLine};

/// Returns the executor of a number: 1 is the first, and 2 the second.
fn who_of(number: u32) -> Who
    ensures { result ≡ who_of number }
{
    if number == 1 { Who::First } else { Who::Second }
}

/// Lets the executor of that number sense, and returns its line.
fn sense_line(duo: &mut Duo<'_>, world: &mut RunWorld<'_>, number: u32) -> DuoLine
    requires forgets { (own (who_of number) duo.old.memories).remembered ≡ None }
    requires places { HasDuoPlaces duo.old (adds_most duo.old.problem.schemas) world.old }
    ensures line { IsDuoLine leaves_edit duo.old.problem duo.old.tables number (duo_running (run_world_atoms world.old) duo.old.memories)
        result (duo_running (run_world_atoms world.new) duo.new.memories) }
    ensures frame { duo.new ≡ record duo.old { memories = duo.new.memories } }
    ensures taken { TookPlaces (adds_most duo.old.problem.schemas) world.old world.new }
{
    let who = who_of(number);
    match duo.step(world, DuoEvent::Sense(who)) {
        Outcome::Sensed(kernel) => DuoLine {
            who: number,
            end: DuoEnd::Sensed(kernel),
            op: duo.action(who),
        },
        Outcome::Goal => DuoLine {
            who: number,
            end: DuoEnd::Goal,
            op: None,
        },
        Outcome::NoKernel => DuoLine {
            who: number,
            end: DuoEnd::NoKernel,
            op: None,
        },
        _ => unreachable!(),
    }
}

/// Lets the executor of that number act, and returns its line.
fn act_line(duo: &mut Duo<'_>, world: &mut RunWorld<'_>, number: u32) -> DuoLine
    requires remembers { (own (who_of number) duo.old.memories).remembered ≢ None }
    requires places { HasDuoPlaces duo.old (adds_most duo.old.problem.schemas) world.old }
    ensures line { IsDuoLine leaves_edit duo.old.problem duo.old.tables number (duo_running (run_world_atoms world.old) duo.old.memories)
        result (duo_running (run_world_atoms world.new) duo.new.memories) }
    ensures frame { duo.new ≡ record duo.old { memories = duo.new.memories } }
    ensures taken { TookPlaces (adds_most duo.old.problem.schemas) world.old world.new }
{
    let end = match duo.step(world, DuoEvent::Act(who_of(number))) {
        Outcome::Acted => DuoEnd::Acted,
        Outcome::Slipped => DuoEnd::Slipped,
        _ => unreachable!(),
    };
    DuoLine {
        who: number,
        end,
        op: None,
    }
}

/// Lets the executor of that number act where it remembers a step, and sense where it remembers none. Returns its line.
fn take_line(duo: &mut Duo<'_>, world: &mut RunWorld<'_>, number: u32) -> DuoLine
    requires places { HasDuoPlaces duo.old (adds_most duo.old.problem.schemas) world.old }
    ensures line { IsDuoLine leaves_edit duo.old.problem duo.old.tables number (duo_running (run_world_atoms world.old) duo.old.memories)
        result (duo_running (run_world_atoms world.new) duo.new.memories) }
    ensures frame { duo.new ≡ record duo.old { memories = duo.new.memories } }
    ensures taken { TookPlaces (adds_most duo.old.problem.schemas) world.old world.new }
{
    match duo.action(who_of(number)) {
        None => sense_line(duo, world, number),
        Some(_) => act_line(duo, world, number),
    }
}

/// Lets the executors of these numbers go on, one after the other, and appends their lines to the list, which has room for all of them.
/// Does not allocate.
pub(crate) fn take_lines(
    duo: &mut Duo<'_>,
    world: &mut RunWorld<'_>,
    numbers: &[u32],
    lines: Vec<DuoLine>,
) -> Vec<DuoLine>
    requires none { lines.items ≡ [] }
    requires room { length numbers.now ≤ vec_capacity lines }
    requires places { HasDuoPlaces duo.old (length numbers.now * adds_most duo.old.problem.schemas) world.old }
    ensures lines { AreDuoLines leaves_edit duo.old.problem duo.old.tables numbers.now
        (duo_running (run_world_atoms world.old) duo.old.memories) result.items (duo_running (run_world_atoms world.new) duo.new.memories) }
    ensures room { length (run_world_atoms world.new) ≤ duo.old.room }
    ensures rules { HaveSameRules (run_world_rules world.new) duo.old.problem }
    ensures takes { TakeSame (building_of world.old) (building_of world.new) }
{
    let mut taken = lines;
    for place in 0..numbers.len() {
        let DuoLine { who, end, op } = take_line(duo, world, numbers[place]);
        push_within(&mut taken, DuoLine { who, end, op });
    }
    taken
}
