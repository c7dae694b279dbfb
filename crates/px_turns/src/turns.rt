//! The turns of a run.
ghost use Rattle.std.specs.Prelude.{◌≡◌, ◌≢◌, ◌<◌, ◌≤◌, ◌+◌, ◌++◌, List, All, MatchBool, None, length, map, vec_capacity};
ghost use Rattle.px_base.specs.Bounds.{u32_max};
ghost use Rattle.px_terms.specs.Validity.{IsValid};
ghost use Rattle.px_table.specs.Tables.{IsTable};
ghost use Rattle.px_planex.specs.Turns.{AtGoal, AtNoKernel, IsLastTurn, edits_at, is_at};
ghost use Rattle.px_turns.specs.Told.{AdmitSame, AdmitsAll, EndsRun, end_told, turn_told};
ghost use Rattle.px_turns.specs.Turning.{EndsSensed, HasPlaces, HasTaken, IsDisturbed, TakesFrom, TakesNumbered, most_turns, places_from, places_of_action, places_of_turn};

use crate::recorded::Recorded;
use px_base::push_within;
use px_planex::{Event, Outcome, Planex};
use px_printer::{Turn, TurnEnd};
use px_table::Table;
use px_world::World;

/// Returns whether it is for that turn and point.
fn is_for<E>(one: &Recorded<E>, number: usize, between: bool) -> bool
    ensures { result ≡ is_at number between one.now }
{
    let is_of_turn = one.turn as usize == number;
    is_of_turn && one.between == between
}

/// Changes the world by these edits, one after the other.
fn disturb_by<W: World>(world: &mut W, edits: &[W::Edit])
    requires admitted { All (W.admits world.old) edits.now }
    requires spare { length edits.now ≤ W.spare world.old }
    ensures { IsDisturbed W.rules W.atoms W.spare W.admits W.leaves edits.now world.old world.new }
{
    for edit in edits {
        world.disturb(edit);
    }
}

/// Changes the world by the edits that are recorded for the turn and the point.
fn disturb_at<W: World>(world: &mut W, recorded: &[Recorded<W::Edit>], number: usize, between: bool)
    requires admitted { AdmitsAll (W.admits world.old) recorded.now }
    requires spare { length (edits_at recorded.now number between) ≤ W.spare world.old }
    ensures { IsDisturbed W.rules W.atoms W.spare W.admits W.leaves (edits_at recorded.now number between) world.old world.new }
{
    for one in recorded {
        if is_for(one, number, between) {
            disturb_by(world, one.edits.as_slice());
        }
    }
}

/// Ends a turn in which this kernel was sensed: the edits that are recorded for between come, and the executor acts.
fn act_in_turn<W: World>(
    planex: &mut Planex<'_>,
    world: &mut W,
    recorded: &[Recorded<W::Edit>],
    number: usize,
    kernel: u32,
) -> Turn
    requires admitted { AdmitsAll (W.admits world.old) recorded.now }
    requires remembers { planex.old.memory.remembered ≢ None }
    requires places { HasPlaces W.rules W.atoms W.spare W.admits planex.old
        (places_of_action planex.old.problem recorded.now number) world.old }
    ensures ends { EndsSensed W.leaves planex.old recorded.now number kernel (W.atoms world.old) result
        (W.atoms world.new) planex.new.memory }
    ensures frame { planex.new ≡ record planex.old { memory = planex.new.memory } }
    ensures taken { HasTaken W.rules W.atoms W.spare W.admits (places_of_action planex.old.problem recorded.now number)
        world.old world.new }
{
    let op = planex.action();
    disturb_at(world, recorded, number, true);
    let end = match planex.step(world, Event::Act) {
        Outcome::Acted => TurnEnd::Acted,
        Outcome::Slipped => TurnEnd::Slipped,
        _ => unreachable!(),
    };
    Turn { kernel, op, end }
}

/// Takes a turn: the edits come that are recorded for it before the sensing, the executor senses, and acts if a kernel fits that
/// isn't the last.
fn take_turn<W: World>(
    planex: &mut Planex<'_>,
    world: &mut W,
    table: &Table,
    recorded: &[Recorded<W::Edit>],
    number: usize,
) -> Turn
    requires admitted { AdmitsAll (W.admits world.old) recorded.now }
    requires table { planex.old.table ≡ table.now }
    requires short { length table.now.steps < u32_max }
    requires places { HasPlaces W.rules W.atoms W.spare W.admits planex.old
        (places_of_turn planex.old.problem recorded.now number) world.old }
    ensures takes { TakesNumbered W.leaves planex.old recorded.now number (W.atoms world.old) result (W.atoms world.new)
        planex.new.memory }
    ensures frame { planex.new ≡ record planex.old { memory = planex.new.memory } }
    ensures taken { HasTaken W.rules W.atoms W.spare W.admits (places_of_turn planex.old.problem recorded.now number)
        world.old world.new }
{
    disturb_at(world, recorded, number, false);
    match planex.step(world, Event::Sense) {
        Outcome::Sensed(kernel) => act_in_turn(planex, world, recorded, number, kernel),
        Outcome::Goal => Turn {
            kernel: table.steps.len() as u32 + 1,
            op: None,
            end: TurnEnd::Goal,
        },
        Outcome::NoKernel => Turn {
            kernel: 0,
            op: None,
            end: TurnEnd::NoKernel,
        },
        _ => unreachable!(),
    }
}

/// Returns whether a turn with this end is the last one of its run.
fn ends_run(end: TurnEnd) -> bool
    ensures { MatchBool result (IsLastTurn (end_told end)) (¬ IsLastTurn (end_told end)) }
{
    match end {
        TurnEnd::Goal | TurnEnd::NoKernel => true,
        TurnEnd::Acted | TurnEnd::Slipped => false,
    }
}

/// Returns whether the last turn of a run, which has this end, is at the goal.
fn is_at_goal(end: TurnEnd) -> bool
    requires last { IsLastTurn (end_told end) }
    ensures { MatchBool result (end_told end ≡ AtGoal) (end_told end ≡ AtNoKernel) }
{
    match end {
        TurnEnd::Goal => true,
        TurnEnd::NoKernel => false,
        TurnEnd::Acted | TurnEnd::Slipped => unreachable!(),
    }
}

/// Takes turns, the first of which has the number after those in the list, up to the goal or to a sensing that finds no kernel, and appends
/// them to the list, which has room for all of them. Returns whether the last is at the goal. Does not allocate.
pub(crate) fn take_turns<W: World>(
    planex: &mut Planex<'_>,
    world: &mut W,
    table: &Table,
    recorded: &[Recorded<W::Edit>],
    most: usize,
    turns: &mut Vec<Turn>,
) -> bool
    requires problem { IsValid planex.old.problem }
    requires is_table { IsTable planex.old.problem table.now }
    requires admitted { AdmitsAll (W.admits world.old) recorded.now }
    requires table { planex.old.table ≡ table.now }
    requires most { most_turns table.now recorded.now < most }
    requires room { length turns.old.items + most ≤ vec_capacity turns.old }
    requires places { HasPlaces W.rules W.atoms W.spare W.admits planex.old
        (places_from planex.old.problem recorded.now most (length turns.old.items + 1)) world.old }
    ensures turns { (run : List _) × (turns.new.items ≡ turns.old.items ++ run) × TakesFrom W.leaves planex.old recorded.now
        (length turns.old.items + 1) (W.atoms world.old) (map turn_told run) (W.atoms world.new) planex.new.memory }
    ensures ends { MatchBool result (EndsRun AtGoal (map turn_told turns.new.items)) (EndsRun AtNoKernel (map turn_told turns.new.items)) }
    ensures room { length (W.atoms world.new) ≤ planex.old.room }
    ensures rules { W.rules world.new ≡ W.rules world.old }
    ensures edits { AdmitSame (W.admits world.old) (W.admits world.new) }
{
    'taking: loop {
        let Turn { kernel, op, end } = take_turn(planex, world, table, recorded, turns.len() + 1);
        push_within(turns, Turn { kernel, op, end });
        if ends_run(end) {
            return is_at_goal(end);
        }
    }
}
