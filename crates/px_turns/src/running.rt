//! Runs a table.
ghost use Rattle.std.specs.Prelude.{◌≡◌, ◌≢◌, ◌⊎◌, ◌<◌, ◌≤◌, ◌+◌, ◌*◌, ℕ, All, AllPairs, IfOk, IfSome, IsErrOf, MatchBool, None, OnErr, OnOk, Some, length, map};
ghost use Rattle.px_terms.specs.Validity.{IsValid};
ghost use Rattle.px_table.specs.Tables.{IsTable};
ghost use Rattle.px_match.specs.Matching.{first_bad};
ghost use Rattle.px_world.specs.Worlds.{HaveSameRules};
ghost use Rattle.px_planex.specs.Turns.{AtGoal, AtNoKernel};
ghost use Rattle.px_turns.specs.Told.{AddsRun, AdmitSame, AdmitsAll, EndsRun, turn_told};
ghost use Rattle.px_turns.specs.Turning.{adds_most, edits_in, most_turns, places_from};

use crate::recorded::Recorded;
use crate::turns::take_turns;
use px_match::MatchErr;
use px_ops::Model;
use px_planex::Planex;
use px_printer::Turn;
use px_table::Table;
use px_terms::Problem;
use px_world::Regrow;
use std::alloc::Global;

/// How a run ended, and what it left.
#[derive(Drop)]
pub struct RunEnd {
    /// Whether it ended at the goal. If not, it ended with a sensing that found no kernel.
    pub at_goal: bool,
    /// The world's atoms after it.
    pub facts: Model,
}

/// Returns how many atoms an operator adds at most. Does not allocate.
pub fn most_adds(problem: &Problem) -> usize
    ensures { result ≡ adds_most problem.now.schemas }
{
    let mut most = 0;
    for schema in problem.schemas.as_slice() {
        if schema.add.len() > most {
            most = schema.add.len();
        }
    }
    most
}

/// Returns how many edits are recorded, if a number of places can say it.
fn count_edits<E>(recorded: &[Recorded<E>]) -> Option<usize>
    ensures { IfSome result (λ count. count ≡ edits_in recorded.now) }
{
    let mut count = 0usize;
    for one in recorded {
        count = count.checked_add(one.edits.len())?;
    }
    Some(count)
}

/// Returns one more than the turns that a run has at most, if a number can say it.
fn count_turns<E>(table: &Table, recorded: &[Recorded<E>]) -> Option<usize>
    ensures { IfSome result (λ count. most_turns table.now recorded.now < count) }
{
    let between = recorded.len().checked_add(1)?;
    let kernels = table.steps.len().checked_add(1)?;
    between.checked_mul(kernels)?.checked_add(1)
}

/// Returns how many places a run of these turns may take, whichever its first, if a number of places can say it.
fn count_places<E>(problem: &Problem, recorded: &[Recorded<E>], turns: usize) -> Option<usize>
    ensures { IfSome result (λ count. (number : ℕ) → places_from problem.now recorded.now turns number ≤ count) }
{
    let by_acting = turns.checked_mul(most_adds(problem))?;
    let edits = count_edits(recorded)?;
    let places = edits.checked_add(by_acting)?;
    Some(places)
}

/// Runs the table in the world, which is disturbed as recorded, and appends the turns to the list: the first has the number after those
/// that are in it. Takes all memory before the first turn.
///
/// # Errors
/// `BadParam` with the first bound parameter that the table does not have, and `NoMemory`. The world and the turns are then as they were.
pub fn run<W: Regrow>(
    alloc: Global,
    problem: &Problem,
    table: &Table,
    bound: &[(u32, u32)],
    recorded: &[Recorded<W::Edit>],
    world: &mut W,
    turns: &mut Vec<Turn>,
) -> Result<RunEnd, MatchErr>
    requires problem { IsValid problem.now }
    requires table { IsTable problem.now table.now }
    requires objects { All (λ pair. pair.1 < problem.now.objects) bound.now }
    requires once { AllPairs (λ one other. one.0 ≢ other.0) bound.now }
    requires rules { HaveSameRules (W.rules world.old) problem.now }
    requires admitted { AdmitsAll (W.admits world.old) recorded.now }
    ensures runs { OnOk result (AddsRun W.leaves problem.now table.now bound.now recorded.now turns.old.items (W.atoms world.old)
        turns.new.items (W.atoms world.new)) }
    ensures ends { IfOk result (λ run. MatchBool run.at_goal (EndsRun AtGoal (map turn_told turns.new.items))
        (EndsRun AtNoKernel (map turn_told turns.new.items))) }
    ensures facts { IfOk result (λ run. run.facts.atoms ≡ W.atoms world.new) }
    ensures known { OnOk result (first_bad table.now bound.now ≡ None) }
    ensures bad { (n : ℕ) → IsErrOf result (MatchErr.BadParam n) → first_bad table.now bound.now ≡ Some n }
    ensures always_bad { (n : ℕ) → first_bad table.now bound.now ≡ Some n → IsErrOf result (MatchErr.BadParam n)
        ⊎ IsErrOf result MatchErr.NoMemory }
    ensures kept { OnErr result (world.new ≡ world.old) }
    ensures kept_turns { OnErr result (turns.new.items ≡ turns.old.items) }
    ensures rules { W.rules world.new ≡ W.rules world.old }
    ensures edits { AdmitSame (W.admits world.old) (W.admits world.new) }
{
    let Some(most) = count_turns(table, recorded) else {
        return Err(MatchErr::NoMemory);
    };
    let Some(places) = count_places(problem, recorded, most) else {
        return Err(MatchErr::NoMemory);
    };
    let Some(room) = world.atom_count().checked_add(places) else {
        return Err(MatchErr::NoMemory);
    };
    let mut planex = match Planex::begin(alloc, problem, table, bound, room) {
        Ok(planex) => planex,
        Err(error) => return Err(error),
    };
    let mut facts = Model::new(alloc);
    facts.reserve(room)?;
    turns.reserve(most)?;
    world.regrow(places)?;
    let at_goal = take_turns(&mut planex, world, table, recorded, most, turns);
    world.sense(&mut facts);
    Ok(RunEnd { at_goal, facts })
}
