//! Runs two tables in one world.
ghost use Rattle.std.specs.Prelude.{◌≡◌, ◌≤◌, ◌*◌, [], IfOk, IfSome, OnErr, OnOk, length, vec_capacity};
ghost use Rattle.px_terms.specs.Validity.{IsValid};
ghost use Rattle.px_table.specs.Tables.{IsTable};
ghost use Rattle.px_duo.specs.Duos.{both};
ghost use Rattle.px_turns.specs.Turning.{adds_most};
ghost use Rattle.px_session.specs.DuoRuns.{RunsDuo};
ghost use Rattle.px_session.specs.Lawful.{TellsDuo};
ghost use Rattle.px_session.specs.RunWorlds.{IsWorldInBuilding, IsPlaced, TakeSame};
ghost use Rattle.px_session.specs.Sessions.{IsSession, leaves_edit};

use crate::duo_lines::take_lines;
use crate::run_world::{enter, leave};
use crate::state::State;
use px_base::{NoMemory, Sequence};
use px_duo::Duo;
use px_ops::Model;
use px_printer::{DuoLine, Reply};
use px_rooms::RoomWorld;
use px_table::Table;
use px_terms::Problem;
use px_turns::most_adds;
use px_world::World;
use std::alloc::Global;

/// What two executors leave.
#[derive(Drop)]
pub(crate) struct DuoRun {
    /// What they did, in order.
    pub(crate) lines: Sequence<DuoLine>,
    /// The world's atoms after it.
    pub(crate) facts: Model,
}

/// Returns how many places so many events may take, if a number of places can say it.
fn count_duo_places(problem: &Problem, numbers: &[u32]) -> Option<usize>
    ensures { IfSome result (λ count. length numbers.now * adds_most problem.now.schemas ≤ count) }
{
    numbers.len().checked_mul(most_adds(problem))
}

/// Returns a list without lines, with room for that many.
fn reserve_lines(alloc: Global, most: usize) -> Result<Vec<DuoLine>, NoMemory>
    ensures none { IfOk result (λ lines. lines.items ≡ []) }
    ensures room { IfOk result (λ lines. most ≤ vec_capacity lines) }
{
    let mut lines = Vec::new(alloc);
    lines.reserve(most)?;
    Ok(lines)
}

/// Runs both tables in one world from these facts, which are those of the building, if there is one; the numbers say who is next. Takes all
/// memory before the first event.
///
/// # Errors
/// `NoMemory` where there is no memory for the run. The building is then as it was.
#[tactic(auto, using(crate::proofs::Placing::same_taken))]
pub(crate) fn run_duo(
    alloc: Global,
    problem: &Problem,
    first: &Table,
    second: &Table,
    numbers: &[u32],
    facts: &Model,
    building: &mut Option<RoomWorld>,
) -> Result<DuoRun, NoMemory>
    requires problem { IsValid problem.now }
    requires first { IsTable problem.now first.now }
    requires second { IsTable problem.now second.now }
    requires place { IsWorldInBuilding problem.now facts.now.atoms building.old }
    ensures runs { IfOk result (λ run. RunsDuo leaves_edit problem.now (both first.now second.now) facts.now.atoms numbers.now
        run.lines run.facts.atoms) }
    ensures place { IfOk result (λ run. IsWorldInBuilding problem.now run.facts.atoms building.new) }
    ensures takes { TakeSame building.old building.new }
    ensures kept { OnErr result (building.new ≡ building.old) }
{
    let Some(places) = count_duo_places(problem, numbers) else {
        return Err(NoMemory);
    };
    let Some(room) = facts.atoms().len().checked_add(places) else {
        return Err(NoMemory);
    };
    let mut duo = Duo::begin(alloc, problem, first, second, room)?;
    let mut after = Model::new(alloc);
    after.reserve(room)?;
    let list = reserve_lines(alloc, numbers.len())?;
    let mut world = enter(alloc, problem, facts, places, building)?;
    let lines = take_lines(&mut duo, &mut world, numbers, list);
    world.sense(&mut after);
    *building = leave(world);
    Ok(DuoRun {
        lines: Sequence::from_vec(lines),
        facts: after,
    })
}

impl State {
    /// Runs the tables of these names in one world, from the world's atoms, which are the facts of the building, if there is one. The world
    /// is then the one after it, and what is recorded stays so.
    ///
    /// # Errors
    /// `NoMemory` where there is no memory for the run. The state is then as it was.
    #[tactic(auto, using(crate::proofs::Placing::same_taken))]
    pub(crate) fn duo(
        &mut self,
        alloc: Global,
        problem: &Problem,
        first: u32,
        second: u32,
        numbers: &[u32],
        building: &mut Option<RoomWorld>,
    ) -> Result<Reply, NoMemory>
        requires problem { IsValid problem.now }
        requires session { IsSession problem.now self.old }
        requires placed { IsPlaced problem.now building.old self.old }
        ensures told { IfOk result (λ reply. TellsDuo problem.now self.old first second numbers.now reply self.new) }
        ensures placed { OnOk result (IsPlaced problem.now building.new self.new) }
        ensures takes { TakeSame building.old building.new }
        ensures kept { OnErr result (self.new ≡ self.old) }
        ensures kept_building { OnErr result (building.new ≡ building.old) }
    {
        let Some(one) = self.table(first) else {
            return Ok(Reply::Unknown { name: first });
        };
        let Some(other) = self.table(second) else {
            return Ok(Reply::Unknown { name: second });
        };
        match run_duo(alloc, problem, one, other, numbers, &self.facts, building) {
            Ok(DuoRun { lines, facts }) => {
                self.facts = facts;
                Ok(Reply::DuoRan {
                    first,
                    second,
                    lines,
                })
            }
            Err(NoMemory) => Err(NoMemory),
        }
    }
}
