//! Runs a table.
ghost use Rattle.std.specs.Prelude.{◌≡◌, ◌≢◌, ◌<◌, ℕ, All, AllPairs, IfOk, IsErrOf, None, OnErr, OnOk, Some, map};
ghost use Rattle.px_terms.specs.Validity.{IsValid};
ghost use Rattle.px_table.specs.Tables.{IsTable};
ghost use Rattle.px_match.specs.Matching.{first_bad};
ghost use Rattle.px_planex.specs.Turns.{RunsTable};
ghost use Rattle.px_turns.specs.Told.{turn_told};
ghost use Rattle.px_session.specs.RunWorlds.{IsWorldInBuilding, TakeSame, TakesAll};
ghost use Rattle.px_session.specs.Sessions.{leaves_edit};

use crate::edit::Edit;
use crate::run_world::{enter, leave};
use px_base::Sequence;
use px_match::MatchErr;
use px_ops::Model;
use px_printer::Turn;
use px_rooms::RoomWorld;
use px_table::Table;
use px_terms::Problem;
use px_turns::{Recorded, RunEnd, run};
use std::alloc::Global;

/// What a run leaves.
#[derive(Drop)]
pub(crate) struct Run {
    /// The turns, from the first to the last.
    pub(crate) turns: Sequence<Turn>,
    /// The world's atoms after the run.
    pub(crate) facts: Model,
}

/// Runs the table from these facts, which are those of the building, if there is one; the world is disturbed as recorded. Takes all
/// memory before the first turn.
///
/// # Errors
/// `BadParam` with the first bound parameter that the table does not have, and `NoMemory`. The building is then as it was.
#[tactic(auto, using(crate::proofs::Placing::same_taken))]
pub(crate) fn run_table(
    alloc: Global,
    problem: &Problem,
    table: &Table,
    bound: &[(u32, u32)],
    recorded: &[Recorded<Edit>],
    facts: &Model,
    building: &mut Option<RoomWorld>,
) -> Result<Run, MatchErr>
    requires problem { IsValid problem.now }
    requires table { IsTable problem.now table.now }
    requires objects { All (λ pair. pair.1 < problem.now.objects) bound.now }
    requires once { AllPairs (λ one other. one.0 ≢ other.0) bound.now }
    requires place { IsWorldInBuilding problem.now facts.now.atoms building.old }
    requires taken { TakesAll building.old recorded.now }
    ensures runs { IfOk result (λ run. RunsTable leaves_edit problem.now table.now bound.now recorded.now facts.now.atoms
        (map turn_told run.turns) run.facts.atoms) }
    ensures known { OnOk result (first_bad table.now bound.now ≡ None) }
    ensures unknown { (n : ℕ) → IsErrOf result (MatchErr.BadParam n) → first_bad table.now bound.now ≡ Some n }
    ensures place { IfOk result (λ run. IsWorldInBuilding problem.now run.facts.atoms building.new) }
    ensures takes { TakeSame building.old building.new }
    ensures kept { OnErr result (building.new ≡ building.old) }
{
    let mut world = enter(alloc, problem, facts, 0, building)?;
    let mut turns = Vec::new(alloc);
    let ended = run(
        alloc, problem, table, bound, recorded, &mut world, &mut turns,
    );
    *building = leave(world);
    match ended {
        Ok(
            RunEnd {
                at_goal: _at_goal,
                facts: after,
            },
        ) => Ok(Run {
            turns: Sequence::from_vec(turns),
            facts: after,
        }),
        Err(error) => Err(error),
    }
}
