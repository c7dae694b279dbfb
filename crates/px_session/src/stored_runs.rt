//! Runs a table of a session.
ghost use Rattle.std.specs.Prelude.{◌≡◌, IfOk, OnErr, OnOk};
ghost use Rattle.px_terms.specs.Validity.{IsValid};
ghost use Rattle.px_session.specs.Lawful.{TellsRun};
ghost use Rattle.px_session.specs.Sessions.{IsSession};
ghost use Rattle.px_session.specs.KeptSessions.{IsBindingToRun};
ghost use Rattle.px_session.specs.RunWorlds.{IsPlaced, TakeSame};

use crate::running::{Run, run_table};
use crate::state::State;
use px_base::NoMemory;
use px_match::MatchErr;
use px_printer::Reply;
use px_rooms::RoomWorld;
use px_terms::Problem;
use std::alloc::Global;

impl State {
    /// Runs the table of that name with these objects for its parameters, from the world's atoms, which are the facts of the building, if
    /// there is one, disturbed by all that is recorded. The world is then the one after the run, and nothing is recorded.
    ///
    /// # Errors
    /// `NoMemory` where there is no memory for the run. The state is then as it was.
    #[tactic(auto, using(crate::proofs::Placing::same_taken))]
    pub(crate) fn run(
        &mut self,
        alloc: Global,
        problem: &Problem,
        name: u32,
        bound: &[(u32, u32)],
        building: &mut Option<RoomWorld>,
    ) -> Result<Reply, NoMemory>
        requires problem { IsValid problem.now }
        requires session { IsSession problem.now self.old }
        requires placed { IsPlaced problem.now building.old self.old }
        requires binding { IsBindingToRun problem.now bound.now }
        ensures told { IfOk result (λ reply. TellsRun problem.now self.old name bound.now reply self.new) }
        ensures placed { OnOk result (IsPlaced problem.now building.new self.new) }
        ensures takes { TakeSame building.old building.new }
        ensures kept { OnErr result (self.new ≡ self.old) }
        ensures kept_building { OnErr result (building.new ≡ building.old) }
    {
        let Some(table) = self.table(name) else {
            return Ok(Reply::Unknown { name });
        };
        match run_table(
            alloc,
            problem,
            table,
            bound,
            &self.recorded,
            &self.facts,
            building,
        ) {
            Ok(Run { turns, facts }) => {
                self.facts = facts;
                self.recorded.clear();
                Ok(Reply::Ran { name, turns })
            }
            Err(MatchErr::BadParam(param)) => Ok(Reply::UnknownParam { param }),
            Err(MatchErr::NoMemory) => Err(NoMemory),
        }
    }
}
