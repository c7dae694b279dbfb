//! Pursues a goal.
ghost use Rattle.std.specs.Prelude.{◌≡◌, ◌<◌, ◌≤◌, All, IfOk, OnErr, OnOk, length, map};
ghost use Rattle.px_base.specs.Bounds.{u32_max};
ghost use Rattle.px_terms.specs.Limits.{most_formula_variables};
ghost use Rattle.px_terms.specs.Validity.{IsAtomOf, IsValid};
ghost use Rattle.px_entries.specs.Learned.{AreLearned};
ghost use Rattle.px_pursue.specs.Pursuits.{IsPursuit};
ghost use Rattle.px_turns.specs.Told.{turn_told};
ghost use Rattle.px_session.specs.Lawful.{TellsPursuit};
ghost use Rattle.px_session.specs.RunWorlds.{IsWorldInBuilding, IsPlaced, TakeSame, TakesAll};
ghost use Rattle.px_session.specs.Sessions.{IsSession, leaves_edit};

use crate::edit::Edit;
use crate::run_world::{enter, leave};
use crate::state::State;
use px_base::NoMemory;
use px_ops::Model;
use px_printer::Reply;
use px_pursue::{Pursued, pursue};
use px_rooms::RoomWorld;
use px_table::Table;
use px_terms::{Atom, Problem};
use px_turns::Recorded;
use std::alloc::Global;

/// Returns a copy of the building, if there is one.
///
/// # Errors
/// `NoMemory` where there is no memory for the copy.
fn copy_of(building: &Option<RoomWorld>) -> Result<Option<RoomWorld>, NoMemory>
    ensures { IfOk result (λ copy. copy ≡ building.now) }
{
    match building {
        Some(world) => Ok(Some(world.try_copy()?)),
        None => Ok(None),
    }
}

/// Pursues the goal from these facts, which are those of the building, if there is one, in a copy of that world, disturbed as recorded. The
/// building is then the copy.
///
/// # Errors
/// `NoMemory` where there is no memory for the copy or the pursuit. The building is then as it was.
#[tactic(auto, using(crate::proofs::Placing::same_taken))]
fn pursue_in_copy(
    alloc: Global,
    problem: &Problem,
    goal: &[Atom],
    variable_count: u32,
    tables: &[Table],
    recorded: &[Recorded<Edit>],
    facts: &Model,
    building: &mut Option<RoomWorld>,
) -> Result<Pursued, NoMemory>
    requires problem { IsValid problem.now }
    requires goal { All (IsAtomOf problem.now variable_count) goal.now }
    requires few_variables { variable_count ≤ most_formula_variables }
    requires some_object { 0 < variable_count → 0 < problem.now.objects }
    requires tables { AreLearned problem.now tables.now }
    requires place { IsWorldInBuilding problem.now facts.now.atoms building.old }
    requires taken { TakesAll building.old recorded.now }
    requires short { length recorded.now < u32_max }
    ensures pursues { IfOk result (λ made. IsPursuit leaves_edit problem.now tables.now goal.now variable_count recorded.now facts.now.atoms
        made.searches (map turn_told made.turns) made.end made.facts.atoms) }
    ensures place { IfOk result (λ made. IsWorldInBuilding problem.now made.facts.atoms building.new) }
    ensures takes { TakeSame building.old building.new }
    ensures kept { OnErr result (building.new ≡ building.old) }
{
    let mut copy = copy_of(building)?;
    let mut world = enter(alloc, problem, facts, 0, &mut copy)?;
    let made = pursue(
        alloc,
        problem,
        &mut world,
        goal,
        variable_count,
        tables,
        recorded,
    )?;
    *building = leave(world);
    Ok(made)
}

impl State {
    /// Pursues the goal from the world's atoms, which are the facts of the building, if there is one, with the learned tables, disturbed by
    /// all that is recorded. The world is then the one after it, and nothing is recorded.
    ///
    /// # Errors
    /// `NoMemory` where there is no memory for the pursuit. The state is then as it was.
    #[tactic(auto, using(crate::proofs::Placing::same_taken))]
    pub(crate) fn pursue(
        &mut self,
        alloc: Global,
        problem: &Problem,
        name: u32,
        goal: &[Atom],
        variable_count: u32,
        building: &mut Option<RoomWorld>,
    ) -> Result<Reply, NoMemory>
        requires problem { IsValid problem.now }
        requires goal { All (IsAtomOf problem.now variable_count) goal.now }
        requires few_variables { variable_count ≤ most_formula_variables }
        requires some_object { 0 < variable_count → 0 < problem.now.objects }
        requires session { IsSession problem.now self.old }
        requires placed { IsPlaced problem.now building.old self.old }
        requires few { length self.old.recorded < u32_max }
        ensures told { IfOk result (λ reply. TellsPursuit problem.now self.old name goal.now variable_count reply self.new) }
        ensures placed { OnOk result (IsPlaced problem.now building.new self.new) }
        ensures takes { TakeSame building.old building.new }
        ensures kept { OnErr result (self.new ≡ self.old) }
        ensures kept_building { OnErr result (building.new ≡ building.old) }
    {
        match pursue_in_copy(
            alloc,
            problem,
            goal,
            variable_count,
            self.learned.tables(),
            &self.recorded,
            &self.facts,
            building,
        ) {
            Ok(
                Pursued {
                    searches,
                    turns,
                    end,
                    facts,
                },
            ) => {
                self.facts = facts;
                self.recorded.clear();
                Ok(Reply::Pursuit {
                    name,
                    searches,
                    turns,
                    end,
                })
            }
            Err(NoMemory) => Err(NoMemory),
        }
    }
}
