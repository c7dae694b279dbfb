//! Pursues a goal.
ghost use Rattle.std.specs.Prelude.{◌≡◌, ◌<◌, ◌≤◌, ◌+◌, ℕ, [], List, All, IfOk, OnErr, OnOk, length, map};
ghost use Rattle.px_base.specs.Bounds.{u32_max};
ghost use Rattle.px_terms.specs.Limits.{most_formula_variables};
ghost use Rattle.px_terms.specs.Plans.{Carries};
ghost use Rattle.px_terms.specs.Validity.{IsAtomOf, IsValid};
ghost use Rattle.px_table.specs.Tables.{IsTable};
ghost use Rattle.px_entries.specs.Learned.{AreLearned};
ghost use Rattle.px_world.specs.Worlds.{HaveSameRules};
ghost use Rattle.px_turns.specs.Told.{AddsRun, AdmitSame, AdmitsAll, turn_told};
ghost use Rattle.px_pursue.specs.Pursuits.{IsPursuit, RunsInVain};
ghost use Rattle.px_pursue.specs.Seeking.{EndsPlanRun, IsAim, SearchesOnce};

use crate::aim::Aim;
use crate::seeking::{Sought, seek};
use px_base::{NoMemory, Sequence};
use px_ops::Model;
use px_printer::{PursueEnd, Turn};
use px_table::Table;
use px_terms::{Atom, Problem};
use px_turns::{Recorded, RunEnd, run};
use px_world::Regrow;
use std::alloc::Global;

/// What a pursuit did.
#[derive(Drop)]
pub struct Pursued {
    /// How many searches it made.
    pub searches: u32,
    /// Its turns, of all runs one after the other.
    pub turns: Sequence<Turn>,
    /// How it ended.
    pub end: PursueEnd,
    /// The world's atoms after it.
    pub facts: Model,
}

/// Executes the plan in the world, and appends the turns to the list. Returns whether the run ended at the goal. The facts are then the
/// world's atoms.
///
/// # Errors
/// `NoMemory` where there is no memory for the run. The world and the turns are then as they were.
fn run_plan<W: Regrow>(
    aim: &Aim<'_>,
    plan: &Table,
    recorded: &[Recorded<W::Edit>],
    world: &mut W,
    facts: &mut Model,
    turns: &mut Vec<Turn>,
) -> Result<bool, NoMemory>
    requires problem { IsValid aim.now.problem.now }
    requires plan { IsTable aim.now.problem.now plan.now }
    requires rules { HaveSameRules (W.rules world.old) aim.now.problem.now }
    requires admitted { AdmitsAll (W.admits world.old) recorded.now }
    ensures runs { OnOk result (AddsRun W.leaves aim.now.problem.now plan.now [] recorded.now turns.old.items (W.atoms world.old)
        turns.new.items (W.atoms world.new)) }
    ensures ends { IfOk result (λ at_goal. EndsPlanRun at_goal (map turn_told turns.new.items)) }
    ensures facts { OnOk result (facts.new.atoms ≡ W.atoms world.new) }
    ensures kept { OnErr result (W.atoms world.new ≡ W.atoms world.old) }
    ensures rules { W.rules world.new ≡ W.rules world.old }
    ensures edits { AdmitSame (W.admits world.old) (W.admits world.new) }
{
    match run(aim.alloc, aim.problem, plan, &[], recorded, world, turns) {
        Ok(ended) => {
            let RunEnd {
                at_goal,
                facts: after,
            } = ended;
            *facts = after;
            Ok(at_goal)
        }
        Err(_) => Err(NoMemory),
    }
}

/// Searches for a plan from the facts, which are the world's atoms, and executes it. Returns how the pursuit ended, or `None` where no
/// kernel fitted at the end of the run. The facts are the world's atoms again.
///
/// # Errors
/// `NoMemory` where there is no memory for the search or for the run. The world is then as it was.
fn search_and_run<W: Regrow>(
    aim: &Aim<'_>,
    recorded: &[Recorded<W::Edit>],
    world: &mut W,
    facts: &mut Model,
    turns: &mut Vec<Turn>,
) -> Result<Option<PursueEnd>, NoMemory>
    requires aim { IsAim aim.now }
    requires facts { facts.old.atoms ≡ W.atoms world.old }
    requires rules { HaveSameRules (W.rules world.old) aim.now.problem.now }
    requires admitted { AdmitsAll (W.admits world.old) recorded.now }
    ensures goes { IfOk result (λ end. SearchesOnce W.leaves aim.now.problem.now aim.now.tables.now aim.now.goal.now aim.now.variable_count
        recorded.now turns.old.items (W.atoms world.old) turns.new.items end (W.atoms world.new)) }
    ensures facts { OnOk result (facts.new.atoms ≡ W.atoms world.new) }
    ensures kept { OnErr result (W.atoms world.new ≡ W.atoms world.old) }
    ensures rules { W.rules world.new ≡ W.rules world.old }
    ensures edits { AdmitSame (W.admits world.old) (W.admits world.new) }
{
    match seek(aim, facts)? {
        Sought::WithoutPlan(end) => Ok(Some(end)),
        Sought::Plan(plan) => {
            if run_plan(aim, &plan, recorded, world, facts, turns)? {
                return Ok(Some(PursueEnd::Goal));
            }
            Ok(None)
        }
    }
}

/// Pursues the goal in the world, which is disturbed as recorded: searches for a plan from the world's atoms, executes it, and searches
/// again from the atoms that were sensed where no kernel of the plan fits.
///
/// # Errors
/// `NoMemory` where there is no memory for a search, for a plan or for its run. The world is then as the runs before left it.
pub fn pursue<W: Regrow>(
    alloc: Global,
    problem: &Problem,
    world: &mut W,
    goal: &[Atom],
    variable_count: u32,
    tables: &[Table],
    recorded: &[Recorded<W::Edit>],
) -> Result<Pursued, NoMemory>
    requires problem { IsValid problem.now }
    requires goal { All (IsAtomOf problem.now variable_count) goal.now }
    requires few_variables { variable_count ≤ most_formula_variables }
    requires some_object { 0 < variable_count → 0 < problem.now.objects }
    requires tables { AreLearned problem.now tables.now }
    requires rules { HaveSameRules (W.rules world.old) problem.now }
    requires admitted { AdmitsAll (W.admits world.old) recorded.now }
    requires short { length recorded.now < u32_max }
    ensures pursues { IfOk result (λ made. IsPursuit W.leaves problem.now tables.now goal.now variable_count recorded.now (W.atoms world.old)
        made.searches (map turn_told made.turns) made.end (W.atoms world.new)) }
    ensures facts { IfOk result (λ made. made.facts.atoms ≡ W.atoms world.new) }
    ensures few { IfOk result (λ made. made.searches ≤ length recorded.now + 1) }
    ensures reached { IfOk result (λ made. made.end ≡ PursueEnd.Goal → Carries problem.now (W.atoms world.new) [] variable_count goal.now) }
    ensures left { OnErr result ((count : ℕ) × ((turns : List _) × RunsInVain W.leaves problem.now tables.now goal.now variable_count
        recorded.now count 1 (W.atoms world.old) turns (W.atoms world.new))) }
    ensures rules { W.rules world.new ≡ W.rules world.old }
    ensures edits { AdmitSame (W.admits world.old) (W.admits world.new) }
{
    let wanted = Aim {
        alloc,
        problem,
        goal,
        variable_count,
        tables,
    };
    let aim = &wanted;
    let mut facts = Model::new(alloc);
    facts.reserve(world.atom_count())?;
    world.sense(&mut facts);
    let mut turns = Vec::new(alloc);
    let mut searches = 0;
    'searching: loop {
        searches += 1;
        match search_and_run(aim, recorded, world, &mut facts, &mut turns)? {
            Some(end) => {
                return Ok(Pursued {
                    searches,
                    turns: Sequence::from_vec(turns),
                    end,
                    facts,
                });
            }
            None => {}
        }
    }
}
