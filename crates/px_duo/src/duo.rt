//! Two executors in one world.
ghost use Rattle.std.specs.Prelude.{◌≡◌, ◌↔◌, ◌≤◌, ◌+◌, [], IfOk, IfSome, length, None};
ghost use Rattle.px_terms.specs.Sorts.{IsWellSorted};
ghost use Rattle.px_terms.specs.Validity.{IsValid};
ghost use Rattle.px_table.specs.Tables.{IsTable};
ghost use Rattle.px_world.specs.Worlds.{HaveSameRules};
ghost use Rattle.px_planex.specs.Execution.{nothing_sensed, remembered_step};
ghost use Rattle.px_planex.specs.Executors.{ChangesNothing, places_of};
ghost use Rattle.px_duo.specs.Duos.{HappensInDuo, HappensTo, both, duo_running, neither_sensed, own, places_of_duo};

use crate::event::{DuoEvent, Who};
use px_base::NoMemory;
use px_match::MatchErr;
use px_planex::{Event, Outcome, Planex};
use px_table::Table;
use px_terms::{OpInst, Problem};
use px_world::World;
use std::alloc::Global;

/// Two executors in one world, each of a table of its own, in which nothing is bound. The two tables may be the same.
///
/// Contracts see them as the problem, the two tables, the greatest number of atoms of a world, and what each of the two remembers
/// (`DuoValue` in `specs/DuoValue`).
#[derive(Drop)]
pub struct Duo<'a> {
    first: Planex<'a>,
    second: Planex<'a>,
}

impl<'a> std::marker::Model for Duo<'a> {
    ghost use Rattle.std.specs.Coded.{codes};
    ghost use Rattle.px_proof.specs.contracts.proof.Proof as term;
    ghost use Rattle.px_duo.specs.Duos.{both};
    ghost use Rattle.px_duo.specs.DuoValue.{ArePaired, DuoValue};

    ghost Value = { DuoValue };

    ghost coded = { Prim.hlevel (codes, term.the_row.coded) };

    ghost view = { λ d. record {
      problem = d.first.problem;
      tables = both d.first.table d.second.table;
      room = d.first.room;
      memories = both d.first.memory d.second.memory;
    } };

    ghost invariant = { λ d. ArePaired d.first d.second };
}

/// Returns an executor of the table in which nothing is bound.
fn unbound<'a>(
    alloc: Global,
    problem: &'a Problem,
    table: &'a Table,
    room: usize,
) -> Result<Planex<'a>, NoMemory>
    requires problem { IsValid problem.now }
    requires table { IsTable problem.now table.now }
    ensures value { IfOk result (λ planex. planex ≡ record
        { problem = problem.now; table = table.now; bound = []; room = room; memory = nothing_sensed }) }
{
    match Planex::begin(alloc, problem, table, &[], room) {
        Ok(planex) => Ok(planex),
        Err(MatchErr::NoMemory) => Err(NoMemory),
        Err(MatchErr::BadParam(_)) => unreachable!(),
    }
}

impl<'a> Duo<'a> {
    /// Returns two executors of these tables, for worlds of at most `room` atoms. Takes all memory that they will need.
    ///
    /// # Errors
    /// `NoMemory` where there is no memory for them.
    pub fn begin(
        alloc: Global,
        problem: &'a Problem,
        first: &'a Table,
        second: &'a Table,
        room: usize,
    ) -> Result<Duo<'a>, NoMemory>
        requires problem { IsValid problem.now }
        requires first { IsTable problem.now first.now }
        requires second { IsTable problem.now second.now }
        ensures value { IfOk result (λ duo. duo ≡ record
            { problem = problem.now; tables = both first.now second.now; room = room; memories = neither_sensed }) }
    {
        let first = unbound(alloc, problem, first, room)?;
        let second = unbound(alloc, problem, second, room)?;
        Ok(Duo { first, second })
    }

    /// Returns the step that the next action of that one will take, unless a mark of its row isn't true then. Each of its objects fits its
    /// parameter. `None` exactly where that action would have the outcome `NotSensed`: no step is remembered. Does not allocate.
    pub fn action(&self, who: Who) -> Option<OpInst>
        ensures step { result ≡ remembered_step (own who self.now.tables) (own who self.now.memories) }
        ensures sensed { (result ≡ None) ↔ ((own who self.now.memories).remembered ≡ None) }
        ensures fits { IfSome result (λ step. IsWellSorted self.now.problem step) }
    {
        match who {
            Who::First => self.first.action(),
            Who::Second => self.second.action(),
        }
    }

    /// Returns the objects of the last kernel that that one sensed; no objects before. Does not allocate.
    pub fn instance(&self, who: Who) -> &[u32]
        ensures { result.now ≡ (own who self.now.memories).instance }
    {
        match who {
            Who::First => self.first.instance(),
            Who::Second => self.second.instance(),
        }
    }

    /// Returns what comes of the event: the world is disturbed, or one of the two senses, or it acts. Does not allocate.
    ///
    /// The world's objects, axioms and operators are those of the problem, and it has at most as many atoms as there is room
    /// for. The world admits the disturbance, if the event is one, and has the places that the event may take.
    pub fn step<W: World>(&mut self, world: &mut W, event: DuoEvent<W::Edit>) -> Outcome
        requires rules { HaveSameRules (W.rules world.old) self.old.problem }
        requires room { length (W.atoms world.old) ≤ self.old.room }
        requires admitted { (edit : W.Edit) → event ≡ DuoEvent.Disturb edit → W.admits world.old edit }
        requires places { places_of_duo self.old.problem self.old.tables self.old.memories event ≤ W.spare world.old }
        ensures happens { HappensInDuo W.leaves self.old.problem self.old.tables (duo_running (W.atoms world.old) self.old.memories)
            event result (duo_running (W.atoms world.new) self.new.memories) }
        ensures frame { self.new ≡ record self.old { memories = self.new.memories } }
        ensures unchanged { ChangesNothing result → world.new ≡ world.old }
        ensures spare { W.spare world.old ≤ W.spare world.new + places_of_duo self.old.problem self.old.tables self.old.memories event }
        ensures number { length (W.atoms world.new)
            ≤ length (W.atoms world.old) + places_of_duo self.old.problem self.old.tables self.old.memories event }
        ensures rules { W.rules world.new ≡ W.rules world.old }
        ensures edits { (edit : W.Edit) → W.admits world.new edit ↔ W.admits world.old edit }
    {
        match event {
            DuoEvent::Disturb(edit) => {
                world.disturb(&edit);
                Outcome::Disturbed
            }
            DuoEvent::Sense(who) => self.hand(world, who, Event::Sense),
            DuoEvent::Act(who) => self.hand(world, who, Event::Act),
        }
    }

    /// Hands the event to that one of the two.
    fn hand<W: World>(&mut self, world: &mut W, who: Who, event: Event<W::Edit>) -> Outcome
        requires rules { HaveSameRules (W.rules world.old) self.old.problem }
        requires room { length (W.atoms world.old) ≤ self.old.room }
        requires admitted { (edit : W.Edit) → event ≡ Event.Disturb edit → W.admits world.old edit }
        requires places { places_of self.old.problem (own who self.old.tables) (own who self.old.memories) event ≤ W.spare world.old }
        ensures happens { HappensTo W.leaves self.old.problem self.old.tables who (duo_running (W.atoms world.old) self.old.memories)
            event result (duo_running (W.atoms world.new) self.new.memories) }
        ensures frame { self.new ≡ record self.old { memories = self.new.memories } }
        ensures unchanged { ChangesNothing result → world.new ≡ world.old }
        ensures spare { W.spare world.old
            ≤ W.spare world.new + places_of self.old.problem (own who self.old.tables) (own who self.old.memories) event }
        ensures number { length (W.atoms world.new)
            ≤ length (W.atoms world.old) + places_of self.old.problem (own who self.old.tables) (own who self.old.memories) event }
        ensures rules { W.rules world.new ≡ W.rules world.old }
        ensures edits { (edit : W.Edit) → W.admits world.new edit ↔ W.admits world.old edit }
    {
        match who {
            Who::First => self.first.step(world, event),
            Who::Second => self.second.step(world, event),
        }
    }
}
