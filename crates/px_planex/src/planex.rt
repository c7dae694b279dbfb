//! The executor of a triangle table in a world.
ghost use Rattle.std.specs.Prelude.{◌≡◌, ◌≢◌, ◌⊎◌, ◌↔◌, ◌<◌, ◌≤◌, ◌+◌, ℕ, All, AllPairs, Contains, IfOk, IfSome, IsErrOf, IsTrue, MatchBool, None, OnOk, Some, length};
ghost use Rattle.px_terms.specs.Sorts.{IsWellSorted};
ghost use Rattle.px_terms.specs.declared.instance.OpInst.{OpInst};
ghost use Rattle.px_terms.specs.Operators.{adds};
ghost use Rattle.px_terms.specs.Validity.{IsInstanceOf, IsValid};
ghost use Rattle.px_table.specs.Kernels.{IsInstantiation};
ghost use Rattle.px_table.specs.Tables.{IsTable};
ghost use Rattle.px_match.specs.Matching.{first_bad};
ghost use Rattle.px_match.specs.MatcherValue.{kernel_with};
ghost use Rattle.px_world.specs.Worlds.{HaveSameRules};
ghost use Rattle.px_planex.specs.Execution.{Happens, nothing_sensed, remembered_step};
ghost use Rattle.px_planex.specs.Executors.{ChangesNothing, places_for, places_of, running};

use crate::acting::{act_by, step_of};
use crate::event::{Event, Outcome};
use px_match::{MatchErr, Matcher};
use px_ops::Model;
use px_table::Table;
use px_terms::{OpInst as StepInst, Problem};
use px_world::World;
use std::alloc::Global;

/// The executor of a triangle table (Fikes, Hart and Nilsson 1972). It senses which kernel is the highest that fits, and acts by it.
///
/// Contracts see it as the problem, the table, the binding, the greatest number of atoms of a world, and what is remembered
/// (`PlanexValue` in `specs/Executors`).
#[derive(Drop)]
pub struct Planex<'a> {
    problem: &'a Problem,
    table: &'a Table,
    matcher: Matcher<'a>,
    /// The kernel that was sensed last, if its step is still to be taken.
    remembered: Option<u32>,
    /// The atoms of the last sensing, with places for those of the next.
    sensed: Model,
    room: usize,
}

impl<'a> std::marker::Model for Planex<'a> {
    ghost use Rattle.std.specs.Prelude.{option_map};
    ghost use Rattle.std.specs.Coded.{codes};
    ghost use Rattle.px_match.specs.MatcherValue.{kernel_with};
    ghost use Rattle.px_proof.specs.contracts.proof.Proof as term;
    ghost use Rattle.px_planex.specs.Executors.{IsExecutorReady, PlanexValue};

    ghost Value = { PlanexValue };

    ghost coded = { Prim.hlevel (codes, term.the_row.coded) };

    ghost view = { λ p. record {
      problem = p.problem.now;
      table = p.table.now;
      bound = p.matcher.bound;
      room = p.room;
      memory = record { remembered = option_map (kernel_with p.matcher.instance) p.remembered; instance = p.matcher.instance };
    } };

    ghost invariant = { λ p. IsExecutorReady p.problem.now p.table.now p.matcher p.sensed p.room
        (option_map (kernel_with p.matcher.instance) p.remembered) };
}

impl<'a> Planex<'a> {
    /// Returns an executor of the table in which these parameters, counted from 1, have these objects, for worlds of at most `room` atoms.
    /// Takes all memory that it will need.
    ///
    /// # Errors
    /// `BadParam` with the first number that isn't a parameter of the table, and `NoMemory`.
    // Alike: `Matcher::reserve` of px_match, which takes the binding.
    pub fn begin(
        alloc: Global,
        problem: &'a Problem,
        table: &'a Table,
        bind: &[(u32, u32)],
        room: usize,
    ) -> Result<Planex<'a>, MatchErr>
        requires problem { IsValid problem.now }
        requires table { IsTable problem.now table.now }
        requires objects { All (λ pair. pair.1 < problem.now.objects) bind.now }
        requires once { AllPairs (λ one other. one.0 ≢ other.0) bind.now }
        ensures value { IfOk result (λ planex. planex ≡ record
            { problem = problem.now; table = table.now; bound = bind.now; room = room; memory = nothing_sensed }) }
        ensures in_range { OnOk result (first_bad table.now bind.now ≡ None) }
        ensures bad { (n : ℕ) → IsErrOf result (MatchErr.BadParam n) → first_bad table.now bind.now ≡ Some n }
        ensures always_bad { (n : ℕ) → first_bad table.now bind.now ≡ Some n → IsErrOf result (MatchErr.BadParam n)
            ⊎ IsErrOf result MatchErr.NoMemory }
    {
        let matcher = match Matcher::reserve(alloc, problem, table, bind, room) {
            Ok(matcher) => matcher,
            Err(error) => return Err(error),
        };
        let mut sensed = Model::new(alloc);
        match sensed.reserve(room) {
            Ok(()) => {}
            Err(_) => return Err(MatchErr::NoMemory),
        }
        Ok(Planex {
            problem,
            table,
            matcher,
            remembered: None,
            sensed,
            room,
        })
    }

    /// Returns the step that the next action will take, unless a mark of its row isn't true then. Each of its objects fits its parameter.
    /// `None` exactly where an action would have the outcome `NotSensed`: no step is remembered. Does not allocate.
    pub fn action(&self) -> Option<StepInst>
        ensures step { result ≡ remembered_step self.now.table self.now.memory }
        ensures sensed { (result ≡ None) ↔ (self.now.memory.remembered ≡ None) }
        ensures fits { IfSome result (λ step. IsWellSorted self.now.problem step) }
    {
        match self.remembered {
            None => None,
            Some(number) => Some(step_of(
                self.problem,
                self.table,
                self.matcher.instance(),
                number,
            )),
        }
    }

    /// Returns the objects of the last kernel that was sensed; no objects before. Does not allocate.
    pub fn instance(&self) -> &[u32]
        ensures { result.now ≡ self.now.memory.instance }
    {
        self.matcher.instance()
    }

    /// Returns what comes of the event: the world is disturbed, or the executor senses, or it acts. Does not allocate.
    ///
    /// The world's objects, axioms and operators are those of the problem, and it has at most as many atoms as there is room
    /// for. The world admits the disturbance, if the event is one, and has the places that the event may take.
    pub fn step<W: World>(&mut self, world: &mut W, event: Event<W::Edit>) -> Outcome
        requires rules { HaveSameRules (W.rules world.old) self.old.problem }
        requires room { length (W.atoms world.old) ≤ self.old.room }
        requires admitted { (edit : W.Edit) → event ≡ Event.Disturb edit → W.admits world.old edit }
        requires places { places_of self.old.problem self.old.table self.old.memory event ≤ W.spare world.old }
        ensures happens { Happens W.leaves self.old.problem self.old.table self.old.bound (running (W.atoms world.old) self.old.memory)
            event result (running (W.atoms world.new) self.new.memory) }
        ensures frame { self.new ≡ record self.old { memory = self.new.memory } }
        ensures unchanged { ChangesNothing result → world.new ≡ world.old }
        ensures spare { W.spare world.old ≤ W.spare world.new + places_of self.old.problem self.old.table self.old.memory event }
        ensures number { length (W.atoms world.new) ≤ length (W.atoms world.old) + places_of self.old.problem self.old.table self.old.memory
            event }
        ensures rules { W.rules world.new ≡ W.rules world.old }
        ensures edits { (edit : W.Edit) → W.admits world.new edit ↔ W.admits world.old edit }
    {
        match event {
            Event::Disturb(edit) => {
                world.disturb(&edit);
                Outcome::Disturbed
            }
            Event::Sense => self.sense(world),
            Event::Act => self.act(world),
        }
    }

    /// Senses: finds the highest kernel that fits the world.
    fn sense<W: World>(&mut self, world: &W) -> Outcome
        requires room { length (W.atoms world.now) ≤ self.old.room }
        ensures happens { Happens W.leaves self.old.problem self.old.table self.old.bound (running (W.atoms world.now) self.old.memory)
            Event.Sense result (running (W.atoms world.now) self.new.memory) }
        ensures frame { self.new ≡ record self.old { memory = self.new.memory } }
    {
        self.sensed.clear();
        world.sense(&mut self.sensed);
        let found = self.matcher.best(&self.sensed);
        match found {
            None => {
                self.remembered = None;
                Outcome::NoKernel
            }
            Some(number) => {
                if number as usize > self.table.steps.len() {
                    self.remembered = None;
                    Outcome::Goal
                } else {
                    self.remembered = Some(number);
                    Outcome::Sensed(number)
                }
            }
        }
    }

    /// Acts: takes the remembered step, if all marks of its row are true.
    fn act<W: World>(&mut self, world: &mut W) -> Outcome
        requires rules { HaveSameRules (W.rules world.old) self.old.problem }
        requires places { places_for self.old.problem (remembered_step self.old.table self.old.memory) ≤ W.spare world.old }
        ensures happens { Happens W.leaves self.old.problem self.old.table self.old.bound (running (W.atoms world.old) self.old.memory)
            Event.Act result (running (W.atoms world.new) self.new.memory) }
        ensures frame { self.new ≡ record self.old { memory = self.new.memory } }
        ensures unchanged { ChangesNothing result → world.new ≡ world.old }
        ensures spare { W.spare world.old ≤ W.spare world.new + places_for self.old.problem
            (remembered_step self.old.table self.old.memory) }
        ensures rules { W.rules world.new ≡ W.rules world.old }
        ensures edits { (edit : W.Edit) → W.admits world.new edit ↔ W.admits world.old edit }
    {
        let number = match self.remembered {
            None => return Outcome::NotSensed,
            Some(number) => number,
        };
        let is_taken = act_by(
            self.problem,
            self.table,
            self.matcher.instance(),
            number,
            world,
        );
        self.remembered = None;
        if is_taken {
            Outcome::Acted
        } else {
            Outcome::Slipped
        }
    }
}
