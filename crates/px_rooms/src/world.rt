//! The world of a building.
ghost use Rattle.std.specs.Prelude.{◌≡◌, ◌⊎◌, ◌↔◌, ◌<◌, ◌≤◌, ◌+◌, ℕ, length, Some, Contains, false, IsTrue, IsErrOf, IfOk, IsOk, MatchResult, OnOk, OnErr, slice_get};
ghost use Rattle.px_base.specs.Bounds.{u32_max, u64_max};
ghost use Rattle.px_terms.specs.declared.term.Term.TheVariants.{Obj};
ghost use Rattle.px_terms.specs.Operators.{result_of};
ghost use Rattle.px_terms.specs.Validity.{IsInstanceOf};
ghost use Rattle.px_world.specs.declared.edits.RoomEdit.{RoomEdit};
ghost use Rattle.px_world.specs.Worlds.{IsActionRefused};
ghost use Rattle.px_rooms.specs.Added.{AreAdded, of_pred};
ghost use Rattle.px_rooms.specs.Changes.{IsAdmitted, IsMoved, acted, facts_edited, instance_of_action, state_edited};
ghost use Rattle.px_rooms.specs.Following.{IsMet};
ghost use Rattle.px_rooms.specs.Looking.{atoms_about, number_first};
ghost use Rattle.px_rooms.specs.States.{IsBuilding, IsRoomState, all_atoms, building_rules, first_state, rendering, robot_atoms as atoms_of_robot};

use crate::action::RoomAction;
use crate::adding::{add_placed, add_things};
use crate::building::Building;
use crate::change::ThingChange;
use crate::errors::{NoSuchThing, RoomErr};
use crate::fact_counts::{count_placed, count_things};
use crate::facts::{FewAtoms, ROBOT, in_room, next_to, thing_atoms};
use crate::problem::{PREDICATES, problem_of};
use crate::robots::Robots;
use crate::standing::Standing;
use crate::start::{first_things, robots_of};
use crate::things::{all_stand_right, change_thing, is_box, is_door, is_room};
use px_ops::{Model, pre, schema_of};
use px_terms::{Atom, NoMemory, OpInst, Problem, Term};
use px_world::{Guard, Regrow, RoomEdit, World};
use std::alloc::Global;

/// A building with its robot: rooms, doors that are open or closed, and boxes that the robot pushes.
///
/// Contracts see it as its state (`RoomState` in `specs/States`).
#[derive(Drop)]
pub struct RoomWorld {
    rules: Problem,
    robot_room: u32,
    robot_beside: Option<u32>,
    things: Vec<Standing>,
}

impl std::marker::Model for RoomWorld {
    ghost use Rattle.px_rooms.specs.States.{RoomState};
    ghost use Rattle.px_rooms.specs.States.{IsRoomWorld};

    ghost Value = { RoomState };

    ghost view = { λ w. record { robot_room = w.robot_room; robot_beside = w.robot_beside; things = w.things.items } };

    ghost invariant = { λ w. IsRoomWorld w.rules (record {
      robot_room = w.robot_room;
      robot_beside = w.robot_beside;
      things =
          w.things.items;
    }) };
}

impl RoomWorld {
    /// Returns the world of a building, in which nothing is beside anything.
    ///
    /// # Errors
    /// `NoSuchThing` where a number names no thing of the kind that is wanted there, a door has one room on both sides, or
    /// there isn't exactly one robot; `NoMemory` where there is no memory for the world.
    pub fn new(alloc: Global, building: &Building) -> Result<RoomWorld, RoomErr>
        requires short { length building.now.things < u32_max }
        ensures state { IfOk result (λ world. world ≡ first_state building.now.things) }
        ensures building { OnOk result (IsBuilding building.now.things) }
        ensures no_such_thing { IsErrOf result RoomErr.NoSuchThing → ¬ IsBuilding building.now.things }
        ensures always_refused { ¬ IsBuilding building.now.things → IsErrOf result RoomErr.NoSuchThing ⊎ IsErrOf result RoomErr.NoMemory }
    {
        let given = building.things.as_slice();
        let Robots::One(robot_room) = robots_of(given) else {
            return Err(RoomErr::NoSuchThing);
        };
        let things = match first_things(alloc, given) {
            Ok(things) => things,
            Err(NoMemory) => return Err(RoomErr::NoMemory),
        };
        if !(is_room(&things, robot_room) && all_stand_right(&things)) {
            return Err(RoomErr::NoSuchThing);
        }
        match problem_of(alloc, given.len() as u32, 1, 1, 2) {
            Ok(rules) => Ok(RoomWorld {
                rules,
                robot_room,
                robot_beside: None,
                things,
            }),
            Err(NoMemory) => Err(RoomErr::NoMemory),
        }
    }

    /// Returns a world in the same state, in memory of the same allocator.
    ///
    /// # Errors
    /// `NoMemory` where there is no memory for the copy.
    pub fn try_copy(&self) -> Result<RoomWorld, NoMemory>
        ensures { IfOk result (λ copy. copy ≡ self.now) }
    {
        self.known();
        let alloc = *self.things.allocator();
        let mut things = Vec::new(alloc);
        things.extend_from_slice(&self.things)?;
        Ok(RoomWorld {
            rules: problem_of(alloc, things.len() as u32 + 1, 1, 1, 2)?,
            robot_room: self.robot_room,
            robot_beside: self.robot_beside,
            things,
        })
    }

    /// Returns the model of all facts.
    ///
    /// # Errors
    /// `NoMemory` where there is no memory for four atoms a thing and two more.
    pub fn render(&self, alloc: Global) -> Result<Model, NoMemory>
        ensures { IfOk result (λ model. model.atoms ≡ rendering self.now) }
    {
        self.known();
        let mut model = Model::new(alloc);
        model.reserve(4 * self.things.len() + 2)?;
        self.sense(&mut model);
        Ok(model)
    }

    /// Changes the building from outside. Does not allocate.
    ///
    /// # Errors
    /// `NoSuchThing` exactly where a number names no thing of the kind that is wanted. The world is then as it was.
    pub fn edit(&mut self, edit: &RoomEdit) -> Result<(), NoSuchThing>
        ensures exact { MatchResult result (λ _. IsAdmitted self.old edit.now) (λ _. ¬ IsAdmitted self.old edit.now) }
        ensures edited { OnOk result (self.new ≡ state_edited edit.now self.old) }
        ensures facts { OnOk result (rendering self.new ≡ facts_edited edit.now (rendering self.old)) }
        ensures kept { OnErr result (self.new ≡ self.old) }
        ensures rules { building_rules self.new ≡ building_rules self.old }
        ensures admitted { (other : RoomEdit) → IsAdmitted self.new other ↔ IsAdmitted self.old other }
    {
        if !self.takes(edit) {
            return Err(NoSuchThing);
        }
        self.disturb(edit);
        Ok(())
    }

    /// The state is one of a building, which has fewer things, the robot among them, than a list may have.
    fn known(&self)
        ensures state { IsRoomState self.now }
        ensures few { length self.now.things + 1 < u32_max }
    {
        // Where a field is read, what each world keeps is known.
        let _ = &self.rules;
    }

    /// Returns whether the numbers of the edit name things of the kinds that are wanted.
    fn takes(&self, edit: &RoomEdit) -> bool
        ensures { IsTrue result ↔ IsAdmitted self.now edit.now }
    {
        match *edit {
            RoomEdit::Robot(room) => is_room(&self.things, room),
            RoomEdit::Box(target, room) => {
                is_box(&self.things, target) && is_room(&self.things, room)
            }
            RoomEdit::Door(door, _) => is_door(&self.things, door),
        }
    }

    /// Returns the facts about the robot.
    fn robot_atoms(&self) -> FewAtoms
        ensures { result ≡ atoms_of_robot self.now }
    {
        let place = in_room(ROBOT, Term::Obj(self.robot_room));
        match self.robot_beside {
            None => FewAtoms::of(&[place]),
            Some(number) => FewAtoms::of(&[place, next_to(ROBOT, Term::Obj(number))]),
        }
    }

    /// Returns the facts about an object: those of which it is the first argument.
    fn atoms_about(&self, number: u32) -> FewAtoms
        ensures { result ≡ atoms_about self.now number }
    {
        if number == 0 {
            return self.robot_atoms();
        }
        match self.things.get(number as usize - 1) {
            Some(standing) => thing_atoms(number, standing),
            None => FewAtoms::of(&[]),
        }
    }

    /// Returns whether the atom is a fact.
    fn has(&self, atom: &Atom) -> bool
        ensures { IsTrue result ↔ Contains (rendering self.now) atom.now }
    {
        match first_object(atom) {
            Some(number) => self.atoms_about(number).as_slice().contains(atom),
            None => false,
        }
    }

    /// Returns whether each atom of the instance's precondition is true.
    fn meets(&self, inst: &OpInst) -> bool
        requires { IsInstanceOf (building_rules self.now) inst.now }
        ensures test { IsTrue result ↔ IsMet self.now inst.now }
        ensures guard { result ≡ false → IsActionRefused (building_rules self.now) (rendering self.now) inst.now }
    {
        let schema = schema_of(&self.rules, inst);
        for k in 0..schema.pre.len() {
            if !self.has(&pre(schema, inst, k)) {
                return false;
            }
        }
        true
    }

    /// Does what the instance says, where its precondition is true.
    fn follow(&mut self, inst: &OpInst)
        requires instance { IsInstanceOf (building_rules self.old) inst.now }
        requires met { IsMet self.old inst.now }
        ensures moved { IsMoved inst.now self.old self.new }
        ensures acted { rendering self.new ≡ result_of (building_rules self.old) (rendering self.old) inst.now }
        ensures rules { building_rules self.new ≡ building_rules self.old }
        ensures admitted { (edit : RoomEdit) → IsAdmitted self.new edit ↔ IsAdmitted self.old edit }
    {
        self.known();
        let action = self.action_of(inst);
        self.take(&action);
    }

    /// Returns the action whose instance it is.
    fn action_of(&self, inst: &OpInst) -> RoomAction
        requires { IsInstanceOf (building_rules self.now) inst.now }
        ensures { inst.now ≡ instance_of_action result }
    {
        let args = inst.args();
        let first = number_at(args, 0);
        let second = number_at(args, 1);
        let third = number_at(args, 2);
        let fourth = number_at(args, 3);
        match inst.op() {
            0 => RoomAction::GoToBox(first, second),
            1 => RoomAction::GoToDoor(first, second, third),
            2 => RoomAction::Open(first),
            3 => RoomAction::Close(first),
            4 => RoomAction::GoThrough(first, second, third),
            5 => RoomAction::PushToDoor(first, second, third, fourth),
            _ => RoomAction::PushThrough(first, second, third, fourth),
        }
    }

    /// Adds the facts of the predicate to a model that has room for them, those of smaller objects first.
    fn add_facts(&self, pred: u32, into: &mut Model)
        requires room { length (of_pred pred (all_atoms self.now)) ≤ into.old.spare }
        ensures atoms { AreAdded (of_pred pred (all_atoms self.now)) into.old.atoms into.new.atoms }
        ensures spare { into.old.spare ≤ into.new.spare + length (of_pred pred (all_atoms self.now)) }
    {
        self.known();
        // The robot is object 0.
        add_placed(0, self.robot_room, self.robot_beside, pred, into);
        add_things(&self.things, pred, into);
    }

    /// Does what the action says.
    fn take(&mut self, action: &RoomAction)
        requires state { IsRoomState (acted action.now self.old) }
        requires count { length (acted action.now self.old).things ≡ length self.old.things }
        ensures { self.new ≡ acted action.now self.old }
    {
        match *action {
            RoomAction::GoToBox(target, _) => self.robot_beside = Some(target),
            RoomAction::GoToDoor(door, _, _) => self.robot_beside = Some(door),
            RoomAction::Open(door) => change_thing(
                &mut self.things,
                door,
                ThingChange::Turned(true),
            ),
            RoomAction::Close(door) => change_thing(
                &mut self.things,
                door,
                ThingChange::Turned(false),
            ),
            RoomAction::GoThrough(_, _, room) => {
                self.robot_room = room;
                self.robot_beside = None;
            }
            RoomAction::PushToDoor(target, door, _, _) => {
                change_thing(&mut self.things, target, ThingChange::Beside(door));
                self.robot_beside = Some(target);
            }
            RoomAction::PushThrough(target, _, _, beyond) => {
                change_thing(&mut self.things, target, ThingChange::Into(beyond));
                self.robot_room = beyond;
                self.robot_beside = Some(target);
            }
        }
    }

    /// Does what the edit says.
    fn change(&mut self, edit: &RoomEdit)
        requires state { IsRoomState (state_edited edit.now self.old) }
        requires count { length (state_edited edit.now self.old).things ≡ length self.old.things }
        ensures { self.new ≡ state_edited edit.now self.old }
    {
        match *edit {
            RoomEdit::Robot(room) => {
                self.robot_room = room;
                self.robot_beside = None;
            }
            RoomEdit::Box(target, room) => {
                change_thing(&mut self.things, target, ThingChange::Into(room));
                if self.robot_beside == Some(target) {
                    self.robot_beside = None;
                }
            }
            RoomEdit::Door(door, is_open) => change_thing(
                &mut self.things,
                door,
                ThingChange::Turned(is_open),
            ),
        }
    }
}

impl World for RoomWorld {
    type Edit = RoomEdit;

    ghost atoms = { rendering };

    ghost rules = { building_rules };

    ghost admits = { IsAdmitted };

    ghost leaves = { facts_edited };

    ghost spare = { λ w. u64_max };

    fn holds(&self, atom: &Atom) -> bool {
        self.has(atom)
    }

    // Predicate by predicate, since the model is ordered so: nearly every atom then comes after all that are there.
    fn sense(&self, into: &mut Model) {
        self.known();
        for pred in 0..PREDICATES as u32 {
            self.add_facts(pred, into);
        }
    }

    /// Takes the action, or refuses it: it refuses exactly where an atom of the precondition isn't a fact.
    fn act(&mut self, inst: &OpInst) -> Result<(), Guard>
        requires instance { IsInstanceOf (building_rules self.old) inst.now }
        ensures exact { MatchResult result (λ _. IsMet self.old inst.now) (λ _. ¬ IsMet self.old inst.now) }
        ensures moved { OnOk result (IsMoved inst.now self.old self.new) }
        ensures acted { OnOk result (rendering self.new ≡ result_of (building_rules self.old) (rendering self.old) inst.now) }
        ensures guard { OnErr result (IsActionRefused (building_rules self.old) (rendering self.old) inst.now) }
        ensures kept { OnErr result (self.new ≡ self.old) }
        ensures rules { building_rules self.new ≡ building_rules self.old }
        ensures admitted { (edit : RoomEdit) → IsAdmitted self.new edit ↔ IsAdmitted self.old edit }
    {
        if !self.meets(inst) {
            return Err(Guard);
        }
        self.follow(inst);
        Ok(())
    }

    /// Changes the building from outside.
    fn disturb(&mut self, edit: &RoomEdit)
        requires admitted { IsAdmitted self.old edit.now }
        ensures edited { self.new ≡ state_edited edit.now self.old }
        ensures atoms { rendering self.new ≡ facts_edited edit.now (rendering self.old) }
        ensures number { length (rendering self.new) ≤ length (rendering self.old) + 1 }
        ensures rules { building_rules self.new ≡ building_rules self.old }
        ensures admitted { (other : RoomEdit) → IsAdmitted self.new other ↔ IsAdmitted self.old other }
    {
        self.known();
        self.change(edit);
    }
}

impl Regrow for RoomWorld {
    /// Does nothing: facts take no room in a building, so there is room for as many as a `usize` can say.
    fn regrow(&mut self, spare: usize) -> Result<(), NoMemory>
        ensures always { IsOk result }
        ensures spare { spare ≤ u64_max }
        ensures state { self.new ≡ self.old }
    {
        // A line of the body that has `spare` gives the proof its bound as a `usize`, which is the clause above.
        let _spare = spare;
        Ok(())
    }

    fn atom_count(&self) -> usize {
        self.known();
        count_placed(self.robot_beside) + count_things(&self.things)
    }
}

/// Returns the number of the atom's first argument, if it is an object.
fn first_object(atom: &Atom) -> Option<u32>
    ensures { result ≡ number_first atom.now.args }
{
    match atom.args().first() {
        Some(Term::Obj(number)) => Some(*number),
        _ => None,
    }
}

/// Returns the number of the object at a place, where there is one.
fn number_at(terms: &[Term], place: usize) -> u32
    ensures { (n : ℕ) → slice_get terms.now place ≡ Some (Obj n) → result ≡ n }
{
    match terms.get(place) {
        Some(Term::Obj(number)) => *number,
        _ => 0,
    }
}
