//! The world of a run.
ghost use Rattle.std.specs.Prelude.{◌≡◌, ◌↔◌, ◌≤◌, Option, IfOk, OnErr};
ghost use Rattle.px_terms.specs.Validity.{IsValid};
ghost use Rattle.px_world.specs.Worlds.{HaveSameRules};
ghost use Rattle.px_session.specs.RunWorlds.{IsWorldInBuilding, RunWorldTakes, TakeSame, building_of, run_world_atoms, run_world_rules, run_world_spare};
ghost use Rattle.px_session.specs.Sessions.{leaves_edit};

use crate::edit::Edit;
use px_base::NoMemory;
use px_ops::Model;
use px_rooms::RoomWorld;
use px_terms::{Atom, OpInst, Problem};
use px_world::{AtomWorld, Guard, Regrow, World};
use std::alloc::Global;

/// The world of a run: a copy of the session's atoms, or its building.
#[derive(Drop)]
pub(crate) enum RunWorld<'a> {
    /// A world of atoms.
    Atoms(AtomWorld<'a>),
    /// A building.
    Rooms(RoomWorld),
}

/// Returns the world of a run: the building, which is handed over, or else a copy of the facts with room for `spare` further ones.
///
/// # Errors
/// `NoMemory` where there is no memory for the copy. The building, if there is one, takes none.
pub(crate) fn enter<'a>(
    alloc: Global,
    problem: &'a Problem,
    facts: &Model,
    spare: usize,
    building: &mut Option<RoomWorld>,
) -> Result<RunWorld<'a>, NoMemory>
    requires problem { IsValid problem.now }
    requires place { IsWorldInBuilding problem.now facts.now.atoms building.old }
    ensures building { IfOk result (λ place. building_of place ≡ building.old) }
    ensures atoms { IfOk result (λ place. run_world_atoms place ≡ facts.now.atoms) }
    ensures rules { IfOk result (λ place. HaveSameRules (run_world_rules place) problem.now) }
    ensures spare { IfOk result (λ place. spare ≤ run_world_spare place) }
    ensures kept { OnErr result (building.new ≡ building.old) }
{
    match building.take() {
        Some(world) => Ok(RunWorld::Rooms(world)),
        None => Ok(RunWorld::Atoms(AtomWorld::new(alloc, problem, facts, spare)?)),
    }
}

/// Returns the building, if the world is one.
pub(crate) fn leave(place: RunWorld<'_>) -> Option<RoomWorld>
    ensures { result ≡ building_of place.entry }
{
    match place {
        RunWorld::Atoms(_) => None,
        RunWorld::Rooms(world) => Some(world),
    }
}

impl<'a> World for RunWorld<'a> {
    type Edit = Edit;

    ghost atoms = { run_world_atoms };

    ghost rules = { run_world_rules };

    ghost admits = { RunWorldTakes };

    ghost leaves = { leaves_edit };

    ghost spare = { run_world_spare };

    fn holds(&self, atom: &Atom) -> bool {
        match self {
            RunWorld::Atoms(world) => world.holds(atom),
            RunWorld::Rooms(world) => world.holds(atom),
        }
    }

    fn sense(&self, into: &mut Model) {
        match self {
            RunWorld::Atoms(world) => world.sense(into),
            RunWorld::Rooms(world) => world.sense(into),
        }
    }

    fn act(&mut self, inst: &OpInst) -> Result<(), Guard> {
        match self {
            RunWorld::Atoms(world) => world.act(inst),
            RunWorld::Rooms(world) => world.act(inst),
        }
    }

    fn disturb(&mut self, edit: &Edit) {
        match (self, edit) {
            (RunWorld::Atoms(world), Edit::OfAtoms(edit)) => world.disturb(edit),
            (RunWorld::Rooms(world), Edit::OfRooms(edit)) => world.disturb(edit),
            _ => unreachable!(),
        }
    }
}

impl<'a> Regrow for RunWorld<'a> {
    fn regrow(&mut self, spare: usize) -> Result<(), NoMemory> {
        match self {
            RunWorld::Atoms(world) => world.regrow(spare),
            RunWorld::Rooms(world) => world.regrow(spare),
        }
    }

    fn atom_count(&self) -> usize {
        match self {
            RunWorld::Atoms(world) => world.atom_count(),
            RunWorld::Rooms(world) => world.atom_count(),
        }
    }
}
