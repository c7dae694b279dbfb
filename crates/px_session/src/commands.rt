//! Runs one command.
ghost use Rattle.std.specs.Prelude.{◌≡◌, ◌<◌, ◌++◌, All, Contains, IfOk, OnErr, OnOk, length, map};
ghost use Rattle.px_base.specs.Bounds.{u32_max};
ghost use Rattle.px_terms.specs.Validity.{IsValid};
ghost use Rattle.px_script.specs.Ranges.{result_given};
ghost use Rattle.px_session.specs.KeptSessions.{IsRunnable};
ghost use Rattle.px_session.specs.Lawful.{Lawful};
ghost use Rattle.px_session.specs.RunWorlds.{IsPlaced, TakeSame};
ghost use Rattle.px_session.specs.Sessions.{IsSession, of_atoms, of_rooms};

use crate::edit::Edit;
use crate::state::State;
use px_base::{NoMemory, Sequence, push};
use px_printer::Reply;
use px_rooms::RoomWorld;
use px_script::{Binding, Command};
use px_terms::Problem;
use px_world::{AtomEdit, RoomEdit};
use std::alloc::Global;

/// Runs a command in the state, with the building, if there is one, that belongs to it.
///
/// # Errors
/// `NoMemory` where there is no memory for the command or its reply. The state and the building are then as they were.
#[tactic(auto, using(crate::proofs::Placing::same_taken))]
pub(crate) fn run_command(
    alloc: Global,
    problem: &Problem,
    command: &Command,
    state: &mut State,
    building: &mut Option<RoomWorld>,
) -> Result<Reply, NoMemory>
    requires problem { IsValid problem.now }
    requires state { IsSession problem.now state.old }
    requires placed { IsPlaced problem.now building.old state.old }
    requires runnable { IsRunnable problem.now building.old command.now }
    requires few { length state.old.recorded < u32_max }
    requires new_names { All (λ name. ¬ Contains state.old.learned.names name) (result_given command.now) }
    ensures lawful { IfOk result (λ reply. Lawful problem.now state.old command.now reply state.new) }
    ensures placed { OnOk result (IsPlaced problem.now building.new state.new) }
    ensures takes { TakeSame building.old building.new }
    ensures kept { OnErr result (state.new ≡ state.old) }
    ensures kept_building { OnErr result (building.new ≡ building.old) }
{
    match command {
        Command::Plan {
            name,
            goal,
            variable_count,
        } => { state.plan(alloc, problem, *name, goal.as_slice(), *variable_count) }
        Command::Learn { name, source } => state.learn(alloc, problem, *name, *source),
        Command::Show { name } => state.show(*name),
        Command::Save { name } => state.save(*name),
        Command::Certify { name } => state.certify(alloc, problem, *name),
        Command::DisturbAtoms {
            turn,
            between,
            edits,
        } => {
            let edits = edits_of(alloc, edits.as_slice(), &[])?;
            state.note(*turn, *between, edits)
        }
        Command::DisturbRooms {
            turn,
            between,
            edits,
        } => {
            let edits = edits_of(alloc, &[], edits.as_slice())?;
            state.note(*turn, *between, edits)
        }
        Command::Run { name, bindings } => {
            let bound = pairs(alloc, bindings.as_slice())?;
            state.run(alloc, problem, *name, &bound, building)
        }
        Command::Duo {
            first,
            second,
            events,
        } => state.duo(alloc, problem, *first, *second, events.as_slice(), building),
        Command::Pursue {
            name,
            goal,
            variable_count,
        } => {
            state.pursue(
                alloc,
                problem,
                *name,
                goal.as_slice(),
                *variable_count,
                building,
            )
        }
        Command::Tree {
            name,
            nodes,
            goal,
            variable_count,
        } => state.tree(
            alloc,
            problem,
            *name,
            *nodes,
            goal.as_slice(),
            *variable_count,
        ),
        Command::Edit {
            name,
            from,
            prefix,
            wanted,
        } => state.edit(alloc, problem, *name, *from, *prefix, wanted.as_slice()),
        Command::Facts => state.tell_facts(alloc),
    }
}

/// Returns the bindings as pairs of a parameter and an object.
fn pairs(alloc: Global, bindings: &[Binding]) -> Result<Vec<(u32, u32)>, NoMemory>
    ensures { IfOk result (λ bound. bound.items ≡ bindings.now) }
{
    let mut bound = Vec::new(alloc);
    for binding in bindings {
        push(&mut bound, binding.pair())?;
    }
    Ok(bound)
}

/// Returns edits of atoms, and then edits of a building, as a session records them.
fn edits_of(
    alloc: Global,
    atoms: &[AtomEdit],
    rooms: &[RoomEdit],
) -> Result<Sequence<Edit>, NoMemory>
    ensures { IfOk result (λ made. made ≡ map of_atoms atoms.now ++ map of_rooms rooms.now) }
{
    let mut made = Vec::new(alloc);
    for atom in atoms {
        push(&mut made, Edit::OfAtoms(*atom))?;
    }
    for room in rooms {
        push(&mut made, Edit::OfRooms(*room))?;
    }
    Ok(Sequence::from_vec(made))
}
