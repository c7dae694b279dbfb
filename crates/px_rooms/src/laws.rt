//! Laws about the definitions. The calls do nothing.
ghost use Rattle.px_world.specs.Worlds.{EditsAddOne};
ghost use Rattle.px_rooms.specs.Changes.{facts_edited};
ghost use Rattle.px_rooms.specs.Domain.{BuildingsAreValid};
ghost use Rattle.px_rooms.specs.FactSets.{FactsAreAtoms};
ghost use Rattle.px_rooms.specs.Following.{ActionsAreResults, ActionsAreRuns, EditsAreEdits, FactsAreFew, InstancesAreActions, RefusalsAreAllowed};
ghost use Rattle.px_rooms.specs.WorkedBuilding.{ActionFacts, EditFacts, KindFacts, StateFacts};
ghost use Rattle.px_rooms.specs.WorkedDomain.{DomainFacts};

/// The problem of a building is valid, with as many objects and whatever limits a valid problem may have.
pub fn buildings_are_valid()
    ensures { BuildingsAreValid }
{}

/// The domain of buildings is what these lines of a script would declare.
pub fn worked_domain()
    ensures { DomainFacts }
{}

/// Of a small building: its facts, each of the seven actions and the edits; and which lists are no building.
pub fn worked_building()
    ensures states { StateFacts }
    ensures kinds { KindFacts }
    ensures actions { ActionFacts }
    ensures edits { EditFacts }
{}

/// In every state: an action whose precondition is true leaves the facts that its operator describes.
pub fn actions_are_results()
    ensures { ActionsAreResults }
{}

/// In every state: an action whose precondition is true is one that its operator describes. Each state has an interpretation, and the
/// action makes a run from each one of the state before to each one of the state after.
pub fn actions_are_runs()
    ensures { ActionsAreRuns }
{}

/// Each instance of an operator over a building's objects is that of one action.
pub fn instances_are_actions()
    ensures { InstancesAreActions }
{}

/// In every state: an edit that is admitted leaves the facts that its definition gives.
pub fn edits_are_edits()
    ensures { EditsAreEdits }
{}

/// In every state: where an atom of the precondition isn't a fact, some state of the world has all facts, and the axiom, and
/// the atom is false there.
pub fn refusals_are_allowed()
    ensures { RefusalsAreAllowed }
{}

/// In every state: the facts are a set of atoms over the building's objects and predicates.
pub fn facts_are_atoms()
    ensures { FactsAreAtoms }
{}

/// In every state: each fact is ground, and there are at most four for each thing and two more.
pub fn facts_are_few()
    ensures { FactsAreFew }
{}

/// An edit of a building leaves at most one fact more.
pub fn room_edits_add_one()
    ensures { EditsAddOne facts_edited }
{}
