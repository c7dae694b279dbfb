//! Laws about the definitions, whatever an edit leaves in a world. The calls do nothing.
ghost use Rattle.px_planex.specs.Execution.{TracesAreOne};
ghost use Rattle.px_planex.specs.Executors.{EventsTakePlaces};
ghost use Rattle.px_planex.specs.Existing.{TracesExist};
ghost use Rattle.px_planex.specs.Guards.{GuardNever};
ghost use Rattle.px_planex.specs.Progress.{ActsAndGoesOn, GoalIsReached};
ghost use Rattle.px_planex.specs.RunTraces.{RunsAreTraces};
ghost use Rattle.px_planex.specs.Turns.{RunsAreOne, TurnsAreFew};
ghost use Rattle.px_planex.specs.WorkedRuns.{DangerRuns};

use px_world::World;

// Alike: the laws, each of which is a call without a body whose clause is a definition of `specs/`.
/// What comes of a list of events is determined.
pub fn traces_are_one<W: World>()
    ensures { TracesAreOne W.leaves }
{}

/// Each list of events has a trace, where nothing is remembered or a kernel of a step.
pub fn traces_exist<W: World>()
    ensures { TracesExist W.leaves }
{}

/// Where an edit leaves at most one atom more, as the edits of `px_world` and `px_rooms` do, an event leaves at most as many more as it
/// may want places for, and the same atoms where its outcome changes nothing.
pub fn events_take_places<W: World>()
    ensures { EventsTakePlaces W.leaves }
{}

/// An action directly after a kernel was sensed is taken, and what is sensed then is a greater kernel.
pub fn acts_and_goes_on<W: World>()
    ensures { ActsAndGoesOn W.leaves }
{}

/// After kernel `i` of a table of `n` steps was sensed, acting and sensing in turn reaches the goal after at most `n + 1 - i`
/// actions, all of which are taken.
pub fn goal_is_reached<W: World>()
    ensures { GoalIsReached W.leaves }
{}

/// Where the marks of a step's row are among some atoms, the step may not be refused there, by rules with the problem's objects,
/// axioms and operators.
pub fn guard_never()
    ensures { GuardNever }
{}

/// A run is determined: its turns, and the atoms after it.
pub fn runs_are_one<W: World>()
    ensures { RunsAreOne W.leaves }
{}

/// A run is a trace: in each turn come the edits before, the sensing, and unless that ends the run the edits between and the
/// action.
pub fn runs_are_traces<W: World>()
    ensures { RunsAreTraces W.leaves }
{}

/// A run with `D` recorded disturbances of a table of `n` steps has at most `(D + 1) * (n + 1)` turns.
pub fn turns_are_few<W: World>()
    ensures { TurnsAreFew W.leaves }
{}

/// Three runs of the plan that one object for two would spoil: one that senses no kernel, one that takes two steps to the goal, and one in
/// which a disturbance makes the action slip. And an action before which nothing was sensed takes no step.
pub fn danger_runs()
    ensures { DangerRuns }
{}
