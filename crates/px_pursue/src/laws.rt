//! Laws about the definitions, whatever an edit leaves in a world. The calls do nothing.
ghost use Rattle.px_pursue.specs.PursuitLaws.{GoalsAreReached, PlansFit, PursuitsAreOne, PursuitsAreShort, SearchesAreFew, VainRunsAreFew};

use px_world::World;

/// The table of a plan fits the atoms from which the plan was found.
pub fn plans_fit()
    ensures { PlansFit }
{}

/// At most as many runs are in vain as disturbances are recorded.
pub fn vain_runs_are_few<W: World>()
    ensures { VainRunsAreFew W.leaves }
{}

/// With `D` recorded disturbances there are at most `D + 1` searches.
pub fn searches_are_few<W: World>()
    ensures { SearchesAreFew W.leaves }
{}

/// With `D` recorded disturbances, and plans of at most `n` steps, there are at most `(2 * D + 1) * (n + 1)` turns.
pub fn pursuits_are_short<W: World>()
    ensures { PursuitsAreShort W.leaves }
{}

/// A pursuit is determined.
pub fn pursuits_are_one<W: World>()
    ensures { PursuitsAreOne W.leaves }
{}

/// Where a pursuit ends at the goal, the goal holds.
pub fn goals_are_reached<W: World>()
    ensures { GoalsAreReached W.leaves }
{}
