//! A law about the definitions. The call does nothing.
ghost use Rattle.px_turns.specs.Vain.{VainRunsUse};

use px_world::World;

/// A run at whose start some kernel fits, and that ends where none does, uses a disturbance.
pub fn vain_runs_use<W: World>()
    ensures { VainRunsUse W.leaves }
{}
