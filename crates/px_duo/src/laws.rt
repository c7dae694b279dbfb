//! Laws about the definitions, whatever an edit leaves in a world. The calls do nothing.
ghost use Rattle.px_duo.specs.Alone.{EachIsAlone};
ghost use Rattle.px_duo.specs.DuoLaws.{DuoTracesAreOne, DuoTracesExist, DuosStayReady};
ghost use Rattle.px_duo.specs.Slips.{SlipsHaveCauses};
ghost use Rattle.px_duo.specs.Sparing.{SparedAreUnhindered, SparedReachGoal};

use px_planex::traces_exist;
use px_world::World;

// Alike: the laws, each of which is a call that does nothing and whose clause is a definition of `specs/`.
/// What comes of a list of events is determined.
pub fn duo_traces_are_one<W: World>()
    ensures { DuoTracesAreOne W.leaves }
{}

/// Each list of events has a trace, where each of the two remembers nothing or a kernel that it can act by.
pub fn duo_traces_exist<W: World>()
    ensures { DuoTracesExist W.leaves }
{
    traces_exist::<W>();
}

/// Where each of the two remembers nothing or a kernel that it can act by, it is so again after any events.
pub fn duos_stay_ready<W: World>()
    ensures { DuosStayReady W.leaves }
{}

/// Each of the two does what it would do alone in the world, where the steps that the other takes count as disturbances.
pub fn each_is_alone<W: World>()
    ensures { EachIsAlone W.leaves }
{}

/// An action slips only where since its sensing an edit, or a step of the other, made a mark of its row false.
pub fn slips_have_causes<W: World>()
    ensures { SlipsHaveCauses W.leaves }
{}

/// Where the steps of the other spare what its kernels rest on and nothing else changes the world, from its first kernel on none of its
/// actions slips, and each of its sensings finds a kernel, whatever its own events are and however the other's fall between them.
pub fn spared_are_unhindered<W: World>()
    ensures { SparedAreUnhindered W.leaves }
{}

/// Where the steps of the other spare what its kernels rest on and nothing else changes the world, the one, once it has sensed a kernel,
/// reaches its goal by acting and sensing in turn, however the other's events fall between.
pub fn spared_reach_goal<W: World>()
    ensures { SparedReachGoal W.leaves }
{}
