//! Laws about the definitions. The calls do nothing.
ghost use Rattle.px_world.specs.WorkedGuard.{GuardFact};
ghost use Rattle.px_world.specs.Worlds.{EditsAddOne, edited};

/// A step that needs P may be refused where nothing is known. It can't be where P is known, nor where an axiom says that P is
/// true wherever Q is, and Q is known.
pub fn worked_guard()
    ensures { GuardFact }
{}

/// An edit of a list of atoms leaves at most one atom more.
pub fn atom_edits_add_one()
    ensures { EditsAddOne edited }
{}
