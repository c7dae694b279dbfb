//! Laws about the definitions. The calls do nothing.
ghost use Rattle.px_gaps.specs.Addable.{AddableAlike};

/// An atom may be added by an operator of the problem exactly where the prover takes it for one that may be a gap, whatever the facts are.
pub fn addable_alike()
    ensures { AddableAlike }
{}
