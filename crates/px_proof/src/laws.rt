//! Laws about the definitions. The calls do nothing.
ghost use Rattle.px_proof.specs.ProofTerm.{DerivationsTellProofs};
ghost use Rattle.px_proof.specs.Proves.{StaysUnderLongerPaths};
ghost use Rattle.px_proof.specs.Range.{LeavesAreOfProblem};
ghost use Rattle.px_proof.specs.Substitution.{ShapesStay, SubstitutionsCompose};

/// Proof terms that contracts see as the same derivation are equal.
pub fn derivations_tell_proofs()
    ensures { DerivationsTellProofs }
{}

/// A proof under a path is one under each path that goes on from it upwards; so a proof under the empty path is one under any.
pub fn paths_may_be_longer()
    ensures { StaysUnderLongerPaths }
{}

/// Where a literal's atom is one of a problem over some number of parameters, and the steps of its proof choose objects of the
/// problem and such parameters, the leaves' atoms are the problem's, and so are all terms. The model may hold other atoms.
pub fn leaves_are_of_problem()
    ensures { LeavesAreOfProblem }
{}

/// What stands for the variables of a proof doesn't change its shape.
pub fn shapes_stay()
    ensures { ShapesStay }
{}

/// Replacing the variables twice is replacing them once, by the inner terms under the outer ones.
pub fn substitutions_compose()
    ensures { SubstitutionsCompose }
{}
