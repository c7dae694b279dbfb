//! Laws about the definitions. The calls do nothing.
ghost use Rattle.px_support.specs.FoundMoves.{FoundWithWeight};
ghost use Rattle.px_support.specs.MadeSupports.{MovesSupport};

use px_entries::answers_support;

/// The rows of moves that can be made are a support of the steps that these take and of the goal.
pub fn moves_have_supports()
    ensures { MovesSupport }
{
    answers_support();
}

/// The moves that a search with a weight found can be made, are fewer than the nodes that may be kept, and the prover finds what is needed
/// to take them.
pub fn found_with_weight()
    ensures { FoundWithWeight }
{}
