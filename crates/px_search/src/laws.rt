//! Laws about the definitions. The calls do nothing.
ghost use Rattle.px_ends.specs.Trees.{TreesAreOne};
ghost use Rattle.px_search.specs.WorkedTrees.{TreeFacts};

/// A search has one tree, with each weight.
pub fn trees_are_one()
    ensures { TreesAreOne }
{}

/// The trees of the smallest searches.
pub fn worked_trees()
    ensures { TreeFacts }
{}
