//! Laws about the definitions. The calls do nothing.
ghost use Rattle.px_ends.specs.Determined.{AskedByStop, EndsAreOne, TablesAreOne};
ghost use Rattle.px_ends.specs.ValueLaws.{ExhaustedWithAll, FitsIsMatch, NodesStandOnceWithAll, ValueEndsAreOne, WeightNoneIsBreadth};
ghost use Rattle.px_ends.specs.WorkedEnds.{EndFacts};
ghost use Rattle.px_ends.specs.WorkedValues.{ValueFacts};

/// A search has one end: found, exhausted, the node limit or the shape limit. What the first three say is determined, and of the shape
/// limit the number of shapes.
pub fn ends_are_one()
    ensures { EndsAreOne }
{}

/// Which questions a search asks, by the first node that is solved or that there is no room for.
pub fn asked_by_stop()
    ensures { AskedByStop }
{}

/// A list of moves has one table, proofs included.
pub fn tables_are_one()
    ensures { TablesAreOne }
{}

/// The smallest searches: nothing to reach, the goal among the facts, a goal out of reach, one that an operator makes true, and one for
/// which there is no room.
pub fn worked_ends()
    ensures { EndFacts }
{}

/// With each weight a search has one end, and so many steps lead to one state.
pub fn value_ends_are_one()
    ensures { ValueEndsAreOne }
{}

/// With each weight a node stands once among those that a search finds, and where no place is left, each node that moves reach is found:
/// nothing is pruned.
pub fn nodes_stand_once()
    ensures { NodesStandOnceWithAll }
{}

/// Where a search is exhausted with one weight, it isn't found or limited with any.
pub fn exhausted_with_all()
    ensures { ExhaustedWithAll }
{}

/// With weight 0 each end is that of the search in breadth.
pub fn weight_none_is_breadth()
    ensures { WeightNoneIsBreadth }
{}

/// An atom that is needed has an instance among the facts exactly where some objects for its variables, one for each, make it a fact.
pub fn fits_is_match()
    ensures { FitsIsMatch }
{}

/// What small nodes lack, and the smallest searches with a weight.
pub fn worked_values()
    ensures { ValueFacts }
{}
