//! Laws about the definitions. The calls do nothing.
ghost use Rattle.px_totality.specs.FoundTables.{FoundHaveTables};
ghost use Rattle.px_totality.specs.RunsEnd.{RunsEnd};
ghost use Rattle.px_totality.specs.SearchEnds.{SearchesEnd, TreesExist};
ghost use Rattle.px_totality.specs.WeightNone.{WeightNoneIsExactlyBreadth};

use px_planex::traces_exist;
use px_world::World;

/// There is no task whose search, with whatever weight, has none of the four ends: moves are found, or it is exhausted, or it meets the
/// limit of nodes or that of shapes.
pub fn searches_end()
    ensures { SearchesEnd }
{}

/// There is no task whose search, with whatever weight, has no tree.
pub fn trees_exist()
    ensures { TreesExist }
{}

/// With weight 0 each end of a search is an end of the search in breadth, and the other way round.
pub fn weight_none_is_exactly_breadth()
    ensures { WeightNoneIsExactlyBreadth }
{}

/// Each list of moves that a search found has a table.
pub fn found_have_tables()
    ensures { FoundHaveTables }
{}

/// Each run of a table ends, in whatever world: an executor has some turns, and leaves some atoms.
pub fn runs_end<W: World>()
    ensures { RunsEnd W.leaves }
{
    traces_exist::<W>();
}
