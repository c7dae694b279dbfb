//! Laws about every search, in whatever order it goes on. The calls do nothing.
ghost use Rattle.px_order.specs.OpenPlaces.{AgendaGoesOn, BlindNeedsNoAgenda};
ghost use Rattle.px_order.specs.OrderLaws.{AllIsFound, AskedByRun, BlindEnds, BlindIsBreadth, ExhaustedInAll, NodesStandOnce, OneStop};
ghost use Rattle.px_order.specs.OrderLaws.{RunsAreOne};
ghost use Rattle.px_order.specs.WorkedOrder.{OrderFacts};

use crate::searches::Search;

/// So many picks and finds lead to one state: a search is determined.
pub fn runs_are_one<S: Search>()
    ensures { RunsAreOne S.space }
{}

/// Each node stands once among those that are found, with moves that can be made, no more than its place.
pub fn nodes_stand_once<S: Search>()
    ensures { NodesStandOnce S.space }
{}

/// Where no place is left, each node that moves reach is found: nothing is pruned.
pub fn all_is_found<S: Search>()
    ensures { AllIsFound S.space }
{}

/// Weight 0 is breadth: places are picked as they were found, and each node is found by its least list of moves, in order.
pub fn blind_is_breadth<S: Search>()
    ensures { BlindIsBreadth S.space }
{}

/// A search has one stop, with the same lists before it. Where it ends by finding a solved node, the moves are determined, and it doesn't
/// end by the node limit.
pub fn one_stop<S: Search>()
    ensures { OneStop S.space S.aim }
{}

/// What a search asks is told by the run that comes to its end.
pub fn asked_by_run<S: Search>()
    ensures { AskedByRun S.space S.aim }
{}

/// Where a search is exhausted in one order, none of the other ends comes in any order: by whatever weight, estimate and comparison of
/// moves.
pub fn exhausted_in_all<S: Search>()
    ensures { ExhaustedInAll S.space S.aim }
{}

/// At weight 0 each end is that of a search in breadth, as it is said by the order of lists of moves alone, and what is asked is asked
/// there.
pub fn blind_ends<S: Search>()
    ensures { BlindEnds S.space S.aim }
{}

/// What is picked from an agenda of all places that weren't picked is next, and adding what is found keeps it such an agenda.
pub fn agenda_goes_on<S: Search>()
    ensures { AgendaGoesOn S.space }
{}

/// At weight 0 a counter serves in place of an agenda.
pub fn blind_needs_no_agenda<S: Search>()
    ensures { BlindNeedsNoAgenda S.space }
{}

/// Searches over five nodes, worked by hand, with weight 2 and with weight 0.
pub fn worked_order()
    ensures { OrderFacts }
{}
