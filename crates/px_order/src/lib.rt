//! The order of a search: best-first, by the value of lists of moves.
//!
//! A search finds lists of moves, and picks places among them to go on from. By the evaluation function of best-first search (Nilsson
//! 1971) it picks the place of the least value; here the value is the number of moves and a weighted estimate of what the node that they
//! reach still lacks (the weight after Pohl 1970). Weight 0 is breadth. Nodes, moves, the comparison of moves and the estimate are
//! whatever the search says.
//!
//! # Calling it
//!
//! - `specs/Spaces` (and `specs/Moves`, for lists of moves): a `Space` has nodes, and moves that lead from one to another. An `Order`
//!   compares moves, and has the estimate and the weight. `value` is the value of a list of moves.
//! - `specs/Runs`: the found lists and the picked places, by single steps. `Picks`: once all moves of the place that was picked last lead
//!   to nodes that are found, the place of the least value that wasn't picked before is picked, of one value the least place. `Finds`:
//!   a list that goes on from the place that was picked last, by its first move to a node that isn't found, is put behind. `IsOver`: no
//!   place is left.
//! - `specs/Ends`: an `Aim` says which nodes are solved, for how many there is room, and what is asked. `IsStop` is the first place
//!   whose node is solved or for which there is no room. `IsFound`, `IsExhausted` and `IsNodeLimit` are three ends; a search may also
//!   end at a question that meets its limit, one of those of `IsAsked`.
//! - A search is determined ([`runs_are_one`]), and so is its stop ([`one_stop`]). Each node stands once ([`nodes_stand_once`]). Where
//!   no place is left all that moves reach is found ([`all_is_found`]), so where a search is exhausted in one order, it is in no order
//!   found or limited ([`exhausted_in_all`]). At weight 0 the lists are found in the order of breadth ([`blind_is_breadth`]), and the
//!   search ends as `specs/BreadthEnds` says by the order of lists alone ([`blind_ends`]). The laws are calls that do nothing, over a
//!   type that stands for a search ([`Search`]); their statements are in `specs/OrderLaws`.
//! - What a search asks is told by the run that comes to its end ([`asked_by_run`]), and each list on the way to the stop was gone through
//!   ([`one_stop`]).
//! - [`worked_order`] has searches over five nodes, worked by hand.
//! - [`Agenda`] has the places that weren't picked yet: [`Agenda::add`] adds one with its value, and [`Agenda::pick`] takes the one that
//!   is to be picked. Contracts see it as the list of its ranks (`specs/Agendas`), in some order. An agenda of all
//!   places that weren't picked (`IsAgendaOf` of `specs/OpenPlaces`) gives the next place, and goes on so ([`agenda_goes_on`]); at weight 0
//!   a counter does ([`blind_needs_no_agenda`]). [`value_of`] computes a value.
//! - No clause of a public call cites `specs/Places`, `RunLaws`, `RunOrigins`, `AnyOrder`, `EndLaws`, `Asked`, `Frontier`,
//!   `Beginnings`, `Shortlex`, `AtZero`, `Prefixes`, `BlindEnds` and `AgendaLaws`: they have the lemmas behind the laws, for the crates
//!   above. Of `Breadth`, which has more of these, a law cites `down_from`.
#![tactic(auto)]

mod agenda;
mod evaluation;
mod laws;
mod searches;
#[cfg(test)]
mod tests;

pub use agenda::Agenda;
pub use evaluation::value_of;
pub use laws::{
    agenda_goes_on, all_is_found, asked_by_run, blind_ends, blind_is_breadth,
    blind_needs_no_agenda, exhausted_in_all, nodes_stand_once, one_stop, runs_are_one,
    worked_order,
};
pub use searches::Search;
