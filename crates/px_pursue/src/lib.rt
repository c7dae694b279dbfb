//! Pursuit: plans, executes, and plans again where no kernel of the plan fits (after STRIPS and PLANEX: Fikes and Nilsson 1971; Fikes, Hart
//! and Nilsson 1972).
//!
//! # Calling it
//!
//! - [`pursue`] asks what `search` of `px_search` asks, and for a world with the problem's objects, axioms and operators that admits each
//!   edit of what is recorded ([`Recorded`]). It searches for a plan from the world's atoms, and executes its table turn by turn, as `run`
//!   of `px_turns` does. Where a turn finds no kernel it searches again, from the atoms that were sensed there; the edits that are recorded
//!   for that turn between sensing and action don't come, and the numbers of the turns go on. It ends at the goal, or as a search that ends
//!   without a plan ([`PursueEnd`]). `IsPursuit` in `specs/Pursuits` says so; it is the clause `pursues`.
//! - What it did is a [`Pursued`]: how many searches it made, its turns ([`PursuedTurn`]), how it ended, and the world's atoms after it.
//! - The one other answer is `NoMemory`. Each run's memory is taken before its first turn. So the world is then as some runs left it that
//!   ended where no kernel fitted (`RunsInVain`), which may be none.
//! - A pursuit is determined, but for the question at which a search met the limit of shapes ([`pursuits_are_one`]). With `D` recorded
//!   disturbances it makes at most `D + 1` searches ([`searches_are_few`], the clause `few`), since a run that ends where no kernel fits
//!   was disturbed ([`vain_runs_are_few`]): a plan's first kernel fits the atoms from which it was found ([`plans_fit`]). Where no plan
//!   that it finds has more than `n` steps, it has at most `(2 * D + 1) * (n + 1)` turns ([`pursuits_are_short`]).
//! - Where it ends at the goal, the goal holds in each state in which the axioms and the world's atoms hold ([`goals_are_reached`], the
//!   clause `reached`).
//! - The laws are calls that do nothing. They are about sets of atoms, whatever an edit leaves of them, so each holds in every world.
//!
//! # Inside
//!
//! No public clause cites `specs/Seeking`: it serves private functions alone.
#![tactic(auto)]

mod aim;
mod laws;
mod pursuing;
mod seeking;

pub use laws::{
    goals_are_reached, plans_fit, pursuits_are_one, pursuits_are_short, searches_are_few,
    vain_runs_are_few,
};
pub use pursuing::{Pursued, pursue};
pub use px_printer::{PursueEnd, Turn as PursuedTurn};
pub use px_turns::Recorded;
