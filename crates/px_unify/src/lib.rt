//! Unification of atoms without function symbols, by bindings that can be taken back.
//!
//! # Calling it
//!
//! - [`Bind`] holds variables, numbered from 0, and what they are bound to. Contracts see it as the list of the
//!   changes that made it: a fresh variable, or a binding of a variable to a term. Nothing else is in it, so two
//!   `Bind`s with the same changes are the same.
//! - `Bind::new` has no variable. `fresh` adds some, and is the one call that takes memory: it makes the room for
//!   a binding of each variable. It answers `Full` exactly where there would be more than [`MOST_VARIABLES`].
//! - [`unify`] makes two atoms equal by binding as little as it can. Whoever calls it sees to it that their
//!   variables are variables of the bindings, and that they have no wild card. A substitution, a list with a term
//!   for each variable, fits the new bindings exactly where it fitted the old ones and makes the atoms equal.
//!   [`Clash`] comes exactly where no substitution that fits makes them equal, and then nothing has changed.
//! - `resolve` follows bindings to an object or to a variable that is not bound, to which each substitution that
//!   fits gives the value of the term asked for. Bindings never go in a circle, and whatever the variables that
//!   are not bound stand for, some substitution fits (`HasSolutions`).
//! - `mark` is the length of the list of changes, and `undo_to` cuts the list there. What was then made by `fresh`
//!   and `unify` is taken back, variables and bindings alike, and nothing else.
//! - The definitions are in `specs/Changes.antt`, and `specs/ChangeLaws.antt` has the laws that callers need: what
//!   fits later has fitted before; `fresh` changes nothing about what fits; what is at a mark; and that pairs of
//!   atoms unified one after the other leave the substitutions that make each of the pairs equal.
#![tactic(auto)]

mod bind;
mod change;
mod room;
#[cfg(test)]
mod tests;

pub use bind::{Bind, TrailMark, unify};
pub use change::{BindErr, Change, Clash, MOST_VARIABLES};
