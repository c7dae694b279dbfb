//! What a line of a script adds.
//!
//! # Calling it
//!
//! - [`declare`] adds what a line without a fault says to what the lines before it have declared (`leaves` of `px_so_far`). Of facts there
//!   may then be too many.
//! - It is called with the statement of a line in its form in which `fault` of `px_causes` found nothing, and with what lines without a
//!   fault have declared (`AreInRange` of `px_script`).
//! - Where memory runs out a part of the line may be added: nothing more is then to be read.
//!
//! It is one match over the statements; what each adds stands in `declaring`, `blocks`, `tables`, `sorts` and `commands`. Of `specs/`,
//! public clauses cite `FreshNames`.
#![tactic(auto)]

mod blocks;
mod commands;
mod declaring;
mod sorts;
mod tables;

pub use declaring::declare;
