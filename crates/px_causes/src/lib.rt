//! The causes to refuse a line of a script.
//!
//! # Calling it
//!
//! - [`fault`] returns the first fault of a line in its form after the lines before it, in the order of the causes, but for the limit of
//!   facts. It is the fault of `px_script` (`fault_at`): one that is found always is, and where none is found a line has none, unless it is
//!   one of facts.
//! - It is called with the statement that the line is, and with what lines without a fault have declared (`AreInRange` of `px_script`): so
//!   it is before the first line, and after each line without a fault.
//! - [`has_too_many_facts`] says whether there are more facts than there may be. It is asked once a line of facts is added, since the facts
//!   are a set.
//! - [`LineFault`] is what is wrong with a line; `numbers` gives its code, and the number of the limit that is passed ([`PassedLimit`]).
//!   `fault` never gives `NotText`, `BadToken`, `UnknownWord` and `MissingEnd`, which `px_reader` finds.
//!
//! A file has each cause's tests: `order`, `naming` (names, numbers of arguments, what may stand), `duplicates`, `limits`, `closing`. Most
//! go over the line's items, whatever its word; what the word alone says, its own limits and what may stand once, is told by the
//! statement. Of `specs/`, public clauses cite `FaultViews` and `EarlyFaults`.
#![tactic(auto)]

mod causes;
mod closing;
mod duplicates;
mod limits;
mod line_fault;
mod naming;
mod order;

pub use causes::fault;
pub use limits::has_too_many_facts;
pub use line_fault::{LineFault, PassedLimit};
