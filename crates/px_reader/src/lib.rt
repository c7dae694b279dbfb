//! Reads a script, or finds its first fault.
//!
//! # Calling it
//!
//! - [`read_script`] takes the bytes of an input, fewer than 4,294,967,295, and returns a [`px_script::Script`]: its names, its
//!   problem, its facts, its building if it has one, and its commands. What it is about follows from the bytes alone
//!   (`IsScript` of `px_script`). The problem is valid, each of its numbers has a name, the facts are ground atoms of it, the
//!   numbers in the commands are in range, and all is within the limits. A `Script` keeps that (`in_range`, by `IsInRange` of
//!   `px_script`), so a caller may hand its parts on to the search and the printer. One that is read has only commands of words
//!   that are built (`of_stage`, by `IsOfStage`).
//! - Where the bytes are no script it returns [`ScriptErr::Refused`] with the first fault: its line from 1, its code, and
//!   the number of the limit that is passed, or 0. That comes exactly where `FirstFault` of `px_script` holds.
//! - [`px_script::Command`] is what a script asks for, in its order.
//! - What lines say is declared and checked. A building's script has the problem of `px_rooms` and the facts of its first state. A table
//!   of the script is checked whole where its block ends, by `rows_make_table` of `px_table`: nothing of its text is trusted. Each is then
//!   a table of the script's problem ([`px_script::Script`]), and a block that makes none is refused with code 12. The words that are
//!   built are listed in one place, `STAGE` of `reading` (`stage_now` of `px_script`); below it all is proved for whatever words are
//!   built. A line of another word is refused with code 11 where no cause stands before it. A bad form, such as the bare word `room`, has
//!   code 2; and a line out of order has code 9.
//! - Tokens and names borrow from the input. How fast it reads is measured (`bench/reading`). Its tests stand in
//!   `px_run_tests` (`reading_tests`), since a crate with tests is proved twice.
//!
//! # How it is made
//!
//! A line is read by `px_lines` and named by `px_statements`. `SoFar` of `px_so_far` has what the lines so far have declared. The causes to
//! refuse a line are tests in the order of their codes (`px_causes`); a line without a fault is declared (`px_effects`). Only facts are
//! counted after they are added. Of `specs/`, public clauses cite only `LineReads`.
#![tactic(auto)]

mod lines;
mod reading;
mod refused;

pub use reading::read_script;
pub use refused::{Refused, ScriptErr};
