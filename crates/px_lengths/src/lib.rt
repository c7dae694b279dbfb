//! How long the transcript of a script is at most.
//!
//! # Calling it
//!
//! - `longest_transcript` of `specs/Longest` is a number for each script, and no text of lawful replies to its first commands is longer
//!   ([`texts_are_bounded`], in `specs/Bounded`). It is made of a bound for each kind of reply, by the numbers of the problem, and of how
//!   many commands there are; none of the bounds is the least one.
//! - The line that sums up a demo and the line of a certificate have bounds, too.
//! - The law is a call that does nothing.
#![tactic(auto)]

mod laws;

pub use laws::texts_are_bounded;
