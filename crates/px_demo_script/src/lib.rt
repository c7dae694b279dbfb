//! That the demo's bytes are a script, whatever the number of rooms and the seed.
//!
//! # Calling it
//!
//! - `specs/Value` says what the demo's script is about (`demo_value`): a row of rooms with an open door between each two neighbours, and
//!   for each errand three commands, which plan it, learn the plan and run it.
//! - [`demo_is_script`] has it that the bytes that `px_demo` makes for 3 to 12 rooms and any seed are that script (`IsScript` of px_script).
//!   It is a law: a call that does nothing. So no demo is refused.
#![tactic(auto)]

mod laws;

pub use laws::demo_is_script;
