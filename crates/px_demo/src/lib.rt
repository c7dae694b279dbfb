//! The script of the demo: errands from room to room, made from two numbers.
//!
//! # Calling it
//!
//! - [`demo_script`] gives the bytes of the script for 3 to 12 rooms and a seed (`specs/Limits`). They are `demo_script` of
//!   `specs/Script.antt`: a list of lines, each a list of words, where each line ends with a line feed.
//! - The building is a row of rooms, `R1` and on, with an open door `D1`, `D2` and on between each two neighbours, a box
//!   `B1` in the second and the robot in the first room. Then there are as many errands as rooms: each asks for a plan to
//!   a room, learns it and runs it.
//! - The target of an errand follows from numbers that the seed determines (`room_after` in `specs/Errands.antt`). Each is at most
//!   two rooms on, or back where there is no such room.
//! - That the bytes are a script is a law of `px_demo_script`, `demo_is_script`.
#![tactic(auto)]

mod errands;
mod laws;
mod limits;
mod script;
#[cfg(test)]
mod tests;

pub use laws::worked_demo;
pub use limits::{LEAST_ROOMS, MOST_ROOMS, MOST_SEED};
pub use script::demo_script;
