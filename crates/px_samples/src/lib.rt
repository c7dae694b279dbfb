//! Sample problems and their parts, for the crates of tests, since no crate sees the test code of another.
//!
//! # Calling it
//!
//! Only tests call it, and it promises nothing except that it is safe and ends. Nothing here can end a process, so what makes lists
//! returns `None` where there is no memory, and where the parts don't make what is asked for; a test takes it by `expect`.
//!
//! - [`o`] and [`v`] are terms; [`atom`] and [`instance`] ask that there are few enough of them. [`yes`] and [`no`] are literals.
//! - [`add_axiom`], [`schema`] and [`problem_of`] make problems. Their limits are height 4, one node and 10000 shapes, which a test
//!   changes; [`model_of`] makes models.
//! - [`rooms`] is the example of Fikes, Hart and Nilsson (1972), in which a robot goes through a door and pushes a box through one:
//!   its facts are [`is_in`], [`connects`] and [`is_box`], its model is [`opening`], and its goal [`box_in_first_room`]. In
//!   [`sorted_rooms`] only the box can be pushed.
//! - [`fact`], [`row`] and [`mark`] are parts of tables. [`moving`] is the table of going and pushing in a [`RoomScene`]: of
//!   the plan of 1972, with [`objects`], or of what it generalises to, with [`parameters`].
#![tactic(auto)]

mod doors;
mod parts;
mod tables;

pub use doors::{ROBOT, box_in_first_room, connects, is_box, is_in, opening, rooms, sorted_rooms};
pub use parts::{add_axiom, atom, instance, model_of, no, o, problem_of, schema, v, yes};
pub use tables::{RoomScene, fact, mark, moving, objects, parameters, row};
