//! How many robots are listed.

/// No robot, one and its room, or several.
#[derive(Clone, Copy, PartialEq, Eq, Debug)]
pub enum Robots {
    /// No robot.
    None,
    /// One, in that room.
    One(u32),
    /// More than one.
    Several,
}
