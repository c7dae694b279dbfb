//! Things as they stand in a building.
// Alike: `Thing` of `px_world`, which is what a building is made of: there a box is beside no door, and the robot is a thing.

/// A thing as it stands. The numbers are those of objects.
#[derive(Clone, Copy, PartialEq, Eq, Debug)]
pub enum Standing {
    /// A room.
    Room,
    /// A door between two rooms.
    Door {
        /// The one room.
        a: u32,
        /// The other room.
        b: u32,
        /// Whether it is open.
        is_open: bool,
    },
    /// A box.
    Box {
        /// The room in which it stands.
        room: u32,
        /// The door that it is beside.
        beside: Option<u32>,
    },
}
