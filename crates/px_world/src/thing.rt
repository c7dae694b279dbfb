//! What a building is made of.

/// A thing of a building, as it stands at first. The numbers are those of objects.
#[derive(Clone, Copy, PartialEq, Eq, Debug)]
pub enum Thing {
    /// A room.
    Room,
    /// A door between two rooms.
    Door {
        /// The one room.
        a: u32,
        /// The other room.
        b: u32,
        /// Whether it is open.
        is_open: bool,
    },
    /// A box.
    Box {
        /// The room in which it stands.
        room: u32,
    },
    /// The robot.
    Robot {
        /// The room in which it stands.
        room: u32,
    },
}
