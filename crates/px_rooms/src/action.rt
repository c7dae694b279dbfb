//! What the robot does.

/// An action of the robot, with its objects in the order of the operator's parameters.
#[derive(Clone, Copy, PartialEq, Eq, Debug)]
pub enum RoomAction {
    /// Goes to a box in a room.
    GoToBox(u32, u32),
    /// Goes to a door from the room where it is, which it connects with another.
    GoToDoor(u32, u32, u32),
    /// Opens a door.
    Open(u32),
    /// Closes a door.
    Close(u32),
    /// Goes through a door from a room to another.
    GoThrough(u32, u32, u32),
    /// Pushes a box to a door from the room where they are, which it connects with another.
    PushToDoor(u32, u32, u32, u32),
    /// Pushes a box through a door from a room to another.
    PushThrough(u32, u32, u32, u32),
}
